//! The texts of the lines of the generated script.
ghost use Rattle.std.specs.Prelude.{◌≡◌, ◌≤◌, IfOk, string_bytes};
ghost use Rattle.cs_gen.specs.Generated.{author, post, created_line, deleted_line};
ghost use Rattle.cs_gen.specs.Lines.{text_of, IsInside};

use crate::lines::Line;
use cs_value::NoMemory;
use std::alloc::Global;

const LISTEN: &str = "{\"listen\":\"authors\",\"query\":\"*[_type == 'author']\"}";

const LIVE: &str = "{\"live\":\"low\",\"query\":\"*[rank == 7 && _type == 'post'] | order(_id asc)\
    [0..4]{_id}\"}";

const COUNT: &str = "{\"query\":\"count(*)\"}";

// An author is created.
fn author(alloc: Global, i: u32) -> Result<String, NoMemory>
    ensures { IfOk result (λ line. string_bytes line ≡ author i) }
{
    Ok(format!(in alloc;
        "{{\"mutate\":{{\"mutations\":[{{\"create\":{{\"_id\":\"d-{i}\",\
        \"_type\":\"author\",\"name\":\"Author {i}\"}}}}]}}}}"
    )?)
}

// A post of the author before it is created.
fn post(alloc: Global, i: u32) -> Result<String, NoMemory>
    requires { i ≤ 100000 }
    ensures { IfOk result (λ line. string_bytes line ≡ post i) }
{
    let before = i - i % 10;
    let rank = 7 * i % 100;
    Ok(format!(in alloc;
        "{{\"mutate\":{{\"mutations\":[{{\"create\":{{\"_id\":\"d-{i}\",\
        \"_type\":\"post\",\"author\":{{\"_ref\":\"d-{before}\"}},\"rank\":{rank},\
        \"title\":\"Post {i}\"}}}}]}}}}"
    )?)
}

fn deleted(alloc: Global, i: u32) -> Result<String, NoMemory>
    ensures { IfOk result (λ line. string_bytes line ≡ deleted_line i) }
{
    Ok(format!(in alloc; "{{\"mutate\":{{\"mutations\":[{{\"delete\":{{\"id\":\"d-{i}\"}}}}]}}}}")?)
}

// A document is created: every tenth is an author.
fn created(alloc: Global, i: u32) -> Result<String, NoMemory>
    requires { i ≤ 100000 }
    ensures { IfOk result (λ line. string_bytes line ≡ created_line i) }
{
    if i % 10 == 0 {
        author(alloc, i)
    } else {
        post(alloc, i)
    }
}

fn copy(alloc: Global, text: &str) -> Result<String, NoMemory>
    ensures { IfOk result (λ line. string_bytes line ≡ text.now) }
{
    Ok(String::from_str(alloc, text)?)
}

/// The text of a line.
pub(crate) fn write(alloc: Global, line: Line) -> Result<String, NoMemory>
    requires { IsInside line }
    ensures { IfOk result (λ text. string_bytes text ≡ text_of line) }
{
    match line {
        Line::Listen => copy(alloc, LISTEN),
        Line::Live => copy(alloc, LIVE),
        Line::Created(i) => created(alloc, i),
        Line::Deleted(i) => deleted(alloc, i),
        Line::Count => copy(alloc, COUNT),
    }
}
