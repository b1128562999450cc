//! The kinds that some queries want: no clause says which.
use super::*;
use cs_codes::KeyKind;
use cs_parse::parse;
use cs_view::Names;
use std::alloc::Global;
use std::test::Fail;

// The names with dots between them, behind a word.
fn dotted(alloc: Global, word: &str, names: &Names) -> Result<String, Fail> {
    let mut dotted = String::from_str(alloc, word)?;
    for name in names.texts() {
        dotted.push('.')?;
        dotted.push_str(name.as_str())?;
    }
    Ok(dotted)
}

fn kind_words(alloc: Global, kind: &KeyKind) -> Result<String, Fail> {
    match kind {
        KeyKind::Path(names) => dotted(alloc, "path", names),
        KeyKind::Elem(names) => dotted(alloc, "elem", names),
        KeyKind::Ref => Ok(String::from_str(alloc, "ref")?),
    }
}

// The kinds that the query wants, each behind a blank.
fn wanted_words(alloc: Global, text: &str) -> Result<String, Fail> {
    let mut words = String::new(alloc);
    if text.len() > 4_096 {
        return Ok(words);
    }
    match parse(alloc, text) {
        Ok(query) => {
            for kind in &wanted_kinds(alloc, &query)? {
                words.push(' ')?;
                words.push_str(kind_words(alloc, kind)?.as_str())?;
            }
        }
        Err(_) => words.push_str(" no query")?,
    }
    Ok(words)
}

#[test]
fn the_filters_of_a_query_want_kinds(rt: HostRuntime) -> Result<(), Fail> {
    for row in TABLE.split('\n') {
        if let Some((text, wanted)) = row.split_once(" wants") {
            let words = wanted_words(rt.alloc(), text)?;
            assert_eq!(rt; words.as_str(), wanted, "of {text}");
        }
    }
    Ok(())
}

// Queries, each with the kinds that it wants.
const TABLE: &str = r#"*[_type == 'post' && slug.current == $s][0] wants path.slug.current
count(*['x' in tags && rank == 3]) wants path.rank
*[references('a')]._id wants ref
*[_id == 'a' && rank == 1] wants
*[rank == 1 && (_id == 'a')] wants
*[_type == 'author']{'n': count(*[_type == 'post' && author._ref == ^._id])} wants path._type path.author._ref
*[rank > 3] wants
*[rank == 1 || rank == 2] wants
*[('x' in tags) && hidden == false] wants elem.tags path.hidden
*[(1 == a["b"].c.d && true)] wants path.a.b.c.d
*[a.b.c.d.e == 1] wants
*[a == b] wants
*[_type == 'post' && n == 1 && count(*[m == 2]) > 0] wants path.n path._type path.m
*[_type == 'a'] | order(count(*[n == 1]), m desc)[0..2]{..., x == 1 => {'y': *[o == 2]}} wants path._type path.n path.o
[*[a == 1], -count(*[b == 1]) + 1 in [1, *[c == 1][0].n]] wants path.a path.b path.c
x[y == 1] wants
@ in *[a == 1].b wants path.a"#;
