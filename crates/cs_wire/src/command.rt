//! The commands of a script.
ghost use Rattle.std.specs.Prelude.{◌≡◌, Some, None, option_map, MatchResult};
ghost use Rattle.cs_value.specs.View.{tree, fields};
ghost use Rattle.cs_wire.specs.Commands.{mutate_of, query_of, live_of, listen_of, stop_of, at_of};
ghost use Rattle.cs_wire.specs.Rows.{command, rows, by_rows};
ghost use Rattle.cs_wire.specs.View.{request};

use crate::keys::has_keys;
use crate::parts::{take_flag, take_name, take_params, take_text};
use cs_value::{Fields, Txt, Val};
use std::alloc::Global;

/// A command of the script: this project's profile. A `name` has the form of an id, a `text` is
/// that of a query, and `params` are its parameters, an object without attributes where the key is
/// absent.
#[derive(Drop)]
pub enum Command {
    /// A transaction. `body` is what stands under `mutate`, and may be any value.
    Mutate {
        body: Val,
    },
    /// A query over the documents as they now are.
    Query {
        text: Txt,
        params: Fields,
    },
    /// A live query, which is answered again whenever its value changes.
    Live {
        name: Txt,
        text: Txt,
        params: Fields,
    },
    /// A listener, which tells of the documents that its query selects as they change:
    /// `include_result` asks for each document as it is after a change, and `include_previous` as
    /// it was before.
    Listen {
        name: Txt,
        text: Txt,
        params: Fields,
        include_result: bool,
        include_previous: bool,
    },
    /// The end of the live query or listener of the name.
    Stop {
        name: Txt,
    },
    /// The moment of the transactions that follow, which may be any text.
    At {
        moment: Txt,
    },
}

/// The value is no command.
#[derive(Clone, Copy, Debug, Drop, PartialEq, Eq)]
pub struct BadCommand;

impl Command {
    /// The command that the value is. `BadCommand` exactly where the value is no object with the
    /// keys and types of one row of this table; a key with `?` may be absent:
    ///
    /// - `mutate`: any value
    /// - `query`: a text; `params`?: an object
    /// - `live`: a name; `query`: a text; `params`?: an object
    /// - `listen`: a name; `query`: a text; `params`?: an object; `includeResult`?,
    ///   `includePrevious`?: booleans, `false` where absent
    /// - `stop`: a name
    /// - `at`: a text
    ///
    /// A name has the form of an id. The parts are moved out of the value, and no memory is taken:
    /// absent parameters are an object without attributes.
    #[tactic(auto, unfolding(crate::specs::Rows::command))]
    pub fn read(alloc: Global, val: Val) -> Result<Command, BadCommand>
        ensures { MatchResult result (λ c. command (tree val) ≡ Some (request c))
            (λ _. command (tree val) ≡ None) }
    {
        let Val::Obj(object) = val else {
            return Err(BadCommand);
        };
        match read_object(alloc, object) {
            Some(command) => Ok(command),
            None => Err(BadCommand),
        }
    }
}

fn read_object(alloc: Global, object: Fields) -> Option<Command>
    ensures { option_map request result ≡ by_rows rows (fields object) }
{
    if has_keys(&object, &["mutate"], &[]) {
        return mutate(object);
    }
    if has_keys(&object, &["query"], &["params"]) {
        return query(alloc, object);
    }
    if has_keys(&object, &["live", "query"], &["params"]) {
        return live(alloc, object);
    }
    if has_keys(
        &object,
        &["listen", "query"],
        &["params", "includeResult", "includePrevious"],
    ) {
        return listen(alloc, object);
    }
    if has_keys(&object, &["stop"], &[]) {
        return stop(object);
    }
    if has_keys(&object, &["at"], &[]) {
        return at(object);
    }
    None
}

fn mutate(mut object: Fields) -> Option<Command>
    ensures { option_map request result ≡ mutate_of (fields object) }
{
    let body = object.take("mutate")?;
    Some(Command::Mutate { body })
}

fn query(alloc: Global, mut object: Fields) -> Option<Command>
    ensures { option_map request result ≡ query_of (fields object) }
{
    let text = take_text(&mut object, "query")?;
    let params = take_params(alloc, &mut object)?;
    Some(Command::Query { text, params })
}

fn live(alloc: Global, mut object: Fields) -> Option<Command>
    ensures { option_map request result ≡ live_of (fields object) }
{
    let name = take_name(&mut object, "live")?;
    let text = take_text(&mut object, "query")?;
    let params = take_params(alloc, &mut object)?;
    Some(Command::Live { name, text, params })
}

fn listen(alloc: Global, mut object: Fields) -> Option<Command>
    ensures { option_map request result ≡ listen_of (fields object) }
{
    let name = take_name(&mut object, "listen")?;
    let text = take_text(&mut object, "query")?;
    let params = take_params(alloc, &mut object)?;
    let include_result = take_flag(&mut object, "includeResult")?;
    let include_previous = take_flag(&mut object, "includePrevious")?;
    Some(Command::Listen {
        name,
        text,
        params,
        include_result,
        include_previous,
    })
}

fn stop(mut object: Fields) -> Option<Command>
    ensures { option_map request result ≡ stop_of (fields object) }
{
    let name = take_name(&mut object, "stop")?;
    Some(Command::Stop { name })
}

fn at(mut object: Fields) -> Option<Command>
    ensures { option_map request result ≡ at_of (fields object) }
{
    let moment = take_text(&mut object, "at")?;
    Some(Command::At { moment })
}
