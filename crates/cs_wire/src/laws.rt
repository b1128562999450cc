//! What holds of each command.
ghost use Rattle.cs_wire.specs.Within.{CommandsAreWithin};

/// Law: no text of a command has more bytes than the longest text of the value that it is, so what
/// bounds a line bounds the texts of queries and of paths.
pub fn commands_are_within()
    ensures { CommandsAreWithin }
{}
