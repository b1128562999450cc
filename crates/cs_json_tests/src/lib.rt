//! What no clause of cs_json says, tested: texts that are read, values and nodes that are written.
#![tactic(auto)]

#[cfg(test)]
mod tests;
