//! What no clause of cs_body says, tested: bodies that are read, and bodies that are refused.
#![tactic(auto)]

#[cfg(test)]
mod tests;
