//! What no clause of cs_index says, tested: an index that is built, and one that follows commits.
#![tactic(auto)]

#[cfg(test)]
mod tests;
