//! What no clause of cs_plan says, tested: the keys of filters that were worked out by hand.
#![tactic(auto)]

#[cfg(test)]
mod tests;
