//! What no clause of cs_jsonmatch says, tested: paths, read and followed.
#![tactic(auto)]

#[cfg(test)]
mod tests;
