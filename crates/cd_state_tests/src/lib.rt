//! Tests of how a domain is preserved, tried and put back, of its states, of the cells that states stand in, and of the engines that
//! run them. They stand apart, so that those crates are proved without them.
#![tactic(auto)]

#[cfg(test)]
mod tests;
