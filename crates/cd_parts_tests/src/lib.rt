//! Tests of the crates that stand on few others: the ground, trees, machines and operations, the reading, passes, command lines and texts.
//! They stand apart, so that those crates are proved without them.
#![tactic(auto)]

#[cfg(test)]
mod tests;
