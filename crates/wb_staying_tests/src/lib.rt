//! Tests of desks that stay, through the public calls, over memory.
#![tactic(auto)]

#[cfg(test)]
mod stays;
