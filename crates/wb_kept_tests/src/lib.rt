//! Tests of what is kept on disk, through the public calls: a real file and one in memory, the log of lines, sessions over the
//! smallest machine, and turns that threads keep together.
#![tactic(auto)]

#[cfg(test)]
mod compact;
#[cfg(test)]
mod disk;
#[cfg(test)]
mod files;
#[cfg(test)]
mod group;
#[cfg(test)]
mod keep;
#[cfg(test)]
mod session;
#[cfg(test)]
mod tally;
