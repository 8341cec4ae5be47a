//! Tests of sessions and of seats: lines and sessions over devices that fail, command lines, texts of workbooks and of none, texts made
//! those of histories, sessions with a journal, journals made anew, seats on connections, and their door.
#![tactic(auto)]

#[cfg(test)]
mod anew;
#[cfg(test)]
mod connections;
#[cfg(test)]
mod devices;
#[cfg(test)]
mod doors;
#[cfg(test)]
mod journals;
#[cfg(test)]
mod lines;
#[cfg(test)]
mod records;
#[cfg(test)]
mod runs;
#[cfg(test)]
mod texts;
#[cfg(test)]
mod upgrades;
