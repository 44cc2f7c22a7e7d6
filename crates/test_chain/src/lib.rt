//! The tests of the crates of the chain, of the block, the ring and the outside, in a crate of their own: a crate
//! with tests is proved twice, and this one takes little time.
#![tactic(auto)]

#[cfg(test)]
mod blocks;
#[cfg(test)]
mod callers;
#[cfg(test)]
mod compared;
#[cfg(test)]
mod cores;
#[cfg(test)]
mod driver;
#[cfg(test)]
mod files;
#[cfg(test)]
mod outside;
#[cfg(test)]
mod rings;
#[cfg(test)]
mod serial_runs;
#[cfg(test)]
mod stages;
#[cfg(test)]
mod stops_at;
