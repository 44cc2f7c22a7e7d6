//! The tests of the JSON crates and of the table compiler, in a crate of their own: a crate with tests is proved twice,
//! and this one takes little time.
#![tactic(auto)]

#[cfg(test)]
mod calls;
#[cfg(test)]
mod compared;
#[cfg(test)]
mod conversions;
#[cfg(test)]
mod descriptors;
#[cfg(test)]
mod elements;
#[cfg(test)]
mod faults;
#[cfg(test)]
mod longest_pmt;
#[cfg(test)]
mod nested_arrays;
#[cfg(test)]
mod tables;
