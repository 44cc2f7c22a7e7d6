//! Definitions alone: the bits of a row of bytes, and the number that a row of bits gives.
//! The fields of packets, sections and descriptors are defined by `specs/BitRow.antt`.
#![tactic(auto)]
