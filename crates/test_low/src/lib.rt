//! The tests of the crates of packets, sections, fields, tables and descriptors, in a crate of their own: a crate
//! with tests is proved twice, and this one takes little time.
#![tactic(auto)]

#[cfg(test)]
mod bits;
#[cfg(test)]
mod compared;
#[cfg(test)]
mod cycles;
#[cfg(test)]
mod days;
#[cfg(test)]
mod delivery_descriptors;
#[cfg(test)]
mod demultiplexing;
#[cfg(test)]
mod dvb_descriptors;
#[cfg(test)]
mod eit;
#[cfg(test)]
mod fields;
#[cfg(test)]
mod generated;
#[cfg(test)]
mod invalid_pmt;
#[cfg(test)]
mod mpeg_descriptors;
#[cfg(test)]
mod packets_of_bytes;
#[cfg(test)]
mod psi;
#[cfg(test)]
mod sections;
#[cfg(test)]
mod si;
#[cfg(test)]
mod table_rows;
#[cfg(test)]
mod tables_of_bytes;
