//! Numbers of any width in bits, decimal digits and descriptors, read from and written to bytes.
//! The layer above uses `bits` and `put_bits`, which read and set the fields of `ts_bit_rows`.
#![tactic(auto)]

mod decimal;
mod descriptor;
mod descriptor_loop;
mod loop_laws;
mod row;

pub use decimal::{BcdFault, bcd, put_bcd};
pub use descriptor::Descriptor;
pub use descriptor_loop::{DescriptorList, LoopFault, read_loop, write_loop};
pub use loop_laws::loops_are_whole_or_cut;
pub use row::{ShortInput, bits, put_bits};
