//! The tables of MPEG: PAT, CAT and PMT. A run of sections comes in and a table goes out, or a table comes in and its
//! sections go out. The layer above rests on `read`, exact to the first broken rule, and on `sections`, exact to the
//! rule of filling.
//!
//! `sections` takes an allocator, as `read` does, and `copy` takes none: a copy is in the memory of its value's
//! allocator, and what is written may be in another's.
#![tactic(auto)]

mod cat;
mod entries;
mod pat;
mod pmt;
mod pmt_values;

pub use cat::Cat;
pub use pat::{Pat, PatService, PatServiceList};
pub use pmt::{Component, ComponentList, Pmt};
pub use ts_table_pages::{cat_layout, pat_layout, pmt_layout};
