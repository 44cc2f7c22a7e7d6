//! The layouts of the tables of MPEG and DVB, one row a field; each is the page of the standard in `specs/`. The
//! layers above rest on the layouts `pat_layout` to `eit_layout`, each of which is sound.
#![tactic(auto)]

/// The rows of a layout: `"name" kind, absent;`, or `"name" kind, absent, range;` where the range is narrower.
macro_rules! rows {
    ($($name:literal $kind:expr, $absent:expr, $range:expr;)*) => {
        &[$(Field { name: $name, kind: $kind, absent: $absent, range: $range }),*]
    };
    ($($name:literal $kind:expr, $absent:expr;)*) => {
        &[$(Field { name: $name, kind: $kind, absent: $absent, range: None }),*]
    };
}

mod eit;
mod psi;
mod si;

pub use eit::eit_layout;
pub use psi::{cat_layout, pat_layout, pmt_layout};
pub use si::{bat_layout, nit_layout, sdt_layout};
