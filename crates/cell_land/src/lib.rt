//! Windows of cells: packets that lie side by side in one block, and their marks in another. The layer above uses `cell_land` and
//! `CellWindow`, which contracts see as its blocks, its start and its cells.
#![tactic(auto)]

mod cell_window;

pub use cell_window::{Bases, CellWindow, cell_land};
