//! Cells as two rows: packets that lie side by side, and their marks in a row beside them. The layers above use `Mark`, and in
//! contracts `cells_of`.
#![tactic(auto)]

mod mark;

pub use mark::Mark;
