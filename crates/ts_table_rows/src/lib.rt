//! Reads and writes tables by their layouts. A run of sections comes in and values go out, or values come in and
//! sections go out. The layer above rests on `read_table`, exact to the first broken rule, and on `write_table`,
//! exact to the rule of filling.
#![tactic(auto)]

mod fault;
mod filling;
mod filling_laws;
mod item;
mod item_list;
mod layout;
mod read_body;
mod read_item;
mod read_laws;
mod read_loop;
mod read_run;
mod round_trip;
mod table;
mod write_laws;
mod write_rows;
mod write_run;

pub use fault::{TableFault, TableRefusal, TableRule};
pub use filling_laws::filled_greedily;
pub use item::Item;
pub use item_list::ItemList;
pub use layout::{ItemForm, LoopForm, TableLayout};
pub use read_run::read_table;
pub use round_trip::written_tables_are_read;
pub use table::{Table, TableBody, TableHead, TableItem};
pub use write_laws::written_rows_are_whole;
pub use write_rows::held_count;
pub use write_run::write_table;
