//! Edits of the tables on the PID of a service's PMT. Packets of any PID come in; those on the PID that the PAT in force
//! names first for the service go out with edited tables, and others pass. The layer above gives an edit of tables, and
//! uses `ServiceEditSteps` by the clauses of `Steps`.
#![tactic(auto)]

mod edited_packet;
mod service_steps;
mod service_table_edit;
mod table_editor;

pub use edited_packet::EditedPacket;
pub use service_steps::{ServiceEditSteps, new_service_steps};
pub use service_table_edit::ServiceTableEdit;
pub use table_editor::TableEditor;
