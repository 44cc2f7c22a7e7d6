//! The content of the sections of a table.

use crate::eit::write_eit;
use crate::page::PidPage;
use crate::psi::{write_cat, write_pat, write_pmt};
use crate::si::{write_bat, write_nit, write_sdt};
use ts_section::TableRun;

/// Writes the content of a table, if its table_id is one of those below.
pub fn write_table(page: &mut PidPage, run: &TableRun) {
    let Some(first) = run.sections().first() else {
        return;
    };
    match first.table_id() {
        0x00 => write_pat(page, run),
        0x01 => write_cat(page, run),
        0x02 => write_pmt(page, run),
        0x40 | 0x41 => write_nit(page, run),
        0x42 | 0x46 => write_sdt(page, run),
        0x4A => write_bat(page, run),
        0x4E..=0x6F => write_eit(page, run),
        _ => {}
    }
}
