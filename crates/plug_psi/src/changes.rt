//! The PIDs on which tables changed without a new version.

use crate::reading::Reading;
use std::alloc::{AllocError, Global};
use ts_demux::{ChangedTable, PidTables};

/// The first table on a PID that changed without a new version. It explains a run, and no rule rests on it.
#[derive(Clone, Copy, PartialEq, Eq)]
pub struct ChangedOn {
    /// The PID.
    pub pid: u16,
    /// The table, and the position of the packet with which it changed.
    pub table: ChangedTable,
}

/// What reads the tables of one PID, and sees whether they change without a new version.
pub trait SeesChanges {
    /// The first table that did, if one did.
    fn changed(&self) -> Option<ChangedTable>;
}

impl SeesChanges for PidTables {
    fn changed(&self) -> Option<ChangedTable> {
        PidTables::changed(self)
    }
}

impl<T: Drop> SeesChanges for Reading<T> {
    fn changed(&self) -> Option<ChangedTable> {
        self.tables.changed()
    }
}

/// For each PID with such a table the first one, in the order in which the PIDs were added.
#[derive(Drop)]
pub struct Changes {
    rows: Vec<ChangedOn>,
}

impl Changes {
    /// No PID.
    pub fn new(alloc: Global) -> Changes {
        Changes {
            rows: Vec::new(alloc),
        }
    }

    /// The PIDs that were added, each once.
    pub fn rows(&self) -> &[ChangedOn] {
        self.rows.as_slice()
    }

    /// Adds a PID, if a table changed there. Where it was added before, the earlier change stays.
    pub fn add(&mut self, pid: u16, changed: Option<ChangedTable>) -> Result<(), AllocError> {
        let Some(table) = changed else {
            return Ok(());
        };
        for row in self.rows.iter_mut() {
            if row.pid == pid {
                if table.at < row.table.at {
                    row.table = table;
                }
                return Ok(());
            }
        }
        self.rows.push(ChangedOn { pid, table })?;
        Ok(())
    }
}
