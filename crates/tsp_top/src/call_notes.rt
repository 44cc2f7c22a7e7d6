//! What is noted of the plugins of a run, where that is asked.

use crate::end_line::end_line_text;
use chain_core::Closed;
use plugin_set::{AnyPlugin, ChangedOn, Changes, Idle, SeesTables};
use plugin_trait::Heard;
use std::alloc::{AllocError, Global};

/// A plugin that was idle.
#[derive(Clone, Copy)]
pub struct IdlePlugin {
    /// Its number in the chain, counted from 1.
    pub number: u32,
    pub why: Idle,
}

/// A table that changed without a new version, as a plugin that uses it met it.
#[derive(Clone, Copy)]
pub struct NotedChange {
    /// The plugin's number in the chain, counted from 1.
    pub number: u32,
    pub changed: ChangedOn,
}

/// The plugins of a run that edited, inserted or read nothing, the tables that changed without a new version, and the end of a
/// run whose report was bare. They explain a run; no clause speaks of them.
#[derive(Drop)]
pub struct PluginNotes {
    asked: bool,
    idle: Vec<IdlePlugin>,
    changes: Vec<NotedChange>,
    end: Option<Closed>,
    alloc: Global,
}

impl PluginNotes {
    /// They are noted where they are asked. Where they are not, no plugin is asked, and no memory is taken.
    pub fn new(alloc: Global, asked: bool) -> PluginNotes {
        PluginNotes {
            asked,
            idle: Vec::new(alloc),
            changes: Vec::new(alloc),
            end: None,
            alloc,
        }
    }

    /// The plugins that were idle, in their order.
    pub fn idle(&self) -> &[IdlePlugin] {
        self.idle.as_slice()
    }

    /// The changes before the cut, one for each plugin and PID, by plugins in their order.
    pub fn changes(&self) -> &[NotedChange] {
        self.changes.as_slice()
    }

    /// The line for the end of a run whose report was bare and went well; `None` of any other call. It is no part of the report.
    pub fn end_line(&self, alloc: Global) -> Result<Option<String>, AllocError> {
        match self.end {
            Some(closed) => Ok(Some(end_line_text(alloc, closed.cause, closed.cut)?)),
            None => Ok(None),
        }
    }

    /// Notes how a run ended, where its report was bare and did not fail.
    pub(crate) fn note_end(&mut self, bare: bool, failed: bool, closed: Closed) {
        if bare && !failed {
            self.end = Some(closed);
        }
    }

    /// Notes which of these plugins were idle, before they report. One for which there is no memory is left out.
    pub(crate) fn note_idle(&mut self, plugins: &[Heard<AnyPlugin>]) {
        if !self.asked {
            return;
        }
        let mut number = 0u32;
        for heard in plugins {
            number = number.saturating_add(1);
            let Ok(Some(why)) = heard.plugin.idle() else {
                continue;
            };
            let Ok(()) = self.idle.push(IdlePlugin { number, why }) else {
                return;
            };
        }
    }

    /// Notes which tables these plugins saw change before the cut, after they reported. Those for which there is no memory
    /// are left out.
    pub(crate) fn note_changes<P: SeesTables>(&mut self, plugins: &[Heard<P>], cut: u64) {
        if !self.asked {
            return;
        }
        let mut number = 0u32;
        for heard in plugins {
            number = number.saturating_add(1);
            let mut changes = Changes::new(self.alloc);
            let Ok(()) = heard.plugin.add_changes(&mut changes) else {
                continue;
            };
            self.push_changes(number, changes.rows(), cut);
        }
    }

    // Notes the changes of one plugin that are before the cut.
    fn push_changes(&mut self, number: u32, rows: &[ChangedOn], cut: u64) {
        for row in rows {
            if row.table.at < cut {
                let changed = *row;
                let Ok(()) = self.changes.push(NotedChange { number, changed }) else {
                    return;
                };
            }
        }
    }
}
