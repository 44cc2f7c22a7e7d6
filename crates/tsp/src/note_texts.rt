//! The text about plugins: a line for each that edited, inserted or read nothing, with what never came, and for each table
//! that changed without a new version before one that uses it.
use crate::run_texts::plugin_name;
use chain_args::Plan;
use plug_psi::Unedited;
use std::alloc::{AllocError, Global};
use tsp_top::{Idle, IdlePlugin, NotedChange, PluginNotes};

// Why an edit of tables, or one that uses them, found nothing to edit.
fn unedited_text(alloc: Global, why: Unedited) -> Result<String, AllocError> {
    match why {
        Unedited::NoTable(pid) => format!(in alloc; "no table came on PID {pid}"),
        Unedited::SameTables(pid) => format!(in alloc;
            "the last tables on PID {pid} have nothing that it changes"
        ),
        Unedited::NoPat => format!(in alloc; "no PAT came"),
        Unedited::NoService(service) => format!(in alloc;
            "the last PAT has no service {service}; -P info lists those that it has"
        ),
        Unedited::NoPmt(service) => format!(in alloc; "no PMT of service {service} came"),
    }
}

// Why a plugin was idle.
fn why_text(alloc: Global, why: Idle) -> Result<String, AllocError> {
    match why {
        Idle::Unedited(why) => unedited_text(alloc, why),
        Idle::NoSdt => format!(in alloc; "no SDT came that names services"),
        Idle::NoName => format!(in alloc;
            "the last SDT has no service of that name; -P info lists those that it has"
        ),
        Idle::NoneMoved => format!(in alloc; "no packet came on the PIDs that it moves"),
        Idle::NoPlace(pid) => format!(in alloc;
            "no packet came on PID {pid} whose place it could take"
        ),
        Idle::NothingToInsert => format!(in alloc; "its file has no sections"),
        Idle::NoTables => format!(in alloc; "no table came"),
        Idle::NoTime => format!(in alloc;
            "no TDT and no TOT with a right CRC came whole in a packet"
        ),
        Idle::NoSection => format!(in alloc; "no EIT section came that it changes or removes"),
    }
}

// The line about one plugin.
fn push_idle(
    alloc: Global,
    text: &mut String,
    plan: &Plan,
    plugin: &IdlePlugin,
) -> Result<(), AllocError> {
    let why = why_text(alloc, plugin.why)?;
    let name = plugin_name(plan, plugin.number);
    let number = plugin.number;
    write!(text, "plugin {number}, -P {name}: {why}\n")
}

// The line about a table that changed without a new version.
fn push_change(text: &mut String, plan: &Plan, noted: &NotedChange) -> Result<(), AllocError> {
    let name = plugin_name(plan, noted.number);
    let number = noted.number;
    let pid = noted.changed.pid;
    let table_id = noted.changed.table.table_id;
    let at = noted.changed.table.at;
    write!(
        text,
        "plugin {number}, -P {name}: table_id {table_id} on PID {pid} changed without a new version at packet {at}\n"
    )
}

/// A line for each of the notes; no text where there are none.
pub(crate) fn notes_text(
    alloc: Global,
    plan: &Plan,
    notes: &PluginNotes,
) -> Result<String, AllocError> {
    let mut text = String::new(alloc);
    for plugin in notes.idle() {
        push_idle(alloc, &mut text, plan, plugin)?;
    }
    for noted in notes.changes() {
        push_change(&mut text, plan, noted)?;
    }
    Ok(text)
}
