//! The text about a run that failed: the file and the system's reason, the plugin by its name with its file and the fault in it,
//! or the place at which sync was lost.
use crate::form_seen::{Seen, form_seen};
use chain_args::{Form, InputConf, OutputConf, Plan};
use chain_model::Reason;
use explain_tables::{compile_text, decompile_text};
use plugin_settings::PluginConf;
use std::alloc::{AllocError, Global};
use tabcomp_core::TableFileFault;
use ts_os::{Noted, Trouble, after_name, trouble_text};
use ts_outside::Purpose;
use tsp_top::Status;

/// The settings of the plugin of a number, counted from 1.
fn plugin_of(plan: &Plan, number: u32) -> Option<&PluginConf> {
    let place = usize::try_from(number).ok()?.checked_sub(1)?;
    Some(&plan.plugins.as_slice().get(place)?.conf)
}

/// The name of the plugin of a number, counted from 1.
pub(crate) fn plugin_name(plan: &Plan, number: u32) -> &'static str {
    match plugin_of(plan, number) {
        Some(conf) => conf.name(),
        None => "",
    }
}

/// What the empty name of a file that is read is called.
const STANDARD_INPUT: &str = "standard input";

/// What that of one that is written is called.
const STANDARD_OUTPUT: &str = "standard output";

// A name, or other words where it is that of a standard stream.
fn named_or<'a>(name: &'a str, other: &'a str) -> &'a str {
    if name.is_empty() { other } else { name }
}

// The form of the input's packets.
fn form_of(plan: &Plan) -> Form {
    match &plan.input {
        InputConf::File {
            name: _,
            form,
            resync: _,
        } => *form,
        InputConf::Null(_) => Form::Ts,
        InputConf::TestGen {
            seed: _,
            packets: _,
        } => Form::Ts,
    }
}

// The place, and what the input seems to be by its first bytes, where that is not the form in which it was read.
fn sync_text(alloc: Global, plan: &Plan, packet: u64, head: &[u8]) -> Result<String, AllocError> {
    let read = form_of(plan);
    let size = read.unit() as u64;
    let at = packet
        .saturating_mul(size)
        .saturating_add(read.lead() as u64);
    let mut text = format!(in alloc; "byte {at} of the input is not 0x47")?;
    match form_seen(head) {
        Some(Seen::Form(form)) if form.size != size => {
            write!(
                text,
                "; it begins with packets of {} bytes: --format {} reads them\n",
                form.size, form.name
            )?;
        }
        _ if packet > 0 => {
            text.push_str(": there are other bytes between its packets, or it is damaged")?;
            text.push_str("; --resync finds its packets again\n")?;
        }
        Some(Seen::Rtp) => {
            text.push_str("; it begins as RTP does, with a header before every few packets")?;
            text.push_str(": --resync finds the packets between them\n")?;
        }
        Some(Seen::Behind(before)) => {
            write!(
                text,
                "; packets begin at byte {before}: --resync leaves out what is before them\n"
            )?;
        }
        _ if head.get(4) == Some(&0x47) => {
            text.push_str("; --format m2ts reads 192 bytes a packet, --format rs204 204 bytes\n")?;
        }
        _ => text.push_str(", and no packets are seen in its first bytes\n")?,
    }
    Ok(text)
}

fn plugin_text(alloc: Global, plan: &Plan, number: u32) -> Result<String, AllocError> {
    let name = plugin_name(plan, number);
    format!(in alloc; "plugin {number} is -P {name}\n")
}

// The plugin that refused a packet, and what can be done about it.
fn refusal_text(
    alloc: Global,
    plan: &Plan,
    number: u32,
    reason: Reason,
) -> Result<String, AllocError> {
    let mut text = plugin_text(alloc, plan, number)?;
    let pid = reason.pid();
    match plugin_name(plan, number) {
        "svrename" => text.push_str(
            "another service of the PAT has the new number: take one that none has; -P info lists those that it has\n",
        )?,
        "restuff" => write!(
            text,
            "a packet of PID {pid} came, and as many wait as --window says: what is no null packet does not fit into --to\n"
        )?,
        _ => write!(
            text,
            "PID {pid} has packets of its own: move to a PID that has none, or mix the packets of both by --unchecked\n"
        )?,
    }
    Ok(text)
}

// What is wrong with the bytes of a file of tables, which are there where they were kept.
fn tables_text(
    alloc: Global,
    fault: &TableFileFault,
    file: Option<&[u8]>,
) -> Result<String, AllocError> {
    match fault {
        TableFileFault::TooMany => String::from_str(alloc, "longer than 16,777,216 bytes\n"),
        TableFileFault::Compile(fault) => compile_text(alloc, fault, file),
        TableFileFault::Sections(fault) => {
            let json = "it begins as a JSON text does; the name of one ends in .json\n";
            decompile_text(alloc, *fault, file, json)
        }
    }
}

// The plugin, and below it its file and what is wrong there.
fn table_file_text(
    alloc: Global,
    plan: &Plan,
    number: u32,
    fault: &TableFileFault,
    file: Option<&[u8]>,
) -> Result<String, AllocError> {
    let said = tables_text(alloc, fault, file)?;
    let name = table_file(plan, number);
    let line = after_name(alloc, name, said.as_str())?;
    let mut text = plugin_text(alloc, plan, number)?;
    text.push_str(line.as_str())?;
    Ok(text)
}

// The name of the file of tables that the plugin of this number takes, counted from 1.
fn table_file(plan: &Plan, number: u32) -> &str {
    match plugin_of(plan, number).and_then(|conf| conf.table_file()) {
        Some(name) => named_or(name, STANDARD_INPUT),
        None => "",
    }
}

// The name of the file of tables of this number, counted from 1 in the order of the plugins, which is that of their reading.
fn table_file_numbered(plan: &Plan, number: u64) -> &str {
    let mut left = number;
    for item in plan.plugins.as_slice() {
        if let Some(name) = item.conf.table_file() {
            if left <= 1 {
                return named_or(name, STANDARD_INPUT);
            }
            left -= 1;
        }
    }
    ""
}

// The name of the input's file.
fn input_name(plan: &Plan) -> &str {
    match &plan.input {
        InputConf::File {
            name,
            form: _,
            resync: _,
        } => named_or(name.as_str(), STANDARD_INPUT),
        InputConf::Null(_) => "the input",
        InputConf::TestGen {
            seed: _,
            packets: _,
        } => "the input",
    }
}

// The name of the output's file.
fn output_name(plan: &Plan) -> &str {
    match &plan.output {
        OutputConf::File(name) => named_or(name.as_str(), STANDARD_OUTPUT),
        OutputConf::Drop => "the output",
    }
}

// What is said of a file that the system refused: its name and the reason.
fn refused_text(alloc: Global, plan: &Plan, trouble: Trouble) -> Result<String, AllocError> {
    let name = match trouble.purpose {
        Purpose::Input => input_name(plan),
        Purpose::Output => output_name(plan),
        Purpose::File => table_file_numbered(plan, trouble.number),
    };
    trouble_text(alloc, name, trouble)
}

/// Whether the trouble is of the kind that such an end has.
fn is_of(status: &Status, trouble: Trouble) -> bool {
    match (status, trouble.purpose) {
        (Status::ReadFault, Purpose::Input | Purpose::File) => true,
        (Status::WriteFault, Purpose::Output) => true,
        _ => false,
    }
}

/// The text; `None` where there is nothing to say.
pub(crate) fn run_text(
    alloc: Global,
    plan: &Plan,
    status: &Status,
    noted: &Noted,
) -> Result<Option<String>, AllocError> {
    let text = match (status, noted.trouble()) {
        (Status::Sync { packet }, _) => sync_text(alloc, plan, *packet, noted.head())?,
        (Status::Refused { plugin, reason }, _) => refusal_text(alloc, plan, *plugin, *reason)?,
        (Status::TableFile { plugin, fault }, _) => {
            table_file_text(alloc, plan, *plugin, fault, noted.file())?
        }
        (_, Some(trouble)) if is_of(status, trouble) => refused_text(alloc, plan, trouble)?,
        _ => return Ok(None),
    };
    Ok(Some(text))
}
