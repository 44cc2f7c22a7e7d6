//! What is said of a call that ended by a fault: the wrong word, the file with the system's reason, or the place of lost sync.
use explain_words::{WordRow, words_text};
use std::alloc::{AllocError, Global};
use switch_top::{SwitchEnd, SwitchOutput, SwitchPlan, SwitchStatus};
use ts_os::{Trouble, after_name, trouble_text};
use ts_outside::Purpose;

/// How the words may stand.
const USAGE: &str =
    "tsswitch [--cycle N] [--buffer-packets N] [--resync] -I file NAME [-I file NAME] .. [-O file NAME | -O drop]";

/// What may come after a word.
static ROWS: [WordRow; 6] = [
    WordRow {
        after: "",
        said: "the first word is --cycle, --buffer-packets, --resync or -I",
    },
    WordRow {
        after: "--cycle",
        said: "--cycle N: 1 to 1000: plays the whole row of inputs so often",
    },
    WordRow {
        after: "--buffer-packets",
        said: "--buffer-packets N: 1 to 1,000,000: how many packets each of the two buffers has",
    },
    WordRow {
        after: "-I",
        said: "-I file NAME: a file or a pipe by its name",
    },
    WordRow {
        after: "-O",
        said: "-O file NAME, or -O drop",
    },
    WordRow {
        after: "file",
        said: "a name, which is not empty and does not begin with a dash",
    },
];

/// The size of a packet in bytes.
const PACKET_SIZE: u64 = 188;

// The name of the input of a number, counted from 1.
fn input_name(plan: &SwitchPlan, input: u32) -> &str {
    let place = usize::try_from(input).unwrap_or(0).saturating_sub(1);
    match plan.inputs.get(place) {
        Some(name) => name.as_str(),
        None => "",
    }
}

// What is said of the input of this number.
fn of_input(
    alloc: Global,
    plan: &SwitchPlan,
    input: u32,
    said: &str,
) -> Result<String, AllocError> {
    let line = after_name(alloc, input_name(plan, input), said)?;
    format!(in alloc; "input {input}, {line}\n")
}

// Which input was opened so late, from 1 on: after the last one comes the first again.
fn input_of(plan: &SwitchPlan, number: u64) -> u32 {
    let before = number.saturating_sub(1);
    let count = plan.inputs.len() as u64;
    if count == 0 {
        return 1;
    }
    u32::try_from(before % count).unwrap_or(0).saturating_add(1)
}

// What is said of the output that was not opened or written.
fn output_text(alloc: Global, plan: &SwitchPlan, trouble: Trouble) -> Result<String, AllocError> {
    let name = match &plan.output {
        SwitchOutput::File(name) => name.as_str(),
        SwitchOutput::Drop => "",
    };
    if name.is_empty() {
        return trouble_text(alloc, "standard output", trouble);
    }
    trouble_text(alloc, name, trouble)
}

// What is said of a file that the system refused; `None` where the trouble is not of the kind that such an end has.
fn file_text(
    alloc: Global,
    plan: &SwitchPlan,
    status: SwitchStatus,
    trouble: Trouble,
) -> Result<Option<String>, AllocError> {
    let text = match (status, trouble.purpose) {
        (SwitchStatus::ReadFault, Purpose::Input) => {
            let input = input_of(plan, trouble.number);
            of_input(alloc, plan, input, trouble.reason.text())?
        }
        (SwitchStatus::WriteFault, Purpose::Output) => output_text(alloc, plan, trouble)?,
        _ => return Ok(None),
    };
    Ok(Some(text))
}

// The text about a plan that failed.
fn plan_text(
    alloc: Global,
    plan: &SwitchPlan,
    status: SwitchStatus,
    trouble: Option<Trouble>,
) -> Result<Option<String>, AllocError> {
    match (status, trouble) {
        (SwitchStatus::Sync { input, packet }, _) => {
            let at = packet.saturating_mul(PACKET_SIZE);
            let said = format!(in alloc; "byte {at} is not 0x47")?;
            Ok(Some(of_input(alloc, plan, input, said.as_str())?))
        }
        (_, Some(trouble)) => file_text(alloc, plan, status, trouble),
        _ => Ok(None),
    }
}

/// The text; `None` where there is nothing to say.
pub(crate) fn end_text(
    alloc: Global,
    words: &[String],
    end: &SwitchEnd,
    trouble: Option<Trouble>,
) -> Result<Option<String>, AllocError> {
    if let SwitchStatus::Words { word } = end.status {
        return Ok(Some(words_text(alloc, &ROWS, words, word, USAGE)?));
    }
    let Some(plan) = &end.plan else {
        return Ok(None);
    };
    plan_text(alloc, plan, end.status, trouble)
}
