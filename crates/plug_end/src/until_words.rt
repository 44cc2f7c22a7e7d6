//! The options of `until`, and its settings from their values.

ghost use Rattle.std.specs.Prelude.{◌≡◌, IfOk};
ghost use Rattle.plug_end.specs.UntilSettings.{IsValidUntil};
ghost use Rattle.plug_end.specs.UntilWords.{until};
ghost use Rattle.plugin_options.specs.Refusal.{ReadsParsed};

use crate::limits::MOST_SECONDS;
use crate::until_conf::UntilConf;
use plugin_entry::{PluginHelp, PluginSettings};
use plugin_options::{
    Beside, LAST_PID, MOST_NUMBER, Need, OptionRow, OptionText, OptionWord, ParsedOptions, Refusal,
    Takes, WordsRule,
};
use std::alloc::Global;

// The options of `until`.
static UNTIL: [OptionRow; 7] = [
    OptionRow {
        word: OptionWord::Value("packets", Takes::Number(1, MOST_NUMBER)),
        text: OptionText {
            value: "N",
            meaning: "1 to 2^60: so many packets came",
            need: Need::Required,
            beside: Beside::Choice(1),
        },
    },
    OptionRow {
        word: OptionWord::Value("bytes", Takes::Number(1, MOST_NUMBER)),
        text: OptionText {
            value: "N",
            meaning: "1 to 2^60: so many bytes came, 188 a packet",
            need: Need::Required,
            beside: Beside::Choice(1),
        },
    },
    OptionRow {
        word: OptionWord::Value("unit-start-count", Takes::Number(1, MOST_NUMBER)),
        text: OptionText {
            value: "N",
            meaning: "1 to 2^60: so many packets with the payload unit start indicator came",
            need: Need::Required,
            beside: Beside::Choice(1),
        },
    },
    OptionRow {
        word: OptionWord::Value("seconds", Takes::Number(0, MOST_SECONDS)),
        text: OptionText {
            value: "N",
            meaning: "0 to 2^32: so many seconds passed since the first PCR, by the stream's own clock",
            need: Need::Required,
            beside: Beside::Choice(1),
        },
    },
    OptionRow {
        word: OptionWord::Value("pcr-pid", Takes::Number(0, LAST_PID)),
        text: OptionText {
            value: "PID",
            meaning: "0 to 8191, with --seconds: the PID whose PCRs are the clock; without it, that of the first PCR, or of another one once that has stopped",
            need: Need::Free,
            beside: Beside::With("seconds"),
        },
    },
    OptionRow {
        word: OptionWord::Flag("exclude-last"),
        text: OptionText {
            value: "",
            meaning: "leave out the packet that reaches the number",
            need: Need::Free,
            beside: Beside::Choice(2),
        },
    },
    OptionRow {
        word: OptionWord::Flag("joint-termination"),
        text: OptionText {
            value: "",
            meaning: "pass every packet, and agree to a common end after that packet",
            need: Need::Free,
            beside: Beside::Choice(2),
        },
    },
];

// Whether one of the counts, or the seconds, is given.
fn is_number_given(found: &ParsedOptions) -> bool
    ensures { result ≡ until.has_needed found.now }
{
    found.has_value("packets")
        || found.has_value("bytes")
        || found.has_value("unit-start-count")
        || found.has_value("seconds")
}

// Reads the settings of `until` from what its command found in the words.
fn until_settings(found: &ParsedOptions) -> Result<UntilConf, Refusal>
    ensures reads { ReadsParsed until found.now result }
    ensures valid { IfOk result IsValidUntil }
{
    if !is_number_given(found) {
        return Err(Refusal::Broken(WordsRule::Missing));
    }
    let conf = UntilConf {
        packets: found.number("packets", 1, MOST_NUMBER)?,
        bytes: found.number("bytes", 1, MOST_NUMBER)?,
        unit_start_count: found.number("unit-start-count", 1, MOST_NUMBER)?,
        seconds: found.number("seconds", 0, MOST_SECONDS)?,
        pcr_pid: found.number("pcr-pid", 0, LAST_PID)?,
        exclude_last: found.has_flag("exclude-last"),
        joint_termination: found.has_flag("joint-termination"),
    };
    if !conf.goes_together() {
        return Err(Refusal::Broken(WordsRule::Conflict));
    }
    Ok(conf)
}

impl PluginSettings for UntilConf {
    ghost use Rattle.std.specs.Prelude.{refl};
    ghost use Rattle.plug_end.specs.UntilEntry.{until_entry};

    ghost entry = { until_entry };

    fn name() -> &'static str {
        "until"
    }

    fn options() -> &'static [OptionRow<'static>] {
        &UNTIL
    }

    fn help() -> PluginHelp {
        PluginHelp {
            usage: "-P until --packets N | --bytes N | --unit-start-count N | --seconds N [--pcr-pid PID] [--exclude-last | --joint-termination]",
            rule: "The run ends with the packet that brings the number to N, and exactly one of the four numbers has to be given. The clock of --seconds jumps at each PCR, so the run ends with a packet that has one, unless N is 0: then with the first packet. Where a PCR is that of before, behind it or more than a second ahead, has the discontinuity flag, or is on another PID, the clock goes on at the mean rate until then; PCRs of packets with a transport error are not read. With --joint-termination it ends once all plugins with that option agreed, at the greatest of their positions.",
        }
    }

    fn read(_alloc: Global, found: &ParsedOptions) -> Result<UntilConf, Refusal> {
        until_settings(found)
    }

    fn table_file(&self) -> Option<&str> {
        None
    }

    fn uses_joint_termination(&self) -> bool {
        self.joint_termination
    }

    ghost simple = { refl };
}
