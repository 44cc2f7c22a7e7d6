//! The options of `slice`, and its settings from their values.

ghost use Rattle.std.specs.Prelude.{◌≡◌, IfOk};
ghost use Rattle.plug_pass.specs.SliceSettings.{IsValidSlice};
ghost use Rattle.plug_pass.specs.SliceWords.{slice};
ghost use Rattle.plugin_options.specs.Refusal.{ReadsParsed};

use crate::slice_conf::SliceConf;
use plugin_entry::{PluginHelp, PluginSettings};
use plugin_options::{
    Beside, LAST_PID, MOST_NUMBER, Need, OptionRow, OptionText, OptionWord, ParsedOptions, Refusal,
    Takes, WordsRule,
};
use std::alloc::Global;

// The options of `slice`.
static SLICE: [OptionRow; 6] = [
    OptionRow {
        word: OptionWord::Value("drop", Takes::Number(0, MOST_NUMBER)),
        text: OptionText {
            value: "N",
            meaning: "0 to 2^60: from packet N on drop packets",
            need: Need::OneOf,
            beside: Beside::Any,
        },
    },
    OptionRow {
        word: OptionWord::Value("null", Takes::Number(0, MOST_NUMBER)),
        text: OptionText {
            value: "N",
            meaning: "0 to 2^60: from packet N on put null packets in their place",
            need: Need::OneOf,
            beside: Beside::Any,
        },
    },
    OptionRow {
        word: OptionWord::Value("pass", Takes::Number(0, MOST_NUMBER)),
        text: OptionText {
            value: "N",
            meaning: "0 to 2^60: from packet N on pass packets",
            need: Need::OneOf,
            beside: Beside::Any,
        },
    },
    OptionRow {
        word: OptionWord::Value("stop", Takes::Number(0, MOST_NUMBER)),
        text: OptionText {
            value: "N",
            meaning: "0 to 2^60: end the run before packet N",
            need: Need::OneOf,
            beside: Beside::Any,
        },
    },
    OptionRow {
        word: OptionWord::Flag("milliseconds"),
        text: OptionText {
            value: "",
            meaning: "each N is a time: a packet's number is the milliseconds since the first PCR, by the stream's own clock",
            need: Need::Free,
            beside: Beside::Any,
        },
    },
    OptionRow {
        word: OptionWord::Value("pcr-pid", Takes::Number(0, LAST_PID)),
        text: OptionText {
            value: "PID",
            meaning: "0 to 8191, with --milliseconds: the PID whose PCRs are the clock; without it, that of the first PCR, or of another one once that has stopped",
            need: Need::Free,
            beside: Beside::With("milliseconds"),
        },
    },
];

// Whether one of the four numbers is given.
fn is_number_given(found: &ParsedOptions) -> bool
    ensures { result ≡ slice.has_needed found.now }
{
    found.has_value("drop")
        || found.has_value("null")
        || found.has_value("pass")
        || found.has_value("stop")
}

// Reads the settings of `slice` from what its command found in the words.
fn slice_settings(found: &ParsedOptions) -> Result<SliceConf, Refusal>
    ensures reads { ReadsParsed slice found.now result }
    ensures valid { IfOk result IsValidSlice }
{
    if !is_number_given(found) {
        return Err(Refusal::Broken(WordsRule::Missing));
    }
    let drop = found.number("drop", 0, MOST_NUMBER)?;
    let null = found.number("null", 0, MOST_NUMBER)?;
    let pass = found.number("pass", 0, MOST_NUMBER)?;
    let stop = found.number("stop", 0, MOST_NUMBER)?;
    let pcr_pid = found.number("pcr-pid", 0, LAST_PID)?;
    let conf = SliceConf {
        drop,
        null,
        pass,
        stop,
        milliseconds: found.has_flag("milliseconds"),
        pcr_pid,
    };
    if !conf.goes_together() {
        return Err(Refusal::Broken(WordsRule::Conflict));
    }
    Ok(conf)
}

impl PluginSettings for SliceConf {
    ghost use Rattle.std.specs.Prelude.{refl};
    ghost use Rattle.plug_pass.specs.SliceEntry.{slice_entry};

    ghost entry = { slice_entry };

    fn name() -> &'static str {
        "slice"
    }

    fn options() -> &'static [OptionRow<'static>] {
        &SLICE
    }

    fn help() -> PluginHelp {
        PluginHelp {
            usage: "-P slice [--drop N] [--null N] [--pass N] [--stop N] [--milliseconds] [--pcr-pid PID]",
            rule: "Packets that come to the plugin are counted from 0, and the option with the greatest N that is not above a packet's number decides about it; before the least N packets pass. At least one option has to be given, and no two numbers may be equal. The clock of --milliseconds jumps at each PCR, and the packets up to the next one have its time. Where a PCR is that of before, behind it or more than a second ahead, has the discontinuity flag, or is on another PID, the clock goes on at the mean rate until then; PCRs of packets with a transport error are not read.",
        }
    }

    fn read(_alloc: Global, found: &ParsedOptions) -> Result<SliceConf, Refusal> {
        slice_settings(found)
    }

    fn table_file(&self) -> Option<&str> {
        None
    }

    fn uses_joint_termination(&self) -> bool {
        false
    }

    ghost simple = { refl };
}
