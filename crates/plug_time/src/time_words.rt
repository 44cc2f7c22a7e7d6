//! The options of `time`, and its settings from their values.

ghost use Rattle.std.specs.Prelude.{◌≡◌, IfOk};
ghost use Rattle.plug_time.specs.TimeSettings.{IsValidTime};
ghost use Rattle.plug_time.specs.TimeWords.{time};
ghost use Rattle.plugin_options.specs.Refusal.{ReadsParsed};

use crate::numbers::{LEAST_SHIFT, MOST_SHIFT};
use crate::time_conf::TimeConf;
use plugin_entry::{PluginHelp, PluginSettings};
use plugin_options::{
    Beside, Need, OptionRow, OptionText, OptionWord, ParsedOptions, Refusal, Takes, WordsRule,
};
use std::alloc::Global;

// The options of `time`.
static TIME: [OptionRow; 1] = [OptionRow {
    word: OptionWord::Value("shift", Takes::Signed(LEAST_SHIFT, MOST_SHIFT)),
    text: OptionText {
        value: "SECONDS",
        meaning: "-10,000,000 to 10,000,000: by how many seconds the times are later; earlier where it is below 0, as --shift=-3600",
        need: Need::Required,
        beside: Beside::Any,
    },
}];

// Reads the settings of `time` from what its command found in the words.
fn time_settings(found: &ParsedOptions) -> Result<TimeConf, Refusal>
    ensures reads { ReadsParsed time found.now result }
    ensures valid { IfOk result IsValidTime }
{
    match found.signed("shift", LEAST_SHIFT, MOST_SHIFT)? {
        Some(shift) => Ok(TimeConf { shift }),
        None => Err(Refusal::Broken(WordsRule::Missing)),
    }
}

impl PluginSettings for TimeConf {
    ghost use Rattle.std.specs.Prelude.{refl};
    ghost use Rattle.plug_time.specs.TimeEntry.{time_entry};

    ghost entry = { time_entry };

    fn name() -> &'static str {
        "time"
    }

    fn options() -> &'static [OptionRow<'static>] {
        &TIME
    }

    fn help() -> PluginHelp {
        PluginHelp {
            usage: "-P time --shift=SECONDS",
            rule: "In each packet on PID 20 the times of the whole TDTs, and of the TOTs with a right CRC, that begin and end in it are later by so many seconds, and the TOTs get a new CRC. An undefined time stays, and so does one that would leave its 16 bits of days, a time in a descriptor, and a section that is in more than one packet. Every packet passes.",
        }
    }

    fn read(_alloc: Global, found: &ParsedOptions) -> Result<TimeConf, Refusal> {
        time_settings(found)
    }

    fn table_file(&self) -> Option<&str> {
        None
    }

    fn uses_joint_termination(&self) -> bool {
        false
    }

    ghost simple = { refl };
}
