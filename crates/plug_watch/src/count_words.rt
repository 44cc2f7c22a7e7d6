//! The options of `count`.
ghost use Rattle.std.specs.Prelude.{◌≡◌, IfOk};
ghost use Rattle.plug_watch.specs.CountSettings.{IsValidCount};
ghost use Rattle.plug_watch.specs.CountWords.{count};
ghost use Rattle.plugin_options.specs.Refusal.{ReadsParsed};

use crate::count_conf::CountConf;
use plugin_entry::{PluginHelp, PluginSettings};
use plugin_options::{
    Beside, LAST_PID, Need, OptionRow, OptionText, OptionWord, ParsedOptions, Refusal, Takes,
};
use std::alloc::Global;

// The options of `count`.
static COUNT: [OptionRow; 4] = [
    OptionRow {
        word: OptionWord::Value("pid", Takes::Ranges(LAST_PID)),
        text: OptionText {
            value: "LIST",
            meaning: "0 to 8191: only packets on these PIDs; without it, on all",
            need: Need::Free,
            beside: Beside::Any,
        },
    },
    OptionRow {
        word: OptionWord::Flag("negate"),
        text: OptionText {
            value: "",
            meaning: "with --pid: only packets on the other PIDs",
            need: Need::Free,
            beside: Beside::With("pid"),
        },
    },
    OptionRow {
        word: OptionWord::Flag("all"),
        text: OptionText {
            value: "",
            meaning: "report each packet, with its position and its PID",
            need: Need::Free,
            beside: Beside::Any,
        },
    },
    OptionRow {
        word: OptionWord::Flag("total"),
        text: OptionText {
            value: "",
            meaning: "report the total alone",
            need: Need::Free,
            beside: Beside::Any,
        },
    },
];

// Reads the settings of `count` from the options that its command found.
fn count_settings(alloc: Global, found: &ParsedOptions) -> Result<CountConf, Refusal>
    ensures reads { ReadsParsed count found.now result }
    ensures valid { IfOk result IsValidCount }
{
    Ok(CountConf {
        pid: found.ranges(alloc, "pid", LAST_PID)?,
        negate: found.has_flag("negate"),
        all: found.has_flag("all"),
        total: found.has_flag("total"),
    })
}

impl PluginSettings for CountConf {
    ghost use Rattle.std.specs.Prelude.{refl};
    ghost use Rattle.plug_watch.specs.CountEntry.{count_entry};

    ghost entry = { count_entry };

    fn name() -> &'static str {
        "count"
    }

    fn options() -> &'static [OptionRow<'static>] {
        &COUNT
    }

    fn help() -> PluginHelp {
        PluginHelp {
            usage: "-P count [--pid LIST] [--negate] [--all] [--total]",
            rule: "At the end there is a line for each PID that had packets, with their number, and one with the total. Every packet passes.",
        }
    }

    fn read(alloc: Global, found: &ParsedOptions) -> Result<CountConf, Refusal> {
        count_settings(alloc, found)
    }

    fn table_file(&self) -> Option<&str> {
        None
    }

    fn uses_joint_termination(&self) -> bool {
        false
    }

    ghost simple = { refl };
}
