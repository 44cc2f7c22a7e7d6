//! The options of `continuity`.
ghost use Rattle.std.specs.Prelude.{◌≡◌, IfOk};
ghost use Rattle.plug_watch.specs.ContinuitySettings.{IsValidContinuity};
ghost use Rattle.plug_watch.specs.ContinuityWords.{continuity};
ghost use Rattle.plugin_options.specs.Refusal.{ReadsParsed};

use crate::continuity_options::ContinuityOptions;
use plugin_entry::{PluginHelp, PluginSettings};
use plugin_notes::ContinuityConf;
use plugin_options::{
    Beside, LAST_PID, Need, OptionRow, OptionText, OptionWord, ParsedOptions, Refusal, Takes,
};
use std::alloc::Global;

// The options of `continuity`.
static CONTINUITY: [OptionRow; 2] = [
    OptionRow {
        word: OptionWord::Value("pid", Takes::Ranges(LAST_PID)),
        text: OptionText {
            value: "LIST",
            meaning: "0 to 8191: only these PIDs; without it, all",
            need: Need::Free,
            beside: Beside::Any,
        },
    },
    OptionRow {
        word: OptionWord::Flag("fix"),
        text: OptionText {
            value: "",
            meaning: "repair the counters, of which the first of each PID stays",
            need: Need::Free,
            beside: Beside::Any,
        },
    },
];

// Reads the settings of `continuity` from the options that its command found.
fn continuity_settings(alloc: Global, found: &ParsedOptions) -> Result<ContinuityConf, Refusal>
    ensures reads { ReadsParsed continuity found.now result }
    ensures valid { IfOk result IsValidContinuity }
{
    Ok(ContinuityConf {
        pid: found.ranges(alloc, "pid", LAST_PID)?,
        fix: found.has_flag("fix"),
    })
}

impl PluginSettings for ContinuityOptions {
    ghost use Rattle.std.specs.Prelude.{refl};
    ghost use Rattle.plug_watch.specs.ContinuityEntry.{continuity_entry};

    ghost entry = { continuity_entry };

    fn name() -> &'static str {
        "continuity"
    }

    fn options() -> &'static [OptionRow<'static>] {
        &CONTINUITY
    }

    fn help() -> PluginHelp {
        PluginHelp {
            usage: "-P continuity [--pid LIST] [--fix]",
            rule: "Each packet whose counter is not the one that is due after the packet before on its PID is reported, unless it is a duplicate or has the discontinuity flag; the last line has their number. PID 8191 is never looked at, and every packet passes. A repair makes counters follow each other, and brings no lost packet back.",
        }
    }

    fn read(alloc: Global, found: &ParsedOptions) -> Result<ContinuityOptions, Refusal> {
        Ok(ContinuityOptions {
            counters: continuity_settings(alloc, found)?,
        })
    }

    fn table_file(&self) -> Option<&str> {
        None
    }

    fn uses_joint_termination(&self) -> bool {
        false
    }

    ghost simple = { refl };
}
