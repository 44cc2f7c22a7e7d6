//! The options of `info`.
ghost use Rattle.std.specs.Prelude.{◌≡◌, IfOk};
ghost use Rattle.plug_info.specs.InfoSettings.{IsValidInfo};
ghost use Rattle.plug_info.specs.InfoWords.{info};
ghost use Rattle.plugin_options.specs.Refusal.{ReadsParsed};

use crate::info_conf::InfoConf;
use plugin_entry::{PluginHelp, PluginSettings};
use plugin_options::{Beside, Need, OptionRow, OptionText, OptionWord, ParsedOptions, Refusal};
use std::alloc::Global;

// The options of `info`.
static INFO: [OptionRow; 1] = [OptionRow {
    word: OptionWord::Flag("json"),
    text: OptionText {
        value: "",
        meaning: "the report is one JSON object on one line",
        need: Need::Free,
        beside: Beside::Any,
    },
}];

// Reads the settings of `info` from the options that its command found.
fn info_settings(_alloc: Global, found: &ParsedOptions) -> Result<InfoConf, Refusal>
    ensures reads { ReadsParsed info found.now result }
    ensures valid { IfOk result IsValidInfo }
{
    Ok(InfoConf {
        json: found.has_flag("json"),
    })
}

impl PluginSettings for InfoConf {
    ghost use Rattle.std.specs.Prelude.{refl};
    ghost use Rattle.plug_info.specs.InfoEntry.{info_entry};

    ghost entry = { info_entry };

    fn name() -> &'static str {
        "info"
    }

    fn options() -> &'static [OptionRow<'static>] {
        &INFO
    }

    fn help() -> PluginHelp {
        PluginHelp {
            usage: "-P info [--json]",
            rule: "At the end there is a line for the stream, with its packets, its transport_stream_id and its bit rate by PCRs; one for the network of the NIT, and for each bouquet of a BAT, by name; for each service of the PAT, with its name and provider of the SDT, its PIDs, its part of the bit rate and its EIT sections, one and under it one for each component; and one for each other PID, which is unnamed where no table has it. What the stream does not have is none. Errored packets have the transport error indicator, and faults are those of continuity. A bit rate is bits over time by the clock, also after a plugin that drops packets. Where the clock jumps or stands still, or has a gap of more than a second, the way has no part in it, and counts as one of the breaks. Every packet passes.",
        }
    }

    fn read(alloc: Global, found: &ParsedOptions) -> Result<InfoConf, Refusal> {
        info_settings(alloc, found)
    }

    fn table_file(&self) -> Option<&str> {
        None
    }

    fn uses_joint_termination(&self) -> bool {
        false
    }

    ghost simple = { refl };
}
