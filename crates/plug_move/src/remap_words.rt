//! The options of `remap`, and its settings from their values.

ghost use Rattle.std.specs.Prelude.{◌≡◌, IfOk};
ghost use Rattle.plug_move.specs.RemapSettings.{IsValidRemap};
ghost use Rattle.plug_move.specs.RemapWords.{remap};
ghost use Rattle.plugin_options.specs.Refusal.{ReadsParsed};

use crate::remap_conf::RemapConf;
use plugin_entry::{PluginHelp, PluginSettings};
use plugin_options::{
    Beside, LAST_PID, Need, OptionRow, OptionText, OptionWord, ParsedOptions, Refusal, Sign, Takes,
    WordsRule,
};
use std::alloc::Global;

// The options of `remap`.
static REMAP: [OptionRow; 3] = [
    OptionRow {
        word: OptionWord::Operands(
            "operand",
            Takes::Pair(Sign::Equals, (0, LAST_PID), (0, LAST_PID)),
        ),
        text: OptionText {
            value: "A=B",
            meaning: "A 0 to 8191, B 0 to 8191: packets on PID A get PID B; up to 1,000 such pairs",
            need: Need::Required,
            beside: Beside::Any,
        },
    },
    OptionRow {
        word: OptionWord::Flag("no-psi"),
        text: OptionText {
            value: "",
            meaning: "leave the tables of the stream as they are",
            need: Need::Free,
            beside: Beside::Any,
        },
    },
    OptionRow {
        word: OptionWord::Flag("unchecked"),
        text: OptionText {
            value: "",
            meaning: "targets may be equal, and may be on PIDs that come in",
            need: Need::Free,
            beside: Beside::Any,
        },
    },
];

// Reads the settings of `remap` from what its command found in the words.
fn remap_settings(alloc: Global, found: &ParsedOptions) -> Result<RemapConf, Refusal>
    ensures reads { ReadsParsed remap found.now result }
    ensures valid { IfOk result IsValidRemap }
{
    if !found.has_values("operand") {
        return Err(Refusal::Broken(WordsRule::Missing));
    }
    let conf = RemapConf {
        operand: found.pairs(alloc, "operand", '=', (0, LAST_PID), (0, LAST_PID))?,
        no_psi: found.has_flag("no-psi"),
        unchecked: found.has_flag("unchecked"),
    };
    if !conf.has_agreeing_pairs() {
        return Err(Refusal::Broken(WordsRule::Conflict));
    }
    Ok(conf)
}

impl PluginSettings for RemapConf {
    ghost use Rattle.std.specs.Prelude.{refl};
    ghost use Rattle.plug_move.specs.RemapEntry.{remap_entry};

    ghost entry = { remap_entry };

    fn name() -> &'static str {
        "remap"
    }

    fn options() -> &'static [OptionRow<'static>] {
        &REMAP
    }

    fn help() -> PluginHelp {
        PluginHelp {
            usage: "-P remap [--no-psi] [--unchecked] A=B ..",
            rule: "Packets on a source move to its target, and network PID, PIDs of PMTs, PCR_PID, PIDs of components and CA_PIDs in the PAT, the CAT and the PMTs move with them. Without --unchecked a packet that comes in on a target which is no source ends the run, with exit number 7. A table that changes without a new version is written on as it was first.",
        }
    }

    fn read(alloc: Global, found: &ParsedOptions) -> Result<RemapConf, Refusal> {
        remap_settings(alloc, found)
    }

    fn table_file(&self) -> Option<&str> {
        None
    }

    fn uses_joint_termination(&self) -> bool {
        false
    }

    ghost simple = { refl };
}
