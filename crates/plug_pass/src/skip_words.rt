//! The options of `skip`, and its settings from their values.

ghost use Rattle.std.specs.Prelude.{◌≡◌, IfOk};
ghost use Rattle.plug_pass.specs.SkipSettings.{IsValidSkip};
ghost use Rattle.plug_pass.specs.SkipWords.{skip};
ghost use Rattle.plugin_options.specs.Refusal.{ReadsParsed};

use crate::skip_conf::SkipConf;
use plugin_entry::{PluginHelp, PluginSettings};
use plugin_options::{
    Beside, MOST_PACKETS, Need, OptionRow, OptionText, OptionWord, ParsedOptions, Refusal, Takes,
    WordsRule,
};
use std::alloc::Global;

// The options of `skip`.
static SKIP: [OptionRow; 1] = [OptionRow {
    word: OptionWord::Operand("operand", Takes::Number(0, MOST_PACKETS)),
    text: OptionText {
        value: "N",
        meaning: "0 to 2^40: how many packets are dropped",
        need: Need::Required,
        beside: Beside::Any,
    },
}];

// Reads the settings of `skip` from what its command found in the words.
fn skip_settings(found: &ParsedOptions) -> Result<SkipConf, Refusal>
    ensures reads { ReadsParsed skip found.now result }
    ensures valid { IfOk result IsValidSkip }
{
    if !found.has_value("operand") {
        return Err(Refusal::Broken(WordsRule::Missing));
    }
    let operand = found.number_or("operand", 0, MOST_PACKETS, 0)?;
    Ok(SkipConf { operand })
}

impl PluginSettings for SkipConf {
    ghost use Rattle.std.specs.Prelude.{refl};
    ghost use Rattle.plug_pass.specs.SkipEntry.{skip_entry};

    ghost entry = { skip_entry };

    fn name() -> &'static str {
        "skip"
    }

    fn options() -> &'static [OptionRow<'static>] {
        &SKIP
    }

    fn help() -> PluginHelp {
        PluginHelp {
            usage: "-P skip N",
            rule: "The first N packets that come to the plugin are dropped. All others pass.",
        }
    }

    fn read(_alloc: Global, found: &ParsedOptions) -> Result<SkipConf, Refusal> {
        skip_settings(found)
    }

    fn table_file(&self) -> Option<&str> {
        None
    }

    fn uses_joint_termination(&self) -> bool {
        false
    }

    ghost simple = { refl };
}
