//! The options of `restuff`, and its settings from their values.
ghost use Rattle.std.specs.Prelude.{◌≡◌, IfOk};
ghost use Rattle.plugin_options.specs.Refusal.{ReadsParsed};
ghost use Rattle.plug_restuff.specs.RestuffSettings.{IsValidRestuff};
ghost use Rattle.plug_restuff.specs.RestuffWords.{restuff};

use crate::limits::{DEFAULT_WINDOW, LEAST_RATE, MOST_RATE};
use crate::restuff_conf::RestuffConf;
use plugin_entry::{PluginHelp, PluginSettings};
use plugin_options::{
    Beside, MOST_WINDOW, Need, OptionRow, OptionText, OptionWord, ParsedOptions, Refusal, Takes,
    WordsRule,
};
use std::alloc::Global;

// The options of `restuff`.
static RESTUFF: [OptionRow; 3] = [
    OptionRow {
        word: OptionWord::Value("from", Takes::Number(LEAST_RATE, MOST_RATE)),
        text: OptionText {
            value: "F",
            meaning: "1,000 to 1,000,000,000: the constant rate at which the stream comes, in bits per second",
            need: Need::Required,
            beside: Beside::Any,
        },
    },
    OptionRow {
        word: OptionWord::Value("to", Takes::Number(LEAST_RATE, MOST_RATE)),
        text: OptionText {
            value: "R",
            meaning: "1,000 to 1,000,000,000, F at most: the constant rate that it gets",
            need: Need::Required,
            beside: Beside::Any,
        },
    },
    OptionRow {
        word: OptionWord::Value("window", Takes::Number(1, MOST_WINDOW)),
        text: OptionText {
            value: "N",
            meaning: "1 to 100,000, default 10,000: how many packets may wait",
            need: Need::Free,
            beside: Beside::Any,
        },
    },
];

// Reads the settings of `restuff` from the options that its command found.
fn restuff_settings(found: &ParsedOptions) -> Result<RestuffConf, Refusal>
    ensures reads { ReadsParsed restuff found.now result }
    ensures valid { IfOk result IsValidRestuff }
{
    if !found.has_value("from") || !found.has_value("to") {
        return Err(Refusal::Broken(WordsRule::Missing));
    }
    let from = found.number_or("from", LEAST_RATE, MOST_RATE, LEAST_RATE)?;
    let to = found.number_or("to", LEAST_RATE, MOST_RATE, LEAST_RATE)?;
    let window = found.number_or("window", 1, MOST_WINDOW, DEFAULT_WINDOW)?;
    if to > from {
        return Err(Refusal::Broken(WordsRule::Conflict));
    }
    Ok(RestuffConf { from, to, window })
}

impl PluginSettings for RestuffConf {
    ghost use Rattle.std.specs.Prelude.{refl};
    ghost use Rattle.plug_restuff.specs.RestuffEntry.{restuff_entry};

    ghost entry = { restuff_entry };

    fn name() -> &'static str {
        "restuff"
    }

    fn options() -> &'static [OptionRow<'static>] {
        &RESTUFF
    }

    fn help() -> PluginHelp {
        PluginHelp {
            usage: "-P restuff --from F --to R [--window N]",
            rule: "A stream of the constant rate F becomes one of the constant rate R: of its packets those that are no null packets are given in the places of R, each with its PCR moved by as much as it comes later or earlier, and null packets where none waits. Packets that were dropped before have no place: what drops in front of it gets --stuffing. PTSs stay as they are, so a packet comes later against its own by the time that it waits. Where N packets wait already, the run ends before the next one, and its PID is refused. What waits at the end stays inside; --add-stop-stuffing brings it out. Positions behind it are still those of F, so pcrverify looks at the stream that was written, in a run of its own.",
        }
    }

    fn read(_alloc: Global, found: &ParsedOptions) -> Result<RestuffConf, Refusal> {
        restuff_settings(found)
    }

    fn table_file(&self) -> Option<&str> {
        None
    }

    fn uses_joint_termination(&self) -> bool {
        false
    }

    ghost simple = { refl };
}
