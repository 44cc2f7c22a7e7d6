//! The options of `compact`, and its settings from their values.

use crate::compact_conf::CompactConf;
use crate::window_words::window_settings;
use plugin_entry::{PluginHelp, PluginSettings};
use plugin_options::{
    Beside, MOST_WINDOW, Need, OptionRow, OptionText, OptionWord, ParsedOptions, Refusal, Takes,
};
use std::alloc::Global;

// The options of `compact`.
static COMPACT: [OptionRow; 2] = [
    OptionRow {
        word: OptionWord::Value("window", Takes::Number(1, MOST_WINDOW)),
        text: OptionText {
            value: "N",
            meaning: "1 to 100,000: the packets of a window, which are given while the next ones come",
            need: Need::Required,
            beside: Beside::Any,
        },
    },
    OptionRow {
        word: OptionWord::Flag("stuffing"),
        text: OptionText {
            value: "",
            meaning: "put a null packet instead of each packet that would be dropped",
            need: Need::Free,
            beside: Beside::Any,
        },
    },
];

impl PluginSettings for CompactConf {
    ghost use Rattle.std.specs.Prelude.{refl};
    ghost use Rattle.plug_window.specs.CompactEntry.{compact_entry};

    ghost entry = { compact_entry };

    fn name() -> &'static str {
        "compact"
    }

    fn options() -> &'static [OptionRow<'static>] {
        &COMPACT
    }

    fn help() -> PluginHelp {
        PluginHelp {
            usage: "-P compact --window N [--stuffing]",
            rule: "The first N packets are dropped, and each N after them are replaced by the N before these: first those on other PIDs than 8191, then the null packets, each in their order. The last ones stay inside; --add-stop-stuffing N brings them out.",
        }
    }

    fn read(_alloc: Global, found: &ParsedOptions) -> Result<CompactConf, Refusal> {
        Ok(CompactConf {
            window: window_settings(found)?,
        })
    }

    fn table_file(&self) -> Option<&str> {
        None
    }

    fn uses_joint_termination(&self) -> bool {
        false
    }

    ghost simple = { refl };
}
