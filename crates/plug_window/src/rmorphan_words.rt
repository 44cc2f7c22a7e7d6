//! The options of `rmorphan`, and its settings from their values.

use crate::rmorphan_conf::RmorphanConf;
use crate::window_words::window_settings;
use plugin_entry::{PluginHelp, PluginSettings};
use plugin_options::{
    Beside, MOST_WINDOW, Need, OptionRow, OptionText, OptionWord, ParsedOptions, Refusal, Takes,
};
use std::alloc::Global;

// The options of `rmorphan`.
static RMORPHAN: [OptionRow; 2] = [
    OptionRow {
        word: OptionWord::Value("window", Takes::Number(1, MOST_WINDOW)),
        text: OptionText {
            value: "N",
            meaning: "1 to 100,000: by how many packets each is given later, so that tables after it count",
            need: Need::Required,
            beside: Beside::Any,
        },
    },
    OptionRow {
        word: OptionWord::Flag("stuffing"),
        text: OptionText {
            value: "",
            meaning: "put a null packet instead of each packet that is dropped",
            need: Need::Free,
            beside: Beside::Any,
        },
    },
];

impl PluginSettings for RmorphanConf {
    ghost use Rattle.std.specs.Prelude.{refl};
    ghost use Rattle.plug_window.specs.RmorphanEntry.{rmorphan_entry};

    ghost entry = { rmorphan_entry };

    fn name() -> &'static str {
        "rmorphan"
    }

    fn options() -> &'static [OptionRow<'static>] {
        &RMORPHAN
    }

    fn help() -> PluginHelp {
        PluginHelp {
            usage: "-P rmorphan --window N [--stuffing]",
            rule: "Each packet is replaced by the one N before it, if the PID of that one is 0 to 31 or 8191, or is one that the PAT, the PMTs of its services or the CAT in force by then name; else by none. The last N stay inside; --add-stop-stuffing N brings them out.",
        }
    }

    fn read(_alloc: Global, found: &ParsedOptions) -> Result<RmorphanConf, Refusal> {
        Ok(RmorphanConf {
            window: window_settings(found)?,
        })
    }

    fn table_file(&self) -> Option<&str> {
        None
    }

    fn uses_joint_termination(&self) -> bool {
        false
    }

    ghost simple = { refl };
}
