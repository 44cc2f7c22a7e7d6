//! The options of `nit`, and its settings from their values.

ghost use Rattle.std.specs.Prelude.{◌≡◌, IfOk};
ghost use Rattle.plugin_options.specs.Refusal.{ReadsParsed};
ghost use Rattle.plug_edit.specs.NitSettings.{IsValidNit};
ghost use Rattle.plug_edit.specs.NitWords.{nit};

use crate::edit_words::number_up_to;
use crate::limits::{LAST_ID, LAST_VERSION};
use crate::nit_conf::EditNitConf;
use crate::versions::versions_agree;
use plugin_entry::{PluginHelp, PluginSettings};
use plugin_options::{
    Beside, Need, OptionRow, OptionText, OptionWord, ParsedOptions, Refusal, Takes, WordsRule,
};
use std::alloc::Global;

// The options of `nit`.
static NIT: [OptionRow; 5] = [
    OptionRow {
        word: OptionWord::Value("remove-ts", Takes::Ranges(LAST_ID)),
        text: OptionText {
            value: "LIST",
            meaning: "0 to 65535: leave out these transport streams",
            need: Need::Free,
            beside: Beside::Any,
        },
    },
    OptionRow {
        word: OptionWord::Value("network-id", Takes::Number(0, LAST_ID)),
        text: OptionText {
            value: "N",
            meaning: "0 to 65535: set network_id",
            need: Need::Free,
            beside: Beside::Any,
        },
    },
    OptionRow {
        word: OptionWord::Value("network-name", Takes::Text),
        text: OptionText {
            value: "TEXT",
            meaning: "replace the first network name descriptor, or put one last",
            need: Need::Free,
            beside: Beside::Any,
        },
    },
    OptionRow {
        word: OptionWord::Value("new-version", Takes::Number(0, LAST_VERSION)),
        text: OptionText {
            value: "N",
            meaning: "0 to 31: set the version",
            need: Need::Free,
            beside: Beside::Choice(1),
        },
    },
    OptionRow {
        word: OptionWord::Flag("increment-version"),
        text: OptionText {
            value: "",
            meaning: "count the version on, from 31 to 0",
            need: Need::Free,
            beside: Beside::Choice(1),
        },
    },
];

// Reads the settings of `nit` from what its command found in the words.
fn nit_settings(alloc: Global, found: &ParsedOptions) -> Result<EditNitConf, Refusal>
    ensures reads { ReadsParsed nit found.now result }
    ensures valid { IfOk result IsValidNit }
{
    let network_id = number_up_to(found, "network-id", LAST_ID)?;
    let new_version = number_up_to(found, "new-version", LAST_VERSION)?;
    let remove_ts = found.ranges(alloc, "remove-ts", LAST_ID)?;
    let network_name = found.optional_text(alloc, "network-name")?;
    let increment_version = found.has_flag("increment-version");
    if !versions_agree(new_version, increment_version) {
        return Err(Refusal::Broken(WordsRule::Conflict));
    }
    Ok(EditNitConf {
        remove_ts,
        network_id,
        network_name,
        new_version,
        increment_version,
    })
}

impl PluginSettings for EditNitConf {
    ghost use Rattle.std.specs.Prelude.{refl};
    ghost use Rattle.plug_edit.specs.NitEntry.{nit_entry};

    ghost entry = { nit_entry };

    fn name() -> &'static str {
        "nit"
    }

    fn options() -> &'static [OptionRow<'static>] {
        &NIT
    }

    fn help() -> PluginHelp {
        PluginHelp {
            usage: "-P nit [--remove-ts LIST] [--network-id N] [--network-name TEXT] [--new-version N | --increment-version]",
            rule: "Each packet on PID 16 becomes the next packet of the edited NIT, or a null packet until a table is known. What is left out comes first, then the other options in this order, and then the version. A stream without a NIT gets none. A table that changes without a new version is written on as it was first.",
        }
    }

    fn read(alloc: Global, found: &ParsedOptions) -> Result<EditNitConf, Refusal> {
        nit_settings(alloc, found)
    }

    fn table_file(&self) -> Option<&str> {
        None
    }

    fn uses_joint_termination(&self) -> bool {
        false
    }

    ghost simple = { refl };
}
