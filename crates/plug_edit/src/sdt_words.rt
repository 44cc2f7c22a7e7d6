//! The options of `sdt`, and its settings from their values.

ghost use Rattle.std.specs.Prelude.{◌≡◌, IfOk};
ghost use Rattle.plugin_options.specs.Refusal.{ReadsParsed};
ghost use Rattle.plug_edit.specs.SdtSettings.{IsValidSdt};
ghost use Rattle.plug_edit.specs.SdtWords.{sdt};

use crate::edit_words::number_up_to;
use crate::limits::{LAST_ID, LAST_MODE, LAST_STATUS, LAST_TYPE, LAST_VERSION};
use crate::sdt_conf::EditSdtConf;
use plugin_entry::{PluginHelp, PluginSettings};
use plugin_options::{
    Beside, Need, OptionRow, OptionText, OptionWord, ParsedOptions, Refusal, Takes, WordsRule,
};
use std::alloc::Global;

// The options of `sdt`. The first five are on services and on a service descriptor.
static SDT: [OptionRow; 9] = [
    OptionRow {
        word: OptionWord::Value("remove-service", Takes::Ranges(LAST_ID)),
        text: OptionText {
            value: "LIST",
            meaning: "0 to 65535: leave out these services",
            need: Need::Free,
            beside: Beside::Any,
        },
    },
    OptionRow {
        word: OptionWord::Value("service", Takes::Number(0, LAST_ID)),
        text: OptionText {
            value: "N",
            meaning: "0 to 65535: the service that the next five options change; put in last where it is not there",
            need: Need::Free,
            beside: Beside::Any,
        },
    },
    OptionRow {
        word: OptionWord::Value("name", Takes::Text),
        text: OptionText {
            value: "TEXT",
            meaning: "with --service: its name",
            need: Need::Free,
            beside: Beside::With("service"),
        },
    },
    OptionRow {
        word: OptionWord::Value("provider", Takes::Text),
        text: OptionText {
            value: "TEXT",
            meaning: "with --service: its provider's name",
            need: Need::Free,
            beside: Beside::With("service"),
        },
    },
    OptionRow {
        word: OptionWord::Value("type", Takes::Number(0, LAST_TYPE)),
        text: OptionText {
            value: "N",
            meaning: "0 to 255: with --service: its service_type",
            need: Need::Free,
            beside: Beside::With("service"),
        },
    },
    OptionRow {
        word: OptionWord::Value("running-status", Takes::Number(0, LAST_STATUS)),
        text: OptionText {
            value: "N",
            meaning: "0 to 7: with --service: its running_status",
            need: Need::Free,
            beside: Beside::With("service"),
        },
    },
    OptionRow {
        word: OptionWord::Value("free-ca-mode", Takes::Number(0, LAST_MODE)),
        text: OptionText {
            value: "N",
            meaning: "0 to 1: with --service: its free_CA_mode",
            need: Need::Free,
            beside: Beside::With("service"),
        },
    },
    OptionRow {
        word: OptionWord::Value("new-version", Takes::Number(0, LAST_VERSION)),
        text: OptionText {
            value: "N",
            meaning: "0 to 31: set the version",
            need: Need::Free,
            beside: Beside::Choice(1),
        },
    },
    OptionRow {
        word: OptionWord::Flag("increment-version"),
        text: OptionText {
            value: "",
            meaning: "count the version on, from 31 to 0",
            need: Need::Free,
            beside: Beside::Choice(1),
        },
    },
];

// Reads the settings of `sdt` from what its command found in the words.
fn sdt_settings(alloc: Global, found: &ParsedOptions) -> Result<EditSdtConf, Refusal>
    ensures reads { ReadsParsed sdt found.now result }
    ensures valid { IfOk result IsValidSdt }
{
    let service = number_up_to(found, "service", LAST_ID)?;
    let service_type = number_up_to(found, "type", LAST_TYPE)?;
    let running_status = number_up_to(found, "running-status", LAST_STATUS)?;
    let free_ca_mode = number_up_to(found, "free-ca-mode", LAST_MODE)?;
    let new_version = number_up_to(found, "new-version", LAST_VERSION)?;
    let remove_service = found.ranges(alloc, "remove-service", LAST_ID)?;
    let name = found.optional_text(alloc, "name")?;
    let provider = found.optional_text(alloc, "provider")?;
    let conf = EditSdtConf {
        remove_service,
        service,
        name,
        provider,
        service_type,
        running_status,
        free_ca_mode,
        new_version,
        increment_version: found.has_flag("increment-version"),
    };
    if !conf.goes_together() {
        return Err(Refusal::Broken(WordsRule::Conflict));
    }
    Ok(conf)
}

impl PluginSettings for EditSdtConf {
    ghost use Rattle.std.specs.Prelude.{refl};
    ghost use Rattle.plug_edit.specs.SdtEntry.{sdt_entry};

    ghost entry = { sdt_entry };

    fn name() -> &'static str {
        "sdt"
    }

    fn options() -> &'static [OptionRow<'static>] {
        &SDT
    }

    fn help() -> PluginHelp {
        PluginHelp {
            usage: "-P sdt [--remove-service LIST] [--service N] [--name TEXT] [--provider TEXT] [--type N] [--running-status N] [--free-ca-mode N] [--new-version N | --increment-version]",
            rule: "Each packet on PID 17 becomes the next packet of the edited SDT, or a null packet until a table is known. Name, provider and type are those of the service's descriptor, and no option on a service goes without --service. Each further service takes an sdt of its own in the chain. A stream without an SDT gets none. What does not fit its descriptor or its sections leaves the table as it was. A table that changes without a new version is written on as it was first.",
        }
    }

    fn read(alloc: Global, found: &ParsedOptions) -> Result<EditSdtConf, Refusal> {
        sdt_settings(alloc, found)
    }

    fn table_file(&self) -> Option<&str> {
        None
    }

    fn uses_joint_termination(&self) -> bool {
        false
    }

    ghost simple = { refl };
}
