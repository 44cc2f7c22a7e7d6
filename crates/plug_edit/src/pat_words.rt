//! The options of `pat`, and its settings from their values.

ghost use Rattle.std.specs.Prelude.{◌≡◌, IfOk, MatchResult, codes, false, true};
ghost use Rattle.std.specs.List.{All};
ghost use Rattle.plugin_options.specs.Forms.{pairs};
ghost use Rattle.plugin_options.specs.Options.{is_formed};
ghost use Rattle.plugin_options.specs.Refusal.{IsRefusedBy, ReadsParsed};
ghost use Rattle.plugin_options.specs.declared.words_rule.WordsRule.TheVariants.{Value};
ghost use Rattle.plugin_options.specs.declared.limits.TheConstants.{LAST_PID};
ghost use Rattle.plug_edit.specs.EditWords.{pairs_found, slash};
ghost use Rattle.plug_edit.specs.PatSettings.{IsAddedService, IsValidPat};
ghost use Rattle.plug_edit.specs.PatWords.{pat};
ghost use Rattle.plug_edit.specs.declared.limits.TheConstants.{LAST_ID};

use crate::edit_words::number_up_to;
use crate::limits::{LAST_ID, LAST_VERSION};
use crate::pat_conf::EditPatConf;
use crate::versions::versions_agree;
use plugin_entry::{PluginHelp, PluginSettings};
use plugin_options::{
    Beside, LAST_PID, Need, OptionRow, OptionText, OptionWord, PairList, ParsedOptions, Refusal,
    Sign, Takes, WordsRule,
};
use std::alloc::Global;

// The options of `pat`.
static PAT: [OptionRow; 6] = [
    OptionRow {
        word: OptionWord::Value(
            "add-service",
            Takes::Pairs(Sign::Slash, (1, LAST_ID), (0, LAST_PID)),
        ),
        text: OptionText {
            value: "ID/PID,..",
            meaning: "ID 1 to 65535, PID 0 to 8191: replace the first entry of the service's number, or put one last",
            need: Need::Free,
            beside: Beside::Any,
        },
    },
    OptionRow {
        word: OptionWord::Value("remove-service", Takes::RangesFrom(1, LAST_ID)),
        text: OptionText {
            value: "LIST",
            meaning: "1 to 65535: leave out all entries of these services",
            need: Need::Free,
            beside: Beside::Any,
        },
    },
    OptionRow {
        word: OptionWord::Value("ts-id", Takes::Number(0, LAST_ID)),
        text: OptionText {
            value: "N",
            meaning: "0 to 65535: set transport_stream_id",
            need: Need::Free,
            beside: Beside::Any,
        },
    },
    OptionRow {
        word: OptionWord::Value("nit", Takes::Number(0, LAST_PID)),
        text: OptionText {
            value: "PID",
            meaning: "0 to 8191: set the network PID",
            need: Need::Free,
            beside: Beside::Any,
        },
    },
    OptionRow {
        word: OptionWord::Value("new-version", Takes::Number(0, LAST_VERSION)),
        text: OptionText {
            value: "N",
            meaning: "0 to 31: set the version",
            need: Need::Free,
            beside: Beside::Choice(1),
        },
    },
    OptionRow {
        word: OptionWord::Flag("increment-version"),
        text: OptionText {
            value: "",
            meaning: "count the version on, from 31 to 0",
            need: Need::Free,
            beside: Beside::Choice(1),
        },
    },
];

// The services that are added.
fn added_services(alloc: Global, found: &ParsedOptions) -> Result<PairList, Refusal>
    ensures reads { MatchResult result
        (λ list. (is_formed (pairs slash (1, LAST_ID) (0, LAST_PID)) (codes "add-service") found.now ≡ true)
        × (list ≡ pairs_found (codes "add-service") (1, LAST_ID) (0, LAST_PID) found.now))
        (IsRefusedBy Value (is_formed (pairs slash (1, LAST_ID) (0, LAST_PID)) (codes "add-service") found.now ≡ false)) }
    ensures valid { IfOk result (All IsAddedService) }
{
    found.pair_list(alloc, "add-service", '/', (1, LAST_ID), (0, LAST_PID))
}

// Reads the settings of `pat` from what its command found in the words.
fn pat_settings(alloc: Global, found: &ParsedOptions) -> Result<EditPatConf, Refusal>
    ensures reads { ReadsParsed pat found.now result }
    ensures valid { IfOk result IsValidPat }
{
    let ts_id = number_up_to(found, "ts-id", LAST_ID)?;
    let nit = number_up_to(found, "nit", LAST_PID)?;
    let new_version = number_up_to(found, "new-version", LAST_VERSION)?;
    let add_service = added_services(alloc, found)?;
    let remove_service = found.ranges_from(alloc, "remove-service", 1, LAST_ID)?;
    let increment_version = found.has_flag("increment-version");
    if !versions_agree(new_version, increment_version) {
        return Err(Refusal::Broken(WordsRule::Conflict));
    }
    Ok(EditPatConf {
        add_service,
        remove_service,
        ts_id,
        nit,
        new_version,
        increment_version,
    })
}

impl PluginSettings for EditPatConf {
    ghost use Rattle.std.specs.Prelude.{refl};
    ghost use Rattle.plug_edit.specs.PatEntry.{pat_entry};

    ghost entry = { pat_entry };

    fn name() -> &'static str {
        "pat"
    }

    fn options() -> &'static [OptionRow<'static>] {
        &PAT
    }

    fn help() -> PluginHelp {
        PluginHelp {
            usage: "-P pat [--add-service ID/PID,..] [--remove-service LIST] [--ts-id N] [--nit PID] [--new-version N | --increment-version]",
            rule: "Each packet on PID 0 becomes the next packet of the edited PAT, or a null packet until a table is known. What is left out comes first, then the other options in this order, and then the version. A table that changes without a new version is written on as it was first.",
        }
    }

    fn read(alloc: Global, found: &ParsedOptions) -> Result<EditPatConf, Refusal> {
        pat_settings(alloc, found)
    }

    fn table_file(&self) -> Option<&str> {
        None
    }

    fn uses_joint_termination(&self) -> bool {
        false
    }

    ghost simple = { refl };
}
