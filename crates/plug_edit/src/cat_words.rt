//! The options of `cat`, and its settings from their values.

ghost use Rattle.std.specs.Prelude.{◌≡◌, IfOk, MatchResult, codes, false, true};
ghost use Rattle.std.specs.List.{All};
ghost use Rattle.plugin_options.specs.Forms.{pairs};
ghost use Rattle.plugin_options.specs.Options.{is_formed};
ghost use Rattle.plugin_options.specs.Refusal.{IsRefusedBy, ReadsParsed};
ghost use Rattle.plugin_options.specs.declared.words_rule.WordsRule.TheVariants.{Value};
ghost use Rattle.plugin_options.specs.declared.limits.TheConstants.{LAST_PID};
ghost use Rattle.plug_edit.specs.CatSettings.{IsAddedCa, IsValidCat};
ghost use Rattle.plug_edit.specs.CatWords.{cat};
ghost use Rattle.plug_edit.specs.EditWords.{pairs_found, slash};
ghost use Rattle.plug_edit.specs.declared.limits.TheConstants.{LAST_ID};

use crate::cat_conf::EditCatConf;
use crate::edit_words::number_up_to;
use crate::limits::{LAST_ID, LAST_VERSION};
use crate::versions::versions_agree;
use plugin_entry::{PluginHelp, PluginSettings};
use plugin_options::{
    Beside, LAST_PID, Need, OptionRow, OptionText, OptionWord, PairList, ParsedOptions, Refusal,
    Sign, Takes, WordsRule,
};
use std::alloc::Global;

// The options of `cat`.
static CAT: [OptionRow; 5] = [
    OptionRow {
        word: OptionWord::Value(
            "add-ca",
            Takes::Pairs(Sign::Slash, (0, LAST_ID), (0, LAST_PID)),
        ),
        text: OptionText {
            value: "SYS/PID,..",
            meaning: "SYS 0 to 65535, PID 0 to 8191: put a CA descriptor of that system and EMM PID last",
            need: Need::Free,
            beside: Beside::Any,
        },
    },
    OptionRow {
        word: OptionWord::Value("remove-casid", Takes::Ranges(LAST_ID)),
        text: OptionText {
            value: "LIST",
            meaning: "0 to 65535: leave out the CA descriptors of these systems",
            need: Need::Free,
            beside: Beside::Any,
        },
    },
    OptionRow {
        word: OptionWord::Value("remove-pid", Takes::Ranges(LAST_PID)),
        text: OptionText {
            value: "LIST",
            meaning: "0 to 8191: leave out the CA descriptors of these PIDs",
            need: Need::Free,
            beside: Beside::Any,
        },
    },
    OptionRow {
        word: OptionWord::Value("new-version", Takes::Number(0, LAST_VERSION)),
        text: OptionText {
            value: "N",
            meaning: "0 to 31: set the version",
            need: Need::Free,
            beside: Beside::Choice(1),
        },
    },
    OptionRow {
        word: OptionWord::Flag("increment-version"),
        text: OptionText {
            value: "",
            meaning: "count the version on, from 31 to 0",
            need: Need::Free,
            beside: Beside::Choice(1),
        },
    },
];

// The CA descriptors that are added.
pub(crate) fn added_systems(alloc: Global, found: &ParsedOptions) -> Result<PairList, Refusal>
    ensures reads { MatchResult result
        (λ list. (is_formed (pairs slash (0, LAST_ID) (0, LAST_PID)) (codes "add-ca") found.now ≡ true)
        × (list ≡ pairs_found (codes "add-ca") (0, LAST_ID) (0, LAST_PID) found.now))
        (IsRefusedBy Value (is_formed (pairs slash (0, LAST_ID) (0, LAST_PID)) (codes "add-ca") found.now ≡ false)) }
    ensures valid { IfOk result (All IsAddedCa) }
{
    found.pair_list(alloc, "add-ca", '/', (0, LAST_ID), (0, LAST_PID))
}

// Reads the settings of `cat` from what its command found in the words.
fn cat_settings(alloc: Global, found: &ParsedOptions) -> Result<EditCatConf, Refusal>
    ensures reads { ReadsParsed cat found.now result }
    ensures valid { IfOk result IsValidCat }
{
    let new_version = number_up_to(found, "new-version", LAST_VERSION)?;
    let add_ca = added_systems(alloc, found)?;
    let remove_casid = found.ranges(alloc, "remove-casid", LAST_ID)?;
    let remove_pid = found.ranges(alloc, "remove-pid", LAST_PID)?;
    let increment_version = found.has_flag("increment-version");
    if !versions_agree(new_version, increment_version) {
        return Err(Refusal::Broken(WordsRule::Conflict));
    }
    Ok(EditCatConf {
        add_ca,
        remove_casid,
        remove_pid,
        new_version,
        increment_version,
    })
}

impl PluginSettings for EditCatConf {
    ghost use Rattle.std.specs.Prelude.{refl};
    ghost use Rattle.plug_edit.specs.CatEntry.{cat_entry};

    ghost entry = { cat_entry };

    fn name() -> &'static str {
        "cat"
    }

    fn options() -> &'static [OptionRow<'static>] {
        &CAT
    }

    fn help() -> PluginHelp {
        PluginHelp {
            usage: "-P cat [--add-ca SYS/PID,..] [--remove-casid LIST] [--remove-pid LIST] [--new-version N | --increment-version]",
            rule: "Each packet on PID 1 becomes the next packet of the edited CAT, or a null packet until a table is known. What is left out comes first, then what is put in, and then the version. A stream without a CAT gets none. A table that changes without a new version is written on as it was first.",
        }
    }

    fn read(alloc: Global, found: &ParsedOptions) -> Result<EditCatConf, Refusal> {
        cat_settings(alloc, found)
    }

    fn table_file(&self) -> Option<&str> {
        None
    }

    fn uses_joint_termination(&self) -> bool {
        false
    }

    ghost simple = { refl };
}
