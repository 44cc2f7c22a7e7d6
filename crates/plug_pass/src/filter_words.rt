//! The options of `filter`, and its settings from their values.

ghost use Rattle.std.specs.Prelude.{◌≡◌, IfOk};
ghost use Rattle.plug_pass.specs.FilterSettings.{IsValidFilter};
ghost use Rattle.plug_pass.specs.FilterWords.{filter};
ghost use Rattle.plugin_options.specs.Refusal.{ReadsParsed};

use crate::filter_conf::FilterConf;
use plugin_entry::{PluginHelp, PluginSettings};
use plugin_options::{
    Beside, LAST_LABEL, LAST_PID, Need, OptionRow, OptionText, OptionWord, ParsedOptions, Refusal,
    Takes, WordsRule,
};
use std::alloc::Global;

// The options of `filter`, of which the first five are conditions.
static FILTER: [OptionRow; 8] = [
    OptionRow {
        word: OptionWord::Value("pid", Takes::Ranges(LAST_PID)),
        text: OptionText {
            value: "LIST",
            meaning: "0 to 8191: condition: the PID is in the list",
            need: Need::OneOf,
            beside: Beside::Any,
        },
    },
    OptionRow {
        word: OptionWord::Flag("pcr"),
        text: OptionText {
            value: "",
            meaning: "condition: the packet carries a PCR",
            need: Need::OneOf,
            beside: Beside::Any,
        },
    },
    OptionRow {
        word: OptionWord::Flag("unit-start"),
        text: OptionText {
            value: "",
            meaning: "condition: the payload unit start indicator is set",
            need: Need::OneOf,
            beside: Beside::Any,
        },
    },
    OptionRow {
        word: OptionWord::Flag("scrambled"),
        text: OptionText {
            value: "",
            meaning: "condition: the scrambling control is not 0",
            need: Need::OneOf,
            beside: Beside::Any,
        },
    },
    OptionRow {
        word: OptionWord::Value("label", Takes::Ranges(LAST_LABEL)),
        text: OptionText {
            value: "LIST",
            meaning: "0 to 31: condition: the packet has a label of the list",
            need: Need::OneOf,
            beside: Beside::Any,
        },
    },
    OptionRow {
        word: OptionWord::Flag("negate"),
        text: OptionText {
            value: "",
            meaning: "select the packets that meet no condition",
            need: Need::Free,
            beside: Beside::Any,
        },
    },
    OptionRow {
        word: OptionWord::Flag("stuffing"),
        text: OptionText {
            value: "",
            meaning: "put a null packet instead of each packet that would be dropped",
            need: Need::Free,
            beside: Beside::Choice(1),
        },
    },
    OptionRow {
        word: OptionWord::Value("set-label", Takes::Ranges(LAST_LABEL)),
        text: OptionText {
            value: "LIST",
            meaning: "0 to 31: pass all packets, and give the selected ones these labels",
            need: Need::Free,
            beside: Beside::Choice(1),
        },
    },
];

// Whether one of the five conditions is given.
fn has_condition(found: &ParsedOptions) -> bool
    ensures { result ≡ filter.has_needed found.now }
{
    found.has_value("pid")
        || found.has_flag("pcr")
        || found.has_flag("unit-start")
        || found.has_flag("scrambled")
        || found.has_value("label")
}

// Reads the settings of `filter` from what its command found in the words.
fn filter_settings(alloc: Global, found: &ParsedOptions) -> Result<FilterConf, Refusal>
    ensures reads { ReadsParsed filter found.now result }
    ensures valid { IfOk result IsValidFilter }
{
    if !has_condition(found) {
        return Err(Refusal::Broken(WordsRule::Missing));
    }
    let pid = found.ranges(alloc, "pid", LAST_PID)?;
    let label = found.ranges(alloc, "label", LAST_LABEL)?;
    let set_label = found.ranges(alloc, "set-label", LAST_LABEL)?;
    let conf = FilterConf {
        pid,
        pcr: found.has_flag("pcr"),
        unit_start: found.has_flag("unit-start"),
        scrambled: found.has_flag("scrambled"),
        label,
        negate: found.has_flag("negate"),
        stuffing: found.has_flag("stuffing"),
        set_label,
    };
    if !conf.goes_together() {
        return Err(Refusal::Broken(WordsRule::Conflict));
    }
    Ok(conf)
}

impl PluginSettings for FilterConf {
    ghost use Rattle.std.specs.Prelude.{refl};
    ghost use Rattle.plug_pass.specs.FilterEntry.{filter_entry};

    ghost entry = { filter_entry };

    fn name() -> &'static str {
        "filter"
    }

    fn options() -> &'static [OptionRow<'static>] {
        &FILTER
    }

    fn help() -> PluginHelp {
        PluginHelp {
            usage: "-P filter [--pid LIST] [--pcr] [--unit-start] [--scrambled] [--label LIST] [--negate] [--stuffing | --set-label LIST]",
            rule: "A packet is selected where it meets at least one of the given conditions, and one has to be given. The selected packets pass and the others are dropped, unless --set-label is given.",
        }
    }

    fn read(alloc: Global, found: &ParsedOptions) -> Result<FilterConf, Refusal> {
        filter_settings(alloc, found)
    }

    fn table_file(&self) -> Option<&str> {
        None
    }

    fn uses_joint_termination(&self) -> bool {
        false
    }

    ghost simple = { refl };
}
