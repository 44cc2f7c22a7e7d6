//! The options of `inject`.
ghost use Rattle.std.specs.Prelude.{◌≡◌, IfOk};
ghost use Rattle.plugin_options.specs.Refusal.{ReadsParsed};
ghost use Rattle.plug_inject.specs.InjectSettings.{IsValidInject};
ghost use Rattle.plug_inject.specs.InjectWords.{inject};

use crate::inject_conf::{InjectConf, InjectMode, LAST_CARRIER, LAST_TABLE};
use plugin_entry::{PluginHelp, PluginSettings};
use plugin_options::{
    Beside, MOST_NUMBER, Need, OptionRow, OptionText, OptionWord, ParsedOptions, Refusal, Sign,
    Takes, WordsRule,
};
use std::alloc::Global;

// The options of `inject`.
static INJECT: [OptionRow; 6] = [
    OptionRow {
        word: OptionWord::Operand("operand", Takes::Text),
        text: OptionText {
            value: "FILE",
            meaning: "a text of tables as JSON where the name ends in .json, and otherwise sections, one after another",
            need: Need::Required,
            beside: Beside::Any,
        },
    },
    OptionRow {
        word: OptionWord::Value("pid", Takes::Number(0, LAST_CARRIER)),
        text: OptionText {
            value: "PID",
            meaning: "0 to 8190: the PID of the packets that are put in",
            need: Need::Required,
            beside: Beside::Any,
        },
    },
    OptionRow {
        word: OptionWord::Flag("replace"),
        text: OptionText {
            value: "",
            meaning: "put them instead of the packets on that PID",
            need: Need::Required,
            beside: Beside::Choice(1),
        },
    },
    OptionRow {
        word: OptionWord::Value("inter-packet", Takes::Number(1, MOST_NUMBER)),
        text: OptionText {
            value: "N",
            meaning: "1 to 2^60: put one instead of a null packet where none of the N - 1 packets before it was replaced",
            need: Need::Required,
            beside: Beside::Choice(1),
        },
    },
    OptionRow {
        word: OptionWord::Value(
            "every",
            Takes::Pairs(Sign::Slash, (0, LAST_TABLE), (1, MOST_NUMBER)),
        ),
        text: OptionText {
            value: "TID/N,..",
            meaning: "TID 0 to 255, N 1 to 2^60: put in the sections one by one, those of table_id TID every N packets that are put in, the first pair first, and all others in between",
            need: Need::Free,
            beside: Beside::Any,
        },
    },
    OptionRow {
        word: OptionWord::Flag("fix-counters"),
        text: OptionText {
            value: "",
            meaning: "the counters of all packets that leave on that PID go on from 0, put in or not",
            need: Need::Free,
            beside: Beside::Any,
        },
    },
];

// Whether the file, the PID and one of the two modes are given.
fn has_needed(found: &ParsedOptions) -> bool
    ensures { result ≡ inject.has_needed found.now }
{
    found.has_value("operand")
        && found.has_value("pid")
        && (found.has_flag("replace") || found.has_value("inter-packet"))
}

// Whether at most one of the two modes is given.
fn goes_together(found: &ParsedOptions) -> bool
    ensures { result ≡ inject.go_together found.now }
{
    !(found.has_flag("replace") && found.has_value("inter-packet"))
}

// Reads the settings of `inject` from the options that its command found.
fn inject_settings(alloc: Global, found: &ParsedOptions) -> Result<InjectConf, Refusal>
    ensures reads { ReadsParsed inject found.now result }
    ensures valid { IfOk result IsValidInject }
{
    if !has_needed(found) {
        return Err(Refusal::Broken(WordsRule::Missing));
    }
    let pid = found.number_or("pid", 0, LAST_CARRIER, 0)?;
    let inter_packet = found.number("inter-packet", 1, MOST_NUMBER)?;
    let every = found.pair_list(alloc, "every", '/', (0, LAST_TABLE), (1, MOST_NUMBER))?;
    if !goes_together(found) {
        return Err(Refusal::Broken(WordsRule::Conflict));
    }
    let file = found.text(alloc, "operand")?;
    Ok(InjectConf {
        file,
        pid,
        mode: InjectMode::of(inter_packet),
        fix_counters: found.has_flag("fix-counters"),
        every,
    })
}

impl PluginSettings for InjectConf {
    ghost use Rattle.std.specs.Prelude.{refl};
    ghost use Rattle.plug_inject.specs.InjectEntry.{inject_entry};

    ghost entry = { inject_entry };

    fn name() -> &'static str {
        "inject"
    }

    fn options() -> &'static [OptionRow<'static>] {
        &INJECT
    }

    fn help() -> PluginHelp {
        PluginHelp {
            usage: "-P inject FILE --pid PID --replace | --inter-packet N [--every TID/N,..] [--fix-counters]",
            rule: "The packets of these sections are put in over and over again, with counters from 0 on, and all other packets pass. The file is read once, before the input is opened. --inter-packet puts nothing into a stream without null packets: --add-input-stuffing 1/99 puts one into each hundred.",
        }
    }

    fn read(alloc: Global, found: &ParsedOptions) -> Result<InjectConf, Refusal> {
        inject_settings(alloc, found)
    }

    fn table_file(&self) -> Option<&str> {
        Some(self.file.as_str())
    }

    fn uses_joint_termination(&self) -> bool {
        false
    }

    ghost simple = { refl };
}
