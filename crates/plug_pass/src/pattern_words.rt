//! The options of `pattern`, and its settings from their values.

ghost use Rattle.std.specs.Prelude.{◌≡◌, IfOk};
ghost use Rattle.plug_pass.specs.PatternSettings.{IsValidPattern};
ghost use Rattle.plug_pass.specs.PatternWords.{pattern};
ghost use Rattle.plugin_options.specs.Refusal.{ReadsParsed};

use crate::pattern_conf::PatternConf;
use plugin_entry::{PluginHelp, PluginSettings};
use plugin_options::{
    Beside, LAST_OFFSET, LAST_PID, Need, OptionRow, OptionText, OptionWord, ParsedOptions, Refusal,
    Takes, WordsRule,
};
use std::alloc::Global;
use ts_packet::PAYLOAD_SIZE;

// The options of `pattern`.
static PATTERN: [OptionRow; 5] = [
    OptionRow {
        word: OptionWord::Operand("operand", Takes::Bytes(1, PAYLOAD_SIZE)),
        text: OptionText {
            value: "HEX",
            meaning: "1 to 184 bytes: the pattern, two hexadecimal digits a byte",
            need: Need::Required,
            beside: Beside::Any,
        },
    },
    OptionRow {
        word: OptionWord::Value("pid", Takes::Ranges(LAST_PID)),
        text: OptionText {
            value: "LIST",
            meaning: "0 to 8191: only packets on these PIDs; without it, on all",
            need: Need::Free,
            beside: Beside::Any,
        },
    },
    OptionRow {
        word: OptionWord::Value("offset-pusi", Takes::Number(0, LAST_OFFSET)),
        text: OptionText {
            value: "N",
            meaning: "0 to 183, default 0: the byte of the payload at which the pattern begins, in packets with the payload unit start indicator",
            need: Need::Free,
            beside: Beside::Any,
        },
    },
    OptionRow {
        word: OptionWord::Value("offset-non-pusi", Takes::Number(0, LAST_OFFSET)),
        text: OptionText {
            value: "N",
            meaning: "0 to 183, default 0: the same for the other packets",
            need: Need::Free,
            beside: Beside::Any,
        },
    },
    OptionRow {
        word: OptionWord::Flag("negate"),
        text: OptionText {
            value: "",
            meaning: "with --pid: only packets on the other PIDs",
            need: Need::Free,
            beside: Beside::With("pid"),
        },
    },
];

// Reads the settings of `pattern` from what its command found in the words.
fn pattern_settings(alloc: Global, found: &ParsedOptions) -> Result<PatternConf, Refusal>
    ensures reads { ReadsParsed pattern found.now result }
    ensures valid { IfOk result IsValidPattern }
{
    if !found.has_value("operand") {
        return Err(Refusal::Broken(WordsRule::Missing));
    }
    let offset_pusi = found.number("offset-pusi", 0, LAST_OFFSET)?;
    let offset_non_pusi = found.number("offset-non-pusi", 0, LAST_OFFSET)?;
    let pid = found.ranges(alloc, "pid", LAST_PID)?;
    let operand = found.bytes(alloc, "operand", 1, PAYLOAD_SIZE)?;
    Ok(PatternConf {
        operand,
        pid,
        negate: found.has_flag("negate"),
        offset_pusi,
        offset_non_pusi,
    })
}

impl PluginSettings for PatternConf {
    ghost use Rattle.std.specs.Prelude.{refl};
    ghost use Rattle.plug_pass.specs.PatternEntry.{pattern_entry};

    ghost entry = { pattern_entry };

    fn name() -> &'static str {
        "pattern"
    }

    fn options() -> &'static [OptionRow<'static>] {
        &PATTERN
    }

    fn help() -> PluginHelp {
        PluginHelp {
            usage: "-P pattern HEX [--pid LIST] [--negate] [--offset-pusi N] [--offset-non-pusi N]",
            rule: "The pattern is written again and again, from the byte of its offset to the end of the packet. A packet without a payload, or with a shorter one, stays as it is.",
        }
    }

    fn read(alloc: Global, found: &ParsedOptions) -> Result<PatternConf, Refusal> {
        pattern_settings(alloc, found)
    }

    fn table_file(&self) -> Option<&str> {
        None
    }

    fn uses_joint_termination(&self) -> bool {
        false
    }

    ghost simple = { refl };
}
