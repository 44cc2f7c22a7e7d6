//! The options of `pcrverify`.
ghost use Rattle.std.specs.Prelude.{◌≡◌, IfOk};
ghost use Rattle.plugin_options.specs.Refusal.{ReadsParsed};
ghost use Rattle.plug_pcr.specs.PcrverifySettings.{IsValidPcrverify};
ghost use Rattle.plug_pcr.specs.PcrverifyWords.{pcrverify};

use crate::limits::{DEFAULT_JITTER, MOST_BITRATE, MOST_JITTER};
use crate::pcrverify_conf::PcrverifyConf;
use plugin_entry::{PluginHelp, PluginSettings};
use plugin_options::{
    Beside, LAST_PID, Need, OptionRow, OptionText, OptionWord, ParsedOptions, Refusal, Takes,
    WordsRule,
};
use std::alloc::Global;

// The options of `pcrverify`.
static PCRVERIFY: [OptionRow; 3] = [
    OptionRow {
        word: OptionWord::Value("bitrate", Takes::Number(1, MOST_BITRATE)),
        text: OptionText {
            value: "N",
            meaning: "1 to 10,000,000,000: the bit rate of the stream, in bits per second",
            need: Need::Required,
            beside: Beside::Any,
        },
    },
    OptionRow {
        word: OptionWord::Value("jitter-max", Takes::Number(0, MOST_JITTER)),
        text: OptionText {
            value: "J",
            meaning: "0 to 2,576,980,377,599, default 27,000: how far a PCR may be from the expected one, in units of the 27 MHz clock; 27,000 are a millisecond",
            need: Need::Free,
            beside: Beside::Any,
        },
    },
    OptionRow {
        word: OptionWord::Value("pid", Takes::Ranges(LAST_PID)),
        text: OptionText {
            value: "LIST",
            meaning: "0 to 8191: only these PIDs; without it, all",
            need: Need::Free,
            beside: Beside::Any,
        },
    },
];

// Reads the settings of `pcrverify` from the options that its command found.
fn pcrverify_settings(alloc: Global, found: &ParsedOptions) -> Result<PcrverifyConf, Refusal>
    ensures reads { ReadsParsed pcrverify found.now result }
    ensures valid { IfOk result IsValidPcrverify }
{
    if !found.has_value("bitrate") {
        return Err(Refusal::Broken(WordsRule::Missing));
    }
    Ok(PcrverifyConf {
        bitrate: found.number_or("bitrate", 1, MOST_BITRATE, 1)?,
        jitter_max: found.number_or("jitter-max", 0, MOST_JITTER, DEFAULT_JITTER)?,
        pid: found.ranges(alloc, "pid", LAST_PID)?,
    })
}

impl PluginSettings for PcrverifyConf {
    ghost use Rattle.std.specs.Prelude.{refl};
    ghost use Rattle.plug_pcr.specs.PcrverifyEntry.{pcrverify_entry};

    ghost entry = { pcrverify_entry };

    fn name() -> &'static str {
        "pcrverify"
    }

    fn options() -> &'static [OptionRow<'static>] {
        &PCRVERIFY
    }

    fn help() -> PluginHelp {
        PluginHelp {
            usage: "-P pcrverify --bitrate N [--jitter-max J] [--pid LIST]",
            rule: "A PCR that is further from the one before on its PID than the packets between take at the bit rate, or less far, is reported, unless the packet has the discontinuity flag; the last line has the numbers of PCRs and of faults. Packets that were dropped before still take their time, and every packet passes. info reports the bit rate. PCRs that are each 500 ns off at most, as ISO/IEC 13818-1 has it, are no faults with --jitter-max 27, since two of them may be a microsecond from each other.",
        }
    }

    fn read(alloc: Global, found: &ParsedOptions) -> Result<PcrverifyConf, Refusal> {
        pcrverify_settings(alloc, found)
    }

    fn table_file(&self) -> Option<&str> {
        None
    }

    fn uses_joint_termination(&self) -> bool {
        false
    }

    ghost simple = { refl };
}
