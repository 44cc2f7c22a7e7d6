//! The options of `timestamps`.
ghost use Rattle.std.specs.Prelude.{◌≡◌, IfOk};
ghost use Rattle.plugin_options.specs.Refusal.{ReadsParsed};
ghost use Rattle.plug_times.specs.TimestampsSettings.{IsValidTimestamps};
ghost use Rattle.plug_times.specs.TimestampsWords.{timestamps};

use crate::shown::Shown;
use crate::timestamps_conf::TimestampsConf;
use plugin_entry::{PluginHelp, PluginSettings};
use plugin_options::{
    Beside, LAST_PID, Need, OptionRow, OptionText, OptionWord, ParsedOptions, Refusal, Takes,
};
use std::alloc::Global;

// The options of `timestamps`.
static TIMESTAMPS: [OptionRow; 5] = [
    OptionRow {
        word: OptionWord::Value("pid", Takes::Ranges(LAST_PID)),
        text: OptionText {
            value: "LIST",
            meaning: "0 to 8191: only packets on these PIDs; without it, on all",
            need: Need::Free,
            beside: Beside::Any,
        },
    },
    OptionRow {
        word: OptionWord::Flag("pcr"),
        text: OptionText {
            value: "",
            meaning: "report PCRs, in units of 27 MHz",
            need: Need::Free,
            beside: Beside::Any,
        },
    },
    OptionRow {
        word: OptionWord::Flag("pts"),
        text: OptionText {
            value: "",
            meaning: "report presentation time stamps, in units of 90 kHz",
            need: Need::Free,
            beside: Beside::Any,
        },
    },
    OptionRow {
        word: OptionWord::Flag("dts"),
        text: OptionText {
            value: "",
            meaning: "report decoding time stamps, in units of 90 kHz",
            need: Need::Free,
            beside: Beside::Any,
        },
    },
    OptionRow {
        word: OptionWord::Flag("csv"),
        text: OptionText {
            value: "",
            meaning: "lines of packet, PID, kind and value between commas, and no summary",
            need: Need::Free,
            beside: Beside::Any,
        },
    },
];

// Reads the settings of `timestamps` from the options that its command found.
fn timestamps_settings(alloc: Global, found: &ParsedOptions) -> Result<TimestampsConf, Refusal>
    ensures reads { ReadsParsed timestamps found.now result }
    ensures valid { IfOk result IsValidTimestamps }
{
    Ok(TimestampsConf {
        pid: found.ranges(alloc, "pid", LAST_PID)?,
        shown: Shown::of(
            found.has_flag("pcr"),
            found.has_flag("pts"),
            found.has_flag("dts"),
            found.has_flag("csv"),
        ),
    })
}

impl PluginSettings for TimestampsConf {
    ghost use Rattle.std.specs.Prelude.{refl};
    ghost use Rattle.plug_times.specs.TimestampsEntry.{timestamps_entry};

    ghost entry = { timestamps_entry };

    fn name() -> &'static str {
        "timestamps"
    }

    fn options() -> &'static [OptionRow<'static>] {
        &TIMESTAMPS
    }

    fn help() -> PluginHelp {
        PluginHelp {
            usage: "-P timestamps [--pid LIST] [--pcr] [--pts] [--dts] [--csv]",
            rule: "Without --pcr, --pts and --dts all three are reported. Left out are packets with errors, time stamps of scrambled packets, and time stamps of a PES packet whose header is damaged or not whole in its first packet. At the end there is a line for each PID with PCRs: their number, the longest step between two of them in microseconds, and how many steps were above 40 and 100 ms; a step to a packet with the discontinuity flag is left out. Every packet passes.",
        }
    }

    fn read(alloc: Global, found: &ParsedOptions) -> Result<TimestampsConf, Refusal> {
        timestamps_settings(alloc, found)
    }

    fn table_file(&self) -> Option<&str> {
        None
    }

    fn uses_joint_termination(&self) -> bool {
        false
    }

    ghost simple = { refl };
}
