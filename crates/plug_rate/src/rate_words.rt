//! The options of `rate`.
ghost use Rattle.std.specs.Prelude.{◌≡◌, IfOk};
ghost use Rattle.plugin_options.specs.Refusal.{ReadsParsed};
ghost use Rattle.plug_rate.specs.RateSettings.{IsValidRate};
ghost use Rattle.plug_rate.specs.RateWords.{rate};

use crate::bounds::Bounds;
use crate::limits::{DEFAULT_INTERVAL, LEAST_INTERVAL, MOST_INTERVAL};
use crate::rate_conf::RateConf;
use plugin_entry::{PluginHelp, PluginSettings};
use plugin_options::{
    Beside, LAST_PID, MOST_NUMBER, Need, OptionRow, OptionText, OptionWord, ParsedOptions, Refusal,
    Takes, WordsRule,
};
use std::alloc::Global;

// The options of `rate`.
static RATE: [OptionRow; 5] = [
    OptionRow {
        word: OptionWord::Value("interval", Takes::Number(LEAST_INTERVAL, MOST_INTERVAL)),
        text: OptionText {
            value: "MS",
            meaning: "100 to 3,600,000, default 1,000: the time between two measurements, in milliseconds",
            need: Need::Free,
            beside: Beside::Any,
        },
    },
    OptionRow {
        word: OptionWord::Value("pid", Takes::Ranges(LAST_PID)),
        text: OptionText {
            value: "LIST",
            meaning: "0 to 8191: only packets on these PIDs are counted; without it, all",
            need: Need::Free,
            beside: Beside::Any,
        },
    },
    OptionRow {
        word: OptionWord::Value("min", Takes::Number(0, MOST_NUMBER)),
        text: OptionText {
            value: "BPS",
            meaning: "0 to 2^60: report only where the bit rate is below this, in bits per second, or is right again",
            need: Need::Free,
            beside: Beside::Any,
        },
    },
    OptionRow {
        word: OptionWord::Value("max", Takes::Number(0, MOST_NUMBER)),
        text: OptionText {
            value: "BPS",
            meaning: "0 to 2^60, not below --min: report only where the bit rate is above this, or is right again",
            need: Need::Free,
            beside: Beside::Any,
        },
    },
    OptionRow {
        word: OptionWord::Value("pcr-pid", Takes::Number(0, LAST_PID)),
        text: OptionText {
            value: "PID",
            meaning: "0 to 8191: the PID whose PCRs are the clock; without it, that of the first PCR, or of another one once that has stopped",
            need: Need::Free,
            beside: Beside::Any,
        },
    },
];

// Reads the settings of `rate` from the options that its command found.
fn rate_settings(alloc: Global, found: &ParsedOptions) -> Result<RateConf, Refusal>
    ensures reads { ReadsParsed rate found.now result }
    ensures valid { IfOk result IsValidRate }
{
    let interval = found.number_or("interval", LEAST_INTERVAL, MOST_INTERVAL, DEFAULT_INTERVAL)?;
    let bounds = Bounds {
        least: found.number("min", 0, MOST_NUMBER)?,
        most: found.number("max", 0, MOST_NUMBER)?,
    };
    let pcr_pid = found.number("pcr-pid", 0, LAST_PID)?;
    let pid = found.ranges(alloc, "pid", LAST_PID)?;
    if !bounds.are_in_order() {
        return Err(Refusal::Broken(WordsRule::Conflict));
    }
    Ok(RateConf {
        interval,
        pid,
        bounds,
        pcr_pid,
    })
}

impl PluginSettings for RateConf {
    ghost use Rattle.std.specs.Prelude.{refl};
    ghost use Rattle.plug_rate.specs.RateEntry.{rate_entry};

    ghost entry = { rate_entry };

    fn name() -> &'static str {
        "rate"
    }

    fn options() -> &'static [OptionRow<'static>] {
        &RATE
    }

    fn help() -> PluginHelp {
        PluginHelp {
            usage: "-P rate [--interval MS] [--pid LIST] [--min BPS] [--max BPS] [--pcr-pid PID]",
            rule: "The first packet with which one or more intervals have passed since the first PCR, by the stream's own clock, has a line with its position, the time in milliseconds, and the bit rate of the packets from the one before it on; where several pass with one packet it has one line. With --min or --max a line ends with low or high, and the first one within the bounds after such a line with again; the others are left out. --min above --max is a conflict. Dropped packets still take their time, and count no more. The last line has the number of measurements, with and without a line, and the least and the greatest bit rate. The clock jumps at each PCR; where a PCR is that of before, behind it or more than a second ahead, has the discontinuity flag, or is on another PID, the clock goes on at the mean rate until then; PCRs of packets with a transport error are not read. Every packet passes.",
        }
    }

    fn read(alloc: Global, found: &ParsedOptions) -> Result<RateConf, Refusal> {
        rate_settings(alloc, found)
    }

    fn table_file(&self) -> Option<&str> {
        None
    }

    fn uses_joint_termination(&self) -> bool {
        false
    }

    ghost simple = { refl };
}
