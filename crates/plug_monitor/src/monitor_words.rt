//! The options of `monitor`.
ghost use Rattle.std.specs.Prelude.{◌≡◌, IfOk};
ghost use Rattle.plugin_options.specs.Refusal.{ReadsParsed};
ghost use Rattle.plug_monitor.specs.MonitorSettings.{IsValidMonitor};
ghost use Rattle.plug_monitor.specs.MonitorWords.{monitor};

use crate::limits::{DEFAULT_PID_GAP, DEFAULT_PRIORITY, MOST_BITRATE, MOST_PID_GAP, MOST_PRIORITY};
use crate::monitor_conf::MonitorConf;
use plugin_entry::{PluginHelp, PluginSettings};
use plugin_options::{
    Beside, LAST_PID, Need, OptionRow, OptionText, OptionWord, ParsedOptions, Refusal, Takes,
};
use std::alloc::Global;

// The options of `monitor`.
static MONITOR: [OptionRow; 4] = [
    OptionRow {
        word: OptionWord::Value("priority", Takes::Number(1, MOST_PRIORITY)),
        text: OptionText {
            value: "N",
            meaning: "1 to 3, default 2: look at the indicators up to this priority",
            need: Need::Free,
            beside: Beside::Any,
        },
    },
    OptionRow {
        word: OptionWord::Value("bitrate", Takes::Number(1, MOST_BITRATE)),
        text: OptionText {
            value: "N",
            meaning: "1 to 10,000,000,000: the constant bit rate of the stream, in bits per second; without it 2.4 is not looked at",
            need: Need::Free,
            beside: Beside::Any,
        },
    },
    OptionRow {
        word: OptionWord::Value("pid-gap", Takes::Number(1, MOST_PID_GAP)),
        text: OptionText {
            value: "MS",
            meaning: "1 to 3,600,000, default 5,000: how long a PID with sound or picture may be without a packet, in milliseconds (1.6)",
            need: Need::Free,
            beside: Beside::Any,
        },
    },
    OptionRow {
        word: OptionWord::Value("pcr-pid", Takes::Number(0, LAST_PID)),
        text: OptionText {
            value: "PID",
            meaning: "0 to 8191: the PID whose PCRs are the clock; without it, that of the first PCR, or of another one once that has stopped",
            need: Need::Free,
            beside: Beside::Any,
        },
    },
];

// Reads the settings of `monitor` from the options that its command found.
fn monitor_settings(found: &ParsedOptions) -> Result<MonitorConf, Refusal>
    ensures reads { ReadsParsed monitor found.now result }
    ensures valid { IfOk result IsValidMonitor }
{
    Ok(MonitorConf {
        priority: found.number_or("priority", 1, MOST_PRIORITY, DEFAULT_PRIORITY)?,
        bitrate: found.number("bitrate", 1, MOST_BITRATE)?,
        pid_gap: found.number_or("pid-gap", 1, MOST_PID_GAP, DEFAULT_PID_GAP)?,
        pcr_pid: found.number("pcr-pid", 0, LAST_PID)?,
    })
}

impl PluginSettings for MonitorConf {
    ghost use Rattle.std.specs.Prelude.{refl};
    ghost use Rattle.plug_monitor.specs.MonitorEntry.{monitor_entry};

    ghost entry = { monitor_entry };

    fn name() -> &'static str {
        "monitor"
    }

    fn options() -> &'static [OptionRow<'static>] {
        &MONITOR
    }

    fn help() -> PluginHelp {
        PluginHelp {
            usage: "-P monitor [--priority N] [--bitrate N] [--pid-gap MS] [--pcr-pid PID]",
            rule: "Errors by the indicators of ETSI TR 101 290, each with a line. Priority 1: 1.3 no PAT for more than 500 ms, another table or a scrambled packet on PID 0; 1.4 a wrong continuity counter, or a packet more than twice; 1.5 no PMT of a service for more than 500 ms, or a scrambled packet on its PID; 1.6 no packet on a PID with sound or picture for --pid-gap. Priority 2: 2.1 the transport_error_indicator; 2.2 a wrong CRC; 2.3 two PCRs more than 100 ms apart, or the same, or none for a second; 2.4 with --bitrate, two PCRs that are off by more than 1,000 ns; 2.5 no PTS for more than 700 ms; 2.6 scrambled packets and no CAT for more than 2 s, or another table on PID 1. Priority 3: 3.1 no NIT for more than 10 s; 3.4 a PID to which no table has referred for more than 500 ms; 3.5 no SDT for more than 2 s; 3.6 no EIT present/following of a service that has them for more than 2 s; 3.7 another table than RST on PID 19; 3.8 no TDT for more than 30 s; and, of 3.1, 3.5, 3.6 and 3.8, tables that do not belong on their PIDs. Times are those of the stream's own clock, and are known at its PCRs: a line comes with the PCR at which an error is known, and without PCRs nothing is missing. A gap that is too long has a line when it passes the limit, and one with its whole length when it ends. Where the clock has to guess more than a second, times begin anew. 1.1 and 1.2, the loss of sync, are those of -I file --resync; what needs a clock of the receiver, as jitter of arrival, is not seen. The last lines are the number of errors of each indicator, and of all. Every packet passes.",
        }
    }

    fn read(_alloc: Global, found: &ParsedOptions) -> Result<MonitorConf, Refusal> {
        monitor_settings(found)
    }

    fn table_file(&self) -> Option<&str> {
        None
    }

    fn uses_joint_termination(&self) -> bool {
        false
    }

    ghost simple = { refl };
}
