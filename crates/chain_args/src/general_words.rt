//! The general options of `tsp`, read from words.

ghost use Rattle.std.specs.Prelude.{◌≡◌, IfOk, map};
ghost use Rattle.std.specs.String.{string_bytes};
ghost use Rattle.chain_args.specs.General.{general};
ghost use Rattle.chain_args.specs.ValidPlan.{IsValidGeneral};
ghost use Rattle.plugin_options.specs.OptionWords.{rows_of_options};
ghost use Rattle.plugin_options.specs.Refusal.{Reads, ReadsParsed};

use crate::found_words::found_words;
use crate::general_conf::GeneralConf;
use crate::threads_words::read_threads;
use plugin_options::{
    Beside, Need, OptionRow, OptionText, OptionWord, ParsedOptions, Refusal, SegmentHelp, Sign,
    Takes,
};
use std::alloc::Global;

/// The maximum number of packets of one stuffing, of the buffer, and of one turn of a stage.
const MOST_SIZE: u64 = 1_000_000;

/// The maximum number of null packets after each group of packets of the input.
const MOST_BETWEEN: u64 = 1_000;

// The general options by their names.
static GENERAL: [OptionRow; 12] = [
    OptionRow {
        word: OptionWord::Value("add-start-stuffing", Takes::Number(0, MOST_SIZE)),
        text: OptionText {
            value: "N",
            meaning: "0 to 1,000,000, default 0: put N null packets before the first packet of the input",
            need: Need::Free,
            beside: Beside::Any,
        },
    },
    OptionRow {
        word: OptionWord::Value("add-stop-stuffing", Takes::Number(0, MOST_SIZE)),
        text: OptionText {
            value: "N",
            meaning: "0 to 1,000,000, default 0: put N null packets after the last packet, where the input came to its plain end",
            need: Need::Free,
            beside: Beside::Any,
        },
    },
    OptionRow {
        word: OptionWord::Value(
            "add-input-stuffing",
            Takes::Pair(Sign::Slash, (0, MOST_BETWEEN), (1, MOST_SIZE)),
        ),
        text: OptionText {
            value: "N/M",
            meaning: "N 0 to 1,000, M 1 to 1,000,000, default 0/1: put N null packets after each M packets of the input",
            need: Need::Free,
            beside: Beside::Any,
        },
    },
    OptionRow {
        word: OptionWord::Value("buffer-packets", Takes::Number(1, MOST_SIZE)),
        text: OptionText {
            value: "N",
            meaning: "1 to 1,000,000, default 8,192, in one thread 1,024: the packets of the buffer that all plugins share: so far beyond the end of the run the input may be read",
            need: Need::Free,
            beside: Beside::Any,
        },
    },
    OptionRow {
        word: OptionWord::Value("max-flushed-packets", Takes::Number(1, MOST_SIZE)),
        text: OptionText {
            value: "N",
            meaning: "1 to 1,000,000, default 2,048, in one thread 1,024: the packets that a plugin or the output takes in one batch; where this or --max-input-packets alone is given, the other counts as 10,000",
            need: Need::Free,
            beside: Beside::Any,
        },
    },
    OptionRow {
        word: OptionWord::Value("max-input-packets", Takes::Number(1, MOST_SIZE)),
        text: OptionText {
            value: "N",
            meaning: "1 to 1,000,000, default 2,048, in one thread 1,024: the packets that the input takes in one batch",
            need: Need::Free,
            beside: Beside::Any,
        },
    },
    OptionRow {
        word: OptionWord::Flag("ignore-joint-termination"),
        text: OptionText {
            value: "",
            meaning: "no plugin ends the run jointly with others: until --joint-termination passes every packet",
            need: Need::Free,
            beside: Beside::Any,
        },
    },
    OptionRow {
        word: OptionWord::Flag("bare"),
        text: OptionText {
            value: "",
            meaning: "report lines go without the number and the name of their plugin, and the line for the end goes to standard error",
            need: Need::Free,
            beside: Beside::Any,
        },
    },
    OptionRow {
        word: OptionWord::Flag("endless"),
        text: OptionText {
            value: "",
            meaning: "the input is to have no end: where the run is done because it came to its plain end, the exit number is 9 in the place of 0",
            need: Need::Free,
            beside: Beside::Any,
        },
    },
    OptionRow {
        word: OptionWord::Flag("fail-on-faults"),
        text: OptionText {
            value: "",
            meaning: "where the run is done and a plugin reports a fault, or found nothing to edit, to insert or to keep, the exit number is 9 in the place of 0",
            need: Need::Free,
            beside: Beside::Any,
        },
    },
    OptionRow {
        word: OptionWord::Flag("live"),
        text: OptionText {
            value: "",
            meaning: "each line of the report is printed soon after its packet was written, in the order of packets, and the summaries after the end; all stages but the input then run in one thread",
            need: Need::Free,
            beside: Beside::Any,
        },
    },
    OptionRow {
        word: OptionWord::Value("threads", Takes::Choice(&["1", "auto"])),
        text: OptionText {
            value: "N",
            meaning: "1 or auto, default auto: 1 runs the whole chain in one thread; auto gives the input, each plugin and the output a thread of its own, where there are two processors or more",
            need: Need::Free,
            beside: Beside::Any,
        },
    },
];

fn general_settings(found: &ParsedOptions) -> Result<GeneralConf, Refusal>
    ensures reads { ReadsParsed general found.now result }
    ensures valid { IfOk result IsValidGeneral }
{
    let most = MOST_SIZE;
    let add_start_stuffing = found.number_or("add-start-stuffing", 0, most, 0)?;
    let add_stop_stuffing = found.number_or("add-stop-stuffing", 0, most, 0)?;
    let between = found.pair("add-input-stuffing", '/', (0, MOST_BETWEEN), (1, most))?;
    let buffer_packets = found.number("buffer-packets", 1, most)?;
    let max_flushed_packets = found.number("max-flushed-packets", 1, most)?;
    let max_input_packets = found.number("max-input-packets", 1, most)?;
    let threads = read_threads(found)?;
    let ignore_joint_termination = found.has_flag("ignore-joint-termination");
    let bare = found.has_flag("bare");
    let endless = found.has_flag("endless");
    let fail_on_faults = found.has_flag("fail-on-faults");
    let live = found.has_flag("live");
    Ok(GeneralConf {
        add_start_stuffing,
        add_stop_stuffing,
        add_input_stuffing: between.unwrap_or((0, 1)),
        buffer_packets,
        max_flushed_packets,
        max_input_packets,
        ignore_joint_termination,
        bare,
        endless,
        fail_on_faults,
        live,
        threads,
    })
}

/// Reads the general options: the words before the first segment.
pub(crate) fn read_general(alloc: Global, words: &[String]) -> Result<GeneralConf, Refusal>
    ensures reads { Reads general (map string_bytes words.now) result }
    ensures valid { IfOk result IsValidGeneral }
{
    let found = found_words(alloc, &GENERAL, words)?;
    general_settings(&found)
}

/// What is said of the general options.
pub fn general_help() -> SegmentHelp
    ensures { rows_of_options result.options.now ≡ general.rows }
{
    SegmentHelp {
        first: "the",
        name: "general options",
        usage: "[general options] [-I input] [-P plugin [options]]... [-O output]",
        rule: "The general options come before all others.",
        options: &GENERAL,
    }
}
