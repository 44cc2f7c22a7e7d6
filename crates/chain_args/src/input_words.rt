//! The inputs by name, with the readers of their words.

ghost use Rattle.std.specs.Prelude.{◌≡◌, IfOk, map, option_map};
ghost use Rattle.std.specs.String.{string_bytes};
ghost use Rattle.clap.specs.Simple.{app_of};
ghost use Rattle.chain_args.specs.Inputs.{file_input, input_kind_named, null_input, options_of_input, testgen_input};
ghost use Rattle.chain_args.specs.ValidPlan.{IsValidInput};
ghost use Rattle.plugin_options.specs.Options.{command_of};
ghost use Rattle.plugin_options.specs.OptionTable.{OptionTable};
ghost use Rattle.plugin_options.specs.OptionWords.{rows_of_options};
ghost use Rattle.plugin_options.specs.Refusal.{Reads, ReadsParsed};

use crate::form_words::read_format;
use crate::found_words::found_words;
use crate::input_conf::{InputConf, MOST_SEED};
use plugin_options::{
    Beside, MOST_PACKETS, Need, OptionRow, OptionText, OptionWord, ParsedOptions, Refusal,
    SegmentHelp, Takes, WordsRule,
};
use std::alloc::Global;

/// The kinds of inputs.
#[derive(Clone, Copy)]
pub(crate) enum InputKind {
    File,
    Null,
    TestGen,
}

impl InputKind {
    /// The input with this name; `None` where there is none.
    pub(crate) fn of(name: &str) -> Option<InputKind>
        ensures { result ≡ input_kind_named name.now }
    {
        match name {
            "file" => Some(InputKind::File),
            "null" => Some(InputKind::Null),
            "testgen" => Some(InputKind::TestGen),
            _ => None,
        }
    }

    /// Reads the words after the name.
    pub(crate) fn read(self, alloc: Global, words: &[String]) -> Result<InputConf, Refusal>
        ensures reads { Reads (options_of_input self) (map string_bytes words.now) result }
        ensures valid { IfOk result IsValidInput }
    {
        match self {
            InputKind::File => read_file(alloc, words),
            InputKind::Null => read_null(alloc, words),
            InputKind::TestGen => read_testgen(alloc, words),
        }
    }
}

// The operand and the options of `file`.
static FILE: [OptionRow; 3] = [
    OptionRow {
        word: OptionWord::Operand("name", Takes::Text),
        text: OptionText {
            value: "NAME",
            meaning: "the file; without a name, standard input (the default). F says how it keeps its packets: ts, alone (the default); m2ts, each after four other bytes, as a Blu-ray disc does; rs204, each before sixteen other bytes, as receivers with Reed-Solomon codes do; --resync: its packets are found again where it is damaged, and what is left out is reported",
            need: Need::Free,
            beside: Beside::Any,
        },
    },
    OptionRow {
        word: OptionWord::Value("format", Takes::Choice(&["ts", "m2ts", "rs204"])),
        text: OptionText {
            value: "F",
            meaning: "the file; without a name, standard input (the default). F says how it keeps its packets: ts, alone (the default); m2ts, each after four other bytes, as a Blu-ray disc does; rs204, each before sixteen other bytes, as receivers with Reed-Solomon codes do; --resync: its packets are found again where it is damaged, and what is left out is reported",
            need: Need::Free,
            beside: Beside::Any,
        },
    },
    OptionRow {
        word: OptionWord::Flag("resync"),
        text: OptionText {
            value: "",
            meaning: "the file; without a name, standard input (the default). F says how it keeps its packets: ts, alone (the default); m2ts, each after four other bytes, as a Blu-ray disc does; rs204, each before sixteen other bytes, as receivers with Reed-Solomon codes do; --resync: its packets are found again where it is damaged, and what is left out is reported",
            need: Need::Free,
            beside: Beside::Any,
        },
    },
];

fn read_file(alloc: Global, words: &[String]) -> Result<InputConf, Refusal>
    ensures reads { Reads file_input (map string_bytes words.now) result }
    ensures valid { IfOk result IsValidInput }
{
    let found = found_words(alloc, &FILE, words)?;
    file_settings(alloc, &found)
}

fn file_settings(alloc: Global, found: &ParsedOptions) -> Result<InputConf, Refusal>
    ensures reads { ReadsParsed file_input found.now result }
    ensures valid { IfOk result IsValidInput }
{
    let form = read_format(found)?;
    Ok(InputConf::File {
        name: found.text(alloc, "name")?,
        form,
        resync: found.has_flag("resync"),
    })
}

// The operand of `null`.
static NULL: [OptionRow; 1] = [OptionRow {
    word: OptionWord::Operand("count", Takes::Number(0, MOST_PACKETS)),
    text: OptionText {
        value: "N",
        meaning: "0 to 2^40: N null packets",
        need: Need::Required,
        beside: Beside::Any,
    },
}];

fn read_null(alloc: Global, words: &[String]) -> Result<InputConf, Refusal>
    ensures reads { Reads null_input (map string_bytes words.now) result }
    ensures valid { IfOk result IsValidInput }
{
    let found = found_words(alloc, &NULL, words)?;
    null_settings(&found)
}

fn null_settings(found: &ParsedOptions) -> Result<InputConf, Refusal>
    ensures reads { ReadsParsed null_input found.now result }
    ensures valid { IfOk result IsValidInput }
{
    if !found.has_value("count") {
        return Err(Refusal::Broken(WordsRule::Missing));
    }
    let count = found.number("count", 0, MOST_PACKETS)?;
    Ok(InputConf::Null(count.unwrap_or(0)))
}

// The operands of `testgen`.
static TESTGEN: [OptionRow; 2] = [
    OptionRow {
        word: OptionWord::Operand("seed", Takes::Number(0, MOST_SEED)),
        text: OptionText {
            value: "SEED",
            meaning: "SEED 0 to 2^64 - 1, N 0 to 2^40: the first N packets of the valid stream that is made from the number SEED: two services with their tables, PCRs, payloads and null packets",
            need: Need::Required,
            beside: Beside::Any,
        },
    },
    OptionRow {
        word: OptionWord::Operand("count", Takes::Number(0, MOST_PACKETS)),
        text: OptionText {
            value: "N",
            meaning: "SEED 0 to 2^64 - 1, N 0 to 2^40: the first N packets of the valid stream that is made from the number SEED: two services with their tables, PCRs, payloads and null packets",
            need: Need::Required,
            beside: Beside::Any,
        },
    },
];

fn read_testgen(alloc: Global, words: &[String]) -> Result<InputConf, Refusal>
    ensures reads { Reads testgen_input (map string_bytes words.now) result }
    ensures valid { IfOk result IsValidInput }
{
    let found = found_words(alloc, &TESTGEN, words)?;
    testgen_settings(&found)
}

fn testgen_settings(found: &ParsedOptions) -> Result<InputConf, Refusal>
    ensures reads { ReadsParsed testgen_input found.now result }
    ensures valid { IfOk result IsValidInput }
{
    if !found.has_value("seed") {
        return Err(Refusal::Broken(WordsRule::Missing));
    }
    if !found.has_value("count") {
        return Err(Refusal::Broken(WordsRule::Missing));
    }
    let seed = found.number("seed", 0, MOST_SEED)?;
    let count = found.number("count", 0, MOST_PACKETS)?;
    Ok(InputConf::TestGen {
        seed: seed.unwrap_or(0),
        packets: count.unwrap_or(0),
    })
}

fn file_help() -> SegmentHelp {
    SegmentHelp {
        first: "-I",
        name: "file",
        usage: "-I file [NAME] [--format F] [--resync]",
        rule: "the file; without a name, standard input (the default). F says how it keeps its packets: ts, alone (the default); m2ts, each after four other bytes, as a Blu-ray disc does; rs204, each before sixteen other bytes, as receivers with Reed-Solomon codes do; --resync: its packets are found again where it is damaged, and what is left out is reported",
        options: &FILE,
    }
}

fn null_help() -> SegmentHelp
    ensures { rows_of_options result.options.now ≡ null_input.rows }
{
    SegmentHelp {
        first: "-I",
        name: "null",
        usage: "-I null N",
        rule: "0 to 2^40: N null packets",
        options: &NULL,
    }
}

fn testgen_help() -> SegmentHelp
    ensures { rows_of_options result.options.now ≡ testgen_input.rows }
{
    SegmentHelp {
        first: "-I",
        name: "testgen",
        usage: "-I testgen SEED N",
        rule: "SEED 0 to 2^64 - 1, N 0 to 2^40: the first N packets of the valid stream that is made from the number SEED: two services with their tables, PCRs, payloads and null packets",
        options: &TESTGEN,
    }
}

/// What is said of the inputs.
pub fn input_helps() -> [SegmentHelp; 3] {
    [file_help(), null_help(), testgen_help()]
}
