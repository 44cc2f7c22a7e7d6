//! The outputs by name, with the readers of their words.

ghost use Rattle.std.specs.Prelude.{◌≡◌, map};
ghost use Rattle.std.specs.String.{string_bytes};
ghost use Rattle.chain_args.specs.Outputs.{drop_output, file_output, output_kind_named, options_of_output};
ghost use Rattle.plugin_options.specs.OptionTable.{OptionTable};
ghost use Rattle.plugin_options.specs.OptionWords.{rows_of_options};
ghost use Rattle.plugin_options.specs.Refusal.{Reads};

use crate::found_words::found_words;
use crate::output_conf::OutputConf;
use plugin_options::{
    Beside, Need, OptionRow, OptionText, OptionWord, Refusal, SegmentHelp, Takes,
};
use std::alloc::Global;

/// The kinds of outputs.
#[derive(Clone, Copy)]
pub(crate) enum OutputKind {
    File,
    Drop,
}

impl OutputKind {
    /// The output with this name; `None` where there is none.
    pub(crate) fn of(name: &str) -> Option<OutputKind>
        ensures { result ≡ output_kind_named name.now }
    {
        match name {
            "file" => Some(OutputKind::File),
            "drop" => Some(OutputKind::Drop),
            _ => None,
        }
    }

    /// Reads the words after the name.
    pub(crate) fn read(self, alloc: Global, words: &[String]) -> Result<OutputConf, Refusal>
        ensures { Reads (options_of_output self) (map string_bytes words.now) result }
    {
        match self {
            OutputKind::File => read_file(alloc, words),
            OutputKind::Drop => read_drop(alloc, words),
        }
    }
}

// The operand of `file`.
static FILE: [OptionRow; 1] = [OptionRow {
    word: OptionWord::Operand("name", Takes::Text),
    text: OptionText {
        value: "NAME",
        meaning: "the file, which is emptied first, and is not opened where it is the input; without a name, standard output (the default)",
        need: Need::Free,
        beside: Beside::Any,
    },
}];

fn read_file(alloc: Global, words: &[String]) -> Result<OutputConf, Refusal>
    ensures { Reads file_output (map string_bytes words.now) result }
{
    let found = found_words(alloc, &FILE, words)?;
    Ok(OutputConf::File(found.text(alloc, "name")?))
}

fn read_drop(alloc: Global, words: &[String]) -> Result<OutputConf, Refusal>
    ensures { Reads drop_output (map string_bytes words.now) result }
{
    let _found = found_words(alloc, &[], words)?;
    Ok(OutputConf::Drop)
}

fn file_help() -> SegmentHelp
    ensures { rows_of_options result.options.now ≡ file_output.rows }
{
    SegmentHelp {
        first: "-O",
        name: "file",
        usage: "-O file [NAME]",
        rule: "the file, which is emptied first, and is not opened where it is the input; without a name, standard output (the default)",
        options: &FILE,
    }
}

fn drop_help() -> SegmentHelp {
    SegmentHelp {
        first: "-O",
        name: "drop",
        usage: "-O drop",
        rule: "nothing is written",
        options: &[],
    }
}

/// What is said of the outputs.
pub fn output_helps() -> [SegmentHelp; 2] {
    [file_help(), drop_help()]
}
