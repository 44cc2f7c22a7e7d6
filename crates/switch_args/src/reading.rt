//! The words read so far, and the next one.
ghost use Rattle.std.specs.Prelude.{◌≡◌, ◌≤◌, true, false, IfOk, Some, None};
ghost use Rattle.std.specs.String.{string_bytes};
ghost use Rattle.switch_args.specs.SwitchWords.{step, is_name};
ghost use Rattle.switch_args.specs.Readings.{Went, given_of, expected_of, output_of};

use crate::settings::{SwitchOutput, SwitchSettings};
use crate::words::WordsFault;
use plugin_options::read_number_within;
use std::alloc::{AllocError, Global};
use ts_outside::NameText;

/// What may follow at a place.
#[derive(Debug, Clone, Copy, PartialEq, Eq)]
pub(crate) enum Expected {
    OptionOrInput,
    Cycle,
    Buffer,
    InputKind,
    InputName,
    InputOrOutput,
    OutputKind,
    OutputName,
    Nothing,
}

/// What the words before a place gave, and what may follow there.
#[derive(Drop)]
pub(crate) struct Reading {
    pub(crate) cycle: Option<u64>,
    pub(crate) buffer: Option<u64>,
    pub(crate) resync: bool,
    pub(crate) inputs: Vec<NameText>,
    pub(crate) output: SwitchOutput,
    pub(crate) expected: Expected,
}

/// Whether a word may be a name: it is not empty and does not begin with `-`.
fn is_name(word: &str) -> bool
    ensures { result ≡ is_name word.now }
{
    !word.is_empty() && !word.starts_with('-')
}

impl Reading {
    ghost use Rattle.std.specs.Prelude.{◌≡◌, IfOk};
    ghost use Rattle.switch_args.specs.Readings.{Went, given_of, given_of_settings, expected_of, EndsAt};
    ghost use Rattle.switch_args.specs.SwitchWords.{place, start};

    /// The state before the first word.
    pub(crate) fn new(alloc: Global) -> Reading
        ensures { place (given_of result) (expected_of result.expected) ≡ start }
    {
        Reading {
            cycle: None,
            buffer: None,
            resync: false,
            inputs: Vec::new(alloc),
            output: SwitchOutput::File(NameText::of(String::new(alloc))),
            expected: Expected::OptionOrInput,
        }
    }

    /// The result at the end of the words; `at` is their number.
    pub(crate) fn end(self, at: usize) -> Result<SwitchSettings, WordsFault>
        ensures { EndsAt self at result }
    {
        match self.expected {
            Expected::InputOrOutput => Ok(self.into_settings()),
            Expected::Nothing => Ok(self.into_settings()),
            Expected::OptionOrInput => Err(WordsFault::At { word: at }),
            Expected::Cycle => Err(WordsFault::At { word: at }),
            Expected::Buffer => Err(WordsFault::At { word: at }),
            Expected::InputKind => Err(WordsFault::At { word: at }),
            Expected::InputName => Err(WordsFault::At { word: at }),
            Expected::OutputKind => Err(WordsFault::At { word: at }),
            Expected::OutputName => Err(WordsFault::At { word: at }),
        }
    }

    /// The settings that were read.
    fn into_settings(self) -> SwitchSettings
        ensures { given_of_settings result ≡ given_of self }
    {
        let Reading {
            cycle,
            buffer,
            resync,
            inputs,
            output,
            expected: _,
        } = self;
        SwitchSettings {
            cycle,
            buffer,
            resync,
            inputs,
            output,
        }
    }

    /// Reads the next word, and returns whether it may stand here.
    pub(crate) fn take(&mut self, alloc: Global, word: &str) -> Result<bool, AllocError>
        ensures { IfOk result (λ went. Went self.old word.now went self.new) }
    {
        match self.expected {
            Expected::OptionOrInput => Ok(self.take_option(word)),
            Expected::Cycle => Ok(self.take_cycle(word)),
            Expected::Buffer => Ok(self.take_buffer(word)),
            Expected::InputKind => Ok(self.take_kind(word)),
            Expected::InputName => self.take_input(alloc, word),
            Expected::InputOrOutput => Ok(self.take_next(word)),
            Expected::OutputKind => Ok(self.take_output(word)),
            Expected::OutputName => self.take_output_name(alloc, word),
            Expected::Nothing => Ok(false),
        }
    }

    /// The name of an option, or the `-I` of the first input.
    fn take_option(&mut self, word: &str) -> bool
        requires { self.old.expected ≡ Expected.OptionOrInput }
        ensures { Went self.old word.now result self.new }
    {
        if word == "--cycle" && self.cycle.is_none() {
            self.expected = Expected::Cycle;
            return true;
        }
        if word == "--buffer-packets" && self.buffer.is_none() {
            self.expected = Expected::Buffer;
            return true;
        }
        if word == "--resync" && !self.resync {
            self.resync = true;
            return true;
        }
        if word == "-I" {
            self.expected = Expected::InputKind;
            return true;
        }
        false
    }

    /// The number of `--cycle`, 1 to 1,000.
    fn take_cycle(&mut self, word: &str) -> bool
        requires { self.old.expected ≡ Expected.Cycle }
        ensures { Went self.old word.now result self.new }
    {
        match read_number_within(word, 1, 1000) {
            Some(cycle) => {
                self.cycle = Some(cycle);
                self.expected = Expected::OptionOrInput;
                true
            }
            None => false,
        }
    }

    /// The number of `--buffer-packets`, 1 to 1,000,000.
    fn take_buffer(&mut self, word: &str) -> bool
        requires { self.old.expected ≡ Expected.Buffer }
        ensures { Went self.old word.now result self.new }
    {
        match read_number_within(word, 1, 1_000_000) {
            Some(buffer) => {
                self.buffer = Some(buffer);
                self.expected = Expected::OptionOrInput;
                true
            }
            None => false,
        }
    }

    /// The kind of an input.
    fn take_kind(&mut self, word: &str) -> bool
        requires { self.old.expected ≡ Expected.InputKind }
        ensures { Went self.old word.now result self.new }
    {
        if word == "file" {
            self.expected = Expected::InputName;
            return true;
        }
        false
    }

    /// An input's name.
    fn take_input(&mut self, alloc: Global, word: &str) -> Result<bool, AllocError>
        requires { self.old.expected ≡ Expected.InputName }
        ensures { IfOk result (λ went. Went self.old word.now went self.new) }
    {
        if !is_name(word) {
            return Ok(false);
        }
        self.inputs
            .push(NameText::of(String::from_str(alloc, word)?))?;
        self.expected = Expected::InputOrOutput;
        Ok(true)
    }

    /// The `-I` of another input, or the `-O` of the output.
    fn take_next(&mut self, word: &str) -> bool
        requires { self.old.expected ≡ Expected.InputOrOutput }
        ensures { Went self.old word.now result self.new }
    {
        if word == "-I" && self.inputs.len() < 32 {
            self.expected = Expected::InputKind;
            return true;
        }
        if word == "-O" {
            self.expected = Expected::OutputKind;
            return true;
        }
        false
    }

    /// The kind of the output.
    fn take_output(&mut self, word: &str) -> bool
        requires { self.old.expected ≡ Expected.OutputKind }
        ensures { Went self.old word.now result self.new }
    {
        if word == "file" {
            self.expected = Expected::OutputName;
            return true;
        }
        if word == "drop" {
            self.output = SwitchOutput::Drop;
            self.expected = Expected::Nothing;
            return true;
        }
        false
    }

    /// The output's name.
    fn take_output_name(&mut self, alloc: Global, word: &str) -> Result<bool, AllocError>
        requires { self.old.expected ≡ Expected.OutputName }
        ensures { IfOk result (λ went. Went self.old word.now went self.new) }
    {
        if !is_name(word) {
            return Ok(false);
        }
        self.output = SwitchOutput::File(NameText::of(String::from_str(alloc, word)?));
        self.expected = Expected::Nothing;
        Ok(true)
    }
}
