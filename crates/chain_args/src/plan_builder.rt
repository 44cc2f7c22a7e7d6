//! The parts of a plan while the segments of a command line are read.

ghost use Rattle.std.specs.Prelude.{◌≡◌, ◌∷◌, ◌++◌, [], List, MatchResult, None, codes, map, true};
ghost use Rattle.std.specs.String.{string_bytes};
ghost use Rattle.chain_args.specs.PlanBuilder.{RefusesBy, StandsFor, parts_plan, segment};
ghost use Rattle.chain_args.specs.Rules.{broken_rule};
ghost use Rattle.chain_args.specs.Segments.{Segment, is_segment_word};

use crate::general_conf::GeneralConf;
use crate::input_conf::InputConf;
use crate::input_words::InputKind;
use crate::output_conf::OutputConf;
use crate::output_words::OutputKind;
use crate::plan_type::Plan;
use crate::plugin_list::PluginList;
use packet_forms::Form;
use plugin_options::{Refusal, WordsRule};
use plugin_settings::{PluginItem, PluginKind};
use std::alloc::{AllocError, Global};
use ts_outside::NameText;

/// The maximum number of plugins of a chain.
const MOST_PLUGINS: usize = 62;

/// The input, the plugins and the output of the segments read so far.
#[derive(Drop)]
pub(crate) struct PlanBuilder {
    pub(crate) input: Option<InputConf>,
    pub(crate) plugins: Vec<PluginItem>,
    pub(crate) output: Option<OutputConf>,
}

impl PlanBuilder {
    /// No segment is read yet.
    pub(crate) fn new(alloc: Global) -> PlanBuilder
        ensures { StandsFor result [] }
    {
        PlanBuilder {
            input: None,
            plugins: Vec::new(alloc),
            output: None,
        }
    }

    /// Reads one more segment: its first word, and the words up to the next one.
    pub(crate) fn add(
        &mut self,
        alloc: Global,
        first: &str,
        others: &[String],
    ) -> Result<(), Refusal>
        requires { is_segment_word first.now ≡ true }
        ensures { (before : List Segment) → StandsFor self.old before → MatchResult result
            (λ _. (broken_rule before (segment first.now (map string_bytes others.now)) ≡ None)
            × StandsFor self.new (before ++ segment first.now (map string_bytes others.now) ∷ []))
            (RefusesBy (broken_rule before (segment first.now (map string_bytes others.now)))) }
    {
        match first {
            "-I" => self.add_input(alloc, others),
            "-P" => self.add_plugin(alloc, others),
            _ => self.add_output(alloc, others),
        }
    }

    fn add_input(&mut self, alloc: Global, others: &[String]) -> Result<(), Refusal>
        ensures { (before : List Segment) → StandsFor self.old before → MatchResult result
            (λ _. (broken_rule before (segment (codes "-I") (map string_bytes others.now)) ≡ None)
            × StandsFor self.new (before ++ segment (codes "-I") (map string_bytes others.now) ∷ []))
            (RefusesBy (broken_rule before (segment (codes "-I") (map string_bytes others.now)))) }
    {
        if self.input.is_some() {
            return Err(Refusal::Broken(WordsRule::Twice));
        }
        let Some((name, own)) = others.split_first() else {
            return Err(Refusal::Broken(WordsRule::NoName));
        };
        let Some(kind) = InputKind::of(name.as_str()) else {
            return Err(Refusal::Broken(WordsRule::UnknownPlugin));
        };
        self.input = Some(kind.read(alloc, own)?);
        Ok(())
    }

    fn add_plugin(&mut self, alloc: Global, others: &[String]) -> Result<(), Refusal>
        ensures { (before : List Segment) → StandsFor self.old before → MatchResult result
            (λ _. (broken_rule before (segment (codes "-P") (map string_bytes others.now)) ≡ None)
            × StandsFor self.new (before ++ segment (codes "-P") (map string_bytes others.now) ∷ []))
            (RefusesBy (broken_rule before (segment (codes "-P") (map string_bytes others.now)))) }
    {
        let Some((name, own)) = others.split_first() else {
            return Err(Refusal::Broken(WordsRule::NoName));
        };
        let Some(kind) = PluginKind::of(name.as_str()) else {
            return Err(Refusal::Broken(WordsRule::UnknownPlugin));
        };
        if self.plugins.len() >= MOST_PLUGINS {
            return Err(Refusal::Broken(WordsRule::TooMany));
        }
        let item = kind.read(alloc, own)?;
        self.plugins.push(item)?;
        Ok(())
    }

    fn add_output(&mut self, alloc: Global, others: &[String]) -> Result<(), Refusal>
        ensures { (before : List Segment) → StandsFor self.old before → MatchResult result
            (λ _. (broken_rule before (segment (codes "-O") (map string_bytes others.now)) ≡ None)
            × StandsFor self.new (before ++ segment (codes "-O") (map string_bytes others.now) ∷ []))
            (RefusesBy (broken_rule before (segment (codes "-O") (map string_bytes others.now)))) }
    {
        if self.output.is_some() {
            return Err(Refusal::Broken(WordsRule::Twice));
        }
        let Some((name, own)) = others.split_first() else {
            return Err(Refusal::Broken(WordsRule::NoName));
        };
        let Some(kind) = OutputKind::of(name.as_str()) else {
            return Err(Refusal::Broken(WordsRule::UnknownPlugin));
        };
        self.output = Some(kind.read(alloc, own)?);
        Ok(())
    }

    /// The plan, with the standard streams where no input or no output was named. It allocates nothing.
    pub(crate) fn into_plan(self, alloc: Global, general: GeneralConf) -> Plan
        ensures { result ≡ parts_plan general self }
    {
        let PlanBuilder {
            input,
            plugins,
            output,
        } = self;
        Plan {
            general,
            input: match input {
                Some(input) => input,
                None => InputConf::File {
                    name: NameText::of(String::new(alloc)),
                    form: Form::Ts,
                    resync: false,
                },
            },
            plugins: PluginList::of(plugins),
            output: match output {
                Some(output) => output,
                None => OutputConf::File(NameText::of(String::new(alloc))),
            },
        }
    }
}
