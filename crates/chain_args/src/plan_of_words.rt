//! The plan of the words of a command line.

ghost use Rattle.std.specs.Prelude.{◌≡◌, ◌+◌, ◌<◌, ◌^◌, [], IfErr, IfOk, MatchResult, None, Some, length, map};
ghost use Rattle.std.specs.String.{string_bytes};
ghost use Rattle.chain_args.specs.ValidPlan.{IsValidPlan};
ghost use Rattle.chain_args.specs.PlanBuilder.{RefusesBy, StandsFor};
ghost use Rattle.chain_args.specs.PlanOf.{plan_of};
ghost use Rattle.chain_args.specs.Rules.{first_fault};
ghost use Rattle.chain_args.specs.Segments.{general_words, segments};
ghost use Rattle.chain_args.specs.WordsFault.{FaultsBy, IsFirstFault};

use crate::general_words::read_general;
use crate::plan_builder::PlanBuilder;
use crate::plan_type::Plan;
use crate::segments::cut_at_segment;
use crate::words_fault::WordsFault;
use std::alloc::Global;

/// The plan of a command line, given as its words without the name of the program.
///
/// The general options come first. After them each `-I`, `-P` and `-O` begins a segment, with a name, options and
/// operands. Where a rule is broken, the fault has the first rule that the first faulty segment breaks, in the order
/// of `WordsRule`, and the number of the first word of this segment. `NoMemory` is returned where memory ran out
/// before that was known.
pub fn plan(alloc: Global, words: &[String]) -> Result<Plan, WordsFault>
    ensures plan { IfOk result (λ p. plan_of (map string_bytes words.now) ≡ Some p) }
    ensures fault { IfErr result (IsFirstFault (map string_bytes words.now)) }
    ensures valid { IfOk result IsValidPlan }
{
    let (own, rest) = cut_at_segment(words);
    let general = match read_general(alloc, own) {
        Ok(general) => general,
        Err(refusal) => return Err(WordsFault::at(0, refusal)),
    };
    let parts = read_segments(alloc, own.len(), rest)?;
    Ok(parts.into_plan(alloc, general))
}

/// Reads the segments of words that are empty or begin with one; the first word has the number `at`.
fn read_segments(alloc: Global, at: usize, words: &[String]) -> Result<PlanBuilder, WordsFault>
    requires begins { general_words (map string_bytes words.now) ≡ [] }
    requires fits { at + length words.now < 2 ^ 64 }
    ensures { MatchResult result
        (λ parts. (first_fault [] at (segments (map string_bytes words.now)) ≡ None)
        × StandsFor parts (segments (map string_bytes words.now)))
        (FaultsBy (first_fault [] at (segments (map string_bytes words.now)))) }
{
    let mut parts = PlanBuilder::new(alloc);
    let mut at = at;
    let mut rest = words;
    while let Some((first, after)) = rest.split_first() {
        let (others, next) = cut_at_segment(after);
        match parts.add(alloc, first.as_str(), others) {
            Ok(()) => {}
            Err(refusal) => return Err(WordsFault::at(at, refusal)),
        }
        at += 1 + others.len();
        rest = next;
    }
    Ok(parts)
}
