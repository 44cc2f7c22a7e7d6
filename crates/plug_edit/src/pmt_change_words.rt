//! What `pmt` changes of descriptors, from the values of its options.

ghost use Rattle.std.specs.Prelude.{◌≡◌, IfOk, MatchResult, codes, false, true};
ghost use Rattle.std.specs.List.{All};
ghost use Rattle.plugin_options.specs.Forms.{numbered, pairs, part, ranges};
ghost use Rattle.plugin_options.specs.Options.{are_well_formed, is_formed};
ghost use Rattle.plugin_options.specs.Refusal.{IsRefusedBy};
ghost use Rattle.plugin_options.specs.declared.part.Part.TheVariants.{Code, Descriptors};
ghost use Rattle.plugin_options.specs.declared.words_rule.WordsRule.TheVariants.{Value};
ghost use Rattle.plugin_options.specs.declared.limits.TheConstants.{LAST_PID};
ghost use Rattle.plug_edit.specs.CatSettings.{IsAddedCa};
ghost use Rattle.plug_edit.specs.EditWords.{numbered_found, pairs_found, slash};
ghost use Rattle.plug_edit.specs.PmtSettings.{AreValidChanges, IsPlaced, IsSpoken};
ghost use Rattle.plug_edit.specs.PmtWords.{change_rows, changes_found, pmt_rows};

use crate::cat_words::added_systems;
use crate::limits::LAST_TAG;
use crate::pmt_changes::PmtChanges;
use plugin_options::{LAST_PID, NumberedParts, ParsedOptions, Part, Refusal};
use std::alloc::Global;

// The languages of components.
fn languages(alloc: Global, found: &ParsedOptions) -> Result<NumberedParts, Refusal>
    ensures reads { MatchResult result
        (λ list. (is_formed (numbered slash (0, LAST_PID) Code) (codes "language") found.now ≡ true)
        × (list ≡ numbered_found (codes "language") LAST_PID Code found.now))
        (IsRefusedBy Value (is_formed (numbered slash (0, LAST_PID) Code) (codes "language") found.now ≡ false)) }
    ensures valid { IfOk result (All IsSpoken) }
{
    found.numbered_parts(alloc, "language", '/', (0, LAST_PID), Part::Code)
}

// The descriptors that components get.
fn placed_descriptors(alloc: Global, found: &ParsedOptions) -> Result<NumberedParts, Refusal>
    ensures reads { MatchResult result
        (λ list. (is_formed (numbered slash (0, LAST_PID) Descriptors) (codes "add-pid-descriptor") found.now ≡ true)
        × (list ≡ numbered_found (codes "add-pid-descriptor") LAST_PID Descriptors found.now))
        (IsRefusedBy Value (is_formed (numbered slash (0, LAST_PID) Descriptors) (codes "add-pid-descriptor") found.now ≡ false)) }
    ensures valid { IfOk result (All IsPlaced) }
{
    found.numbered_parts(
        alloc,
        "add-pid-descriptor",
        '/',
        (0, LAST_PID),
        Part::Descriptors,
    )
}

/// Reads what is changed of descriptors from what the command of `pmt` found in the words.
pub(crate) fn changes_of(alloc: Global, found: &ParsedOptions) -> Result<PmtChanges, Refusal>
    ensures reads { MatchResult result
        (λ changes. (are_well_formed change_rows found.now ≡ true) × (changes ≡ changes_found found.now))
        (IsRefusedBy Value (are_well_formed pmt_rows found.now ≡ false)) }
    ensures valid { IfOk result AreValidChanges }
{
    let remove_descriptor = found.ranges(alloc, "remove-descriptor", LAST_TAG)?;
    let remove_pid_descriptor = found.pair_list(
        alloc,
        "remove-pid-descriptor",
        '/',
        (0, LAST_PID),
        (0, LAST_TAG),
    )?;
    let language = languages(alloc, found)?;
    let add_ca = added_systems(alloc, found)?;
    let add_descriptor = found.part(alloc, "add-descriptor", Part::Descriptors)?;
    let add_pid_descriptor = placed_descriptors(alloc, found)?;
    Ok(PmtChanges {
        remove_descriptor,
        remove_pid_descriptor,
        language,
        add_ca,
        add_descriptor,
        add_pid_descriptor,
    })
}
