//! The trait of all plugins.
//!
//! `steps` has a body here, a loop over `meet` that is proved once for every plugin, and is compiled for each with its
//! own `step` in it: so the kind of the plugin, and whether it has labels, is asked once a window and not at each
//! packet. A plugin may write a `steps` of its own, and then owes the same clauses.
//!
//! Cells come as two rows, of packets and of their marks, so that packets can be read and written where they lie.
//! A step takes the packet and its labels, and not the cell: that a dropped cell stays dropped, and that `Drop` leaves
//! one, is written once in `meet`, and no plugin can get it wrong. A position whose packet was dropped before is met by
//! `pass_over`, which is empty in every plugin so far; no body in the trait could show that of every type.
//! `--only-label` passes over what it hides, so no dropped cell has to be made up for it.
//!
//! A plugin may be asked again after a stop, a refusal or a last packet: its rule is defined for every list of cells.
//! It runs out of memory only on a live cell, and stands for its old mark then.
//!
//! Lines are given out at a mark: those from the mark before it up to this one (`note`); the summary is asked for at a
//! mark without changing it. A plugin keeps no lines itself; its stage does, until the report. All lines up to a mark
//! are made before a note is taken off, so a plugin that had no memory for one of them stands for its old mark, with
//! the notes that it had, and has given out none. It may forget what it noted before the mark, so it is given no cut
//! below the last one.

use crate::driver::{after, note_agreement};
use crate::{Applied, Line, ListEnd, Outcome};
use cell_rows::Mark;
use std::alloc::AllocError;
use ts_packet::{Labels, Packet};

/// A plugin of the chain. It means a rule, a function of the whole history of the cells that it met.
///
/// A value of a plugin stands for the list of the cells that it met, and for the greatest mark that
/// it was given. It is a relation, since the value keeps less than the list: a call asks for one list
/// and mark that the value stands for, and what it promises holds for each.
pub trait Plugin {
    ghost use Rattle.std.specs.Prelude.{◌≡◌, ◌≢◌, ◌<◌, ◌+◌, ◌≤◌, ℕ, List, [], ◌++◌, Bool, true, false, Option, Some, IsOk, OnOk, IsSome, is_some, take, drop, length, slice_set, slice_index_or};
    ghost use Rattle.ts_packet.specs.declared.cell.Cell.{Cell};
    ghost use Rattle.ts_packet.specs.Cells.{Live, Dropped};
    ghost use Rattle.cell_rows.specs.Cells.{cells_of};
    ghost use Rattle.chain_model.specs.declared.positions.TheConstants.{POSITION_LIMIT};
    ghost use Rattle.chain_model.specs.Apply.{apply_after};
    ghost use Rattle.chain_model.specs.Joint.{agreement_of};
    ghost use Rattle.chain_model.specs.PluginRule.{PluginRule};
    ghost use Rattle.plugin_trait.specs.Driving.{Makes, made_so_far, TellsAgreement, HasRoomFor};
    ghost use Rattle.plugin_trait.specs.Steps.{MeetsCells, MeetsSome, Tells, Meets, HasRoom, left_of};
    ghost use Rattle.plugin_trait.specs.Marks.{AllowsMark, GivesLines};
    ghost use Rattle.plugin_trait.specs.PlacedLines.{placed_at};

    /// The rule that the plugin means. No call changes it.
    ghost rule: { Self → PluginRule };

    /// The value stands for these cells that it met, and for this greatest mark.
    ghost stands_for: { Self → List Cell → ℕ → Type 0 };

    /// Where it is a number, memory was taken before the run for notes on so many positions after
    /// the greatest mark. No call changes it.
    ghost preallocated: { Self → Option ℕ };

    /// It has nothing to report, and no report needs memory. No call changes it.
    ghost silent: { Self → Bool } = { λ _. false };

    /// Takes the packet at a position with its labels, and leaves in them what the plugin makes of them.
    ///
    /// The outcome is the rule's, or `NoMemory`. After `Stop`, `Refuse` and `NoMemory` the packet and its labels are as
    /// they were, and the plugin stands for what it stood for. After `Drop` nobody looks at them again.
    fn step(&mut self, at: u64, packet: &mut Packet, labels: &mut Labels) -> Outcome
        requires met { MeetsCells (stands_for self.old) at }
        requires in_range { at < POSITION_LIMIT }
        ensures tells { Tells (rule self.old) (stands_for self.old) at (Live packet.old labels.old) result
            (left_of result packet.new labels.new) }
        ensures meets { Meets (stands_for self.old) (stands_for self.new) at (Live packet.old labels.old) result }
        ensures same_rule { rule self.new ≡ rule self.old }
        ensures same_preallocated { preallocated self.new ≡ preallocated self.old }
        ensures same_silent { silent self.new ≡ silent self.old }
        ensures room { HasRoom (preallocated self.old) (stands_for self.old) at → result ≢ Outcome.NoMemory };

    /// Meets a position whose packet was dropped before.
    fn pass_over(&mut self, at: u64)
        requires met { MeetsCells (stands_for self.old) at }
        requires in_range { at < POSITION_LIMIT }
        ensures meets { Meets (stands_for self.old) (stands_for self.new) at Dropped Outcome.Pass }
        ensures same_rule { rule self.new ≡ rule self.old }
        ensures same_preallocated { preallocated self.new ≡ preallocated self.old }
        ensures same_silent { silent self.new ≡ silent self.old };

    /// Takes the cell in a slot, which has a position, and leaves in it what the plugin makes of it: by a step where it has
    /// a packet.
    // Inlined always: otherwise the loop of `steps` has a call for each cell.
    #[inline(always)]
    fn meet(&mut self, at: u64, packets: &mut [Packet], marks: &mut [Mark], slot: usize) -> Outcome
        requires met { MeetsCells (stands_for self.old) at }
        requires in_range { at < POSITION_LIMIT }
        requires within { slot < length packets.old }
        requires long { length marks.old ≡ length packets.old }
        ensures cells { cells_of packets.new marks.new ≡ slice_set (cells_of packets.old marks.old) slot
            (slice_index_or (cells_of packets.new marks.new) slot Dropped) }
        ensures tells { Tells (rule self.old) (stands_for self.old) at
            (slice_index_or (cells_of packets.old marks.old) slot Dropped) result
            (slice_index_or (cells_of packets.new marks.new) slot Dropped) }
        ensures meets { Meets (stands_for self.old) (stands_for self.new) at
            (slice_index_or (cells_of packets.old marks.old) slot Dropped) result }
        ensures same_rule { rule self.new ≡ rule self.old }
        ensures same_preallocated { preallocated self.new ≡ preallocated self.old }
        ensures same_silent { silent self.new ≡ silent self.old }
        ensures room { HasRoom (preallocated self.old) (stands_for self.old) at → result ≢ Outcome.NoMemory }
    {
        let mut mark = marks[slot];
        if mark.is_live {
            let outcome = self.step(at, &mut packets[slot], &mut mark.labels);
            marks[slot] = after(mark, outcome);
            return outcome;
        }
        self.pass_over(at);
        Outcome::Pass
    }

    /// Takes the cells from a position on, in place, until the plugin ends its list.
    ///
    /// The cells after the plugin's own list are as they were. `noted` says whether the plugin agreed before; where it
    /// did not, its agreement is returned and noted. It runs out of memory only where the plugin made no room for the
    /// notes on all these cells.
    fn steps(
        &mut self,
        at: u64,
        packets: &mut [Packet],
        marks: &mut [Mark],
        noted: &mut bool,
    ) -> Applied
        requires met { MeetsCells (stands_for self.old) at }
        requires in_range { at + length packets.old ≤ POSITION_LIMIT }
        requires long { length marks.old ≡ length packets.old }
        ensures count { result.count ≤ length packets.old }
        ensures rest { drop result.count (cells_of packets.new marks.new)
            ≡ drop result.count (cells_of packets.old marks.old) }
        ensures makes { (history : List Cell) (mark : ℕ) → stands_for self.old history mark
            → length history ≡ at
            → Makes (apply_after (rule self.old) history (cells_of packets.old marks.old))
            (take result.count (cells_of packets.new marks.new)) result.end }
        ensures far { (history : List Cell) (mark : ℕ) → stands_for self.old history mark
            → length history ≡ at
            → apply_after (rule self.old) history (take result.count (cells_of packets.old marks.old))
            ≡ made_so_far (take result.count (cells_of packets.new marks.new)) result.end }
        ensures met { (history : List Cell) (mark : ℕ) → stands_for self.old history mark
            → length history ≡ at
            → stands_for self.new (history ++ take result.count (cells_of packets.old marks.old)) mark }
        ensures agreed { (history : List Cell) (mark : ℕ) → stands_for self.old history mark
            → length history ≡ at
            → noted.old ≡ is_some (agreement_of (rule self.old) history)
            → TellsAgreement (rule self.old) (history ++ take result.count (cells_of packets.old marks.old))
            at result.agreed noted.new }
        ensures same_rule { rule self.new ≡ rule self.old }
        ensures same_preallocated { preallocated self.new ≡ preallocated self.old }
        ensures same_silent { silent self.new ≡ silent self.old }
        ensures room { HasRoomFor (preallocated self.old) (stands_for self.old) at (length packets.old)
            → result.end ≢ ListEnd.NoMemory }
    {
        let mut agreed = None;
        for i in 0..packets.len() {
            match self.meet(at + i as u64, packets, marks, i) {
                Outcome::Pass | Outcome::Drop => {
                    let agrees = self.agreed();
                    agreed = agreed.or(note_agreement(agrees, noted, at + i as u64 + 1));
                }
                Outcome::Last => {
                    let agrees = self.agreed();
                    agreed = agreed.or(note_agreement(agrees, noted, at + i as u64 + 1));
                    return Applied {
                        count: i + 1,
                        agreed,
                        end: ListEnd::Last,
                    };
                }
                // Each by itself: where the arms join, the proof loses the cells before.
                Outcome::Stop => {
                    return Applied {
                        count: i,
                        agreed,
                        end: ListEnd::Stop,
                    };
                }
                Outcome::Refuse(reason) => {
                    return Applied {
                        count: i,
                        agreed,
                        end: ListEnd::Refuse(reason),
                    };
                }
                Outcome::NoMemory => {
                    return Applied {
                        count: i,
                        agreed,
                        end: ListEnd::NoMemory,
                    };
                }
            }
        }
        Applied {
            count: packets.len(),
            agreed,
            end: ListEnd::Through,
        }
    }

    /// Receives a mark: the positions below it are written. Appends the lines from the mark before it up to this one, and
    /// may fold the notes below it. No mark is less than the one before it, and none exceeds the number of cells that
    /// were met.
    fn note(&mut self, written: u64, lines: &mut Vec<Line>) -> Result<(), AllocError>
        requires { AllowsMark (stands_for self.old) written }
        ensures gives { GivesLines (rule self.old) (stands_for self.old) (stands_for self.new) written
            lines.old.items lines.new.items result }
        ensures same_rule { rule self.new ≡ rule self.old }
        ensures same_preallocated { preallocated self.new ≡ preallocated self.old }
        ensures same_silent { silent self.new ≡ silent self.old }
        ensures room { IsSome (preallocated self.old) → IsOk result }
        ensures silent { silent self.old ≡ true → IsOk result };

    /// Whether the plugin uses joint termination and agrees to end after the cells that it met.
    fn agreed(&self) -> bool
        requires { MeetsSome (stands_for self.now) }
        ensures { (history : List Cell) (mark : ℕ) → stands_for self.now history mark
            → result ≡ (rule self.now).agrees history };

    /// Appends the summary over the positions below the mark, as lines at a position.
    fn summary(&self, at: u64, lines: &mut Vec<Line>) -> Result<(), AllocError>
        requires { MeetsSome (stands_for self.now) }
        ensures said { (history : List Cell) (mark : ℕ) → stands_for self.now history mark
            → OnOk result (lines.new.items
            ≡ lines.old.items ++ placed_at at ((rule self.now).summary_of (take mark history))) }
        ensures silent { silent self.now ≡ true → IsOk result };

    /// Whether a run that is cut at the greatest mark, which is `cut`, has a fault: one that the plugin reports, or that
    /// it found nothing to do.
    fn has_fault(&self, cut: u64) -> bool
        requires { MeetsSome (stands_for self.now) }
        ensures { (history : List Cell) → stands_for self.now history cut
            → result ≡ (rule self.now).has_fault (take cut history) };

    /// No plugin agrees before it met a cell.
    ghost starts_open: { (plugin : Self) (history : List Cell) (mark : ℕ) → stands_for plugin history mark
        → (rule plugin).agrees [] ≡ false };
}
