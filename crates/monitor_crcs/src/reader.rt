//! Parts of one PID come in, and the table_ids of pieces of their stretches with a wrong CRC go out.

ghost use Rattle.std.specs.Prelude.{◌≡◌, ℕ, ◌<◌, ◌≤◌, ◌++◌, ◌∷◌, List, [], true, false, length, take, drop, Option, Some, None, OnOk, IfSome, IfNone, slice_index};
ghost use Rattle.std.specs.Option.{ForSome};
ghost use Rattle.ts_demux.specs.Counters as counters;
ghost use Rattle.ts_demux.specs.Part as parts;

use crate::pieces::cut_off;
use std::alloc::{AllocError, Global};
use std::collections::VecDeque;

/// What is kept of the parts so far: the last counter, and the unfinished bytes of a stretch that is
/// still open. An open stretch may have no byte yet.
#[derive(Drop)]
pub(crate) struct PieceReader {
    last: Option<u8>,
    is_open: bool,
    unfinished: Vec<u8>,
}

impl PieceReader {
    ghost use Rattle.ts_demux.specs.Part.{Part};
    ghost use Rattle.monitor_crcs.specs.WrongCrcs.{told_in};
    ghost use Rattle.monitor_crcs.specs.Reader.{HoldsLittle, IsAtRest, EndsAtJump, Takes, told_with, remembered_by};

    /// A reader that was given no part.
    pub(crate) fn new(alloc: Global) -> PieceReader
        ensures rest { IsAtRest result }
        ensures fresh { remembered_by result ≡ None }
    {
        PieceReader {
            last: None,
            is_open: false,
            unfinished: Vec::new(alloc),
        }
    }

    /// Forgets everything.
    pub(crate) fn reset(&mut self)
        ensures rest { IsAtRest self.new }
    {
        self.last = None;
        self.close();
    }

    /// Processes the next part; the table_ids of the pieces with a wrong CRC that it completes wait then.
    pub(crate) fn take_part(
        &mut self,
        counter: u8,
        unit_start: bool,
        payload: &[u8],
        waiting: &mut VecDeque<u8>,
    ) -> Result<(), AllocError>
        requires counter { counter < 16 }
        requires rest { IsAtRest self.old }
        ensures rest { OnOk result (IsAtRest self.new) }
        ensures told { OnOk result (Takes self.old self.new
            (record { counter = counter; unit_start = unit_start; payload = payload.now })
            waiting.old.items waiting.new.items) }
    {
        if repeats(self.last, counter) {
            return Ok(());
        }
        self.end_at_jump(counter);
        if !unit_start {
            self.go_on(payload, waiting)?;
            return Ok(());
        }
        let Some((before, after)) = split_at_pointer_field(payload) else {
            self.close();
            return Ok(());
        };
        self.go_on(before, waiting)?;
        self.begin(after, waiting)?;
        Ok(())
    }

    // Notes the counter, and gives up the stretch where it is not the one after the last.
    fn end_at_jump(&mut self, counter: u8)
        requires rest { IsAtRest self.old }
        ensures { EndsAtJump self.old self.new counter }
    {
        if !goes_on_after(self.last, counter) {
            self.close();
        }
        self.last = Some(counter);
    }

    // Gives up what is unfinished.
    fn close(&mut self)
        ensures last { self.new.last ≡ self.old.last }
        ensures closed { self.new.is_open ≡ false }
        ensures empty { self.new.unfinished.items ≡ [] }
    {
        self.is_open = false;
        self.unfinished.clear();
    }

    // A new stretch with these first bytes; what is told of its whole pieces waits then.
    fn begin(&mut self, bytes: &[u8], waiting: &mut VecDeque<u8>) -> Result<(), AllocError>
        ensures last { OnOk result (self.new.last ≡ self.old.last) }
        ensures little { OnOk result (HoldsLittle self.new) }
        ensures told { OnOk result ((more : List ℕ) →
            waiting.old.items ++ told_in (bytes.now ++ more) ≡ waiting.new.items ++ told_with self.new more) }
        ensures grows { OnOk result (length waiting.old.items ≤ length waiting.new.items) }
    {
        self.unfinished.clear();
        self.is_open = true;
        self.go_on(bytes, waiting)
    }

    // More bytes of the stretch, if one is open; what is told of its whole pieces waits then.
    fn go_on(&mut self, bytes: &[u8], waiting: &mut VecDeque<u8>) -> Result<(), AllocError>
        requires closed { self.old.is_open ≡ false → self.old.unfinished.items ≡ [] }
        ensures last { OnOk result (self.new.last ≡ self.old.last) }
        ensures little { OnOk result (HoldsLittle self.new) }
        ensures told { OnOk result ((more : List ℕ) →
            waiting.old.items ++ told_with self.old (bytes.now ++ more) ≡ waiting.new.items ++ told_with self.new more) }
        ensures grows { OnOk result (length waiting.old.items ≤ length waiting.new.items) }
    {
        if !self.is_open {
            return Ok(());
        }
        self.unfinished.extend_from_slice(bytes)?;
        if cut_off(&mut self.unfinished, waiting)? {
            self.close();
        }
        Ok(())
    }
}

// Whether the counter is that of the part before, if there is one.
fn repeats(last: Option<u8>, counter: u8) -> bool
    ensures { result ≡ parts.repeats last counter }
{
    match last {
        Some(last) => last == counter,
        None => false,
    }
}

// Whether the counter is the one after the last, if there is a last one.
fn goes_on_after(last: Option<u8>, counter: u8) -> bool
    requires { ForSome last (λ last. last < 16) }
    ensures { result ≡ counters.goes_on_after last counter }
{
    match last {
        Some(last) => counter == (last + 1) % 16,
        None => false,
    }
}

// The bytes of a payload with unit start before and after the place that its pointer names; none for an invalid pointer.
fn split_at_pointer_field(payload: &[u8]) -> Option<(&[u8], &[u8])>
    ensures invalid { IfNone result (length payload.now ≤ slice_index payload.now 0) }
    ensures valid { IfSome result (λ _. slice_index payload.now 0 < length payload.now) }
    ensures before { IfSome result (λ around. around.0.now ≡ take (slice_index payload.now 0) (drop 1 payload.now)) }
    ensures after { IfSome result (λ around. around.1.now ≡ drop (slice_index payload.now 0) (drop 1 payload.now)) }
{
    let (pointer, body) = payload.split_first()?;
    let pointer = usize::from(*pointer);
    if pointer <= body.len() {
        Some(body.split_at(pointer))
    } else {
        None
    }
}
