//! Bytes in hand, and the packets that are found among them.
ghost use Rattle.std.specs.Prelude.{◌≡◌, ◌+◌, ◌<◌, ◌≤◌, vec_len};
ghost use Rattle.packet_search.specs.Rule.{deciding_bytes};

use crate::gap::{Gap, noted_with};
use crate::gap_counts::sum_with;
use packet_forms::Form;
use packet_search::{find, units_in_row};
use ts_outside::{Failed, Source, one_more};

/// The size of a packet.
pub(crate) const PACKET_SIZE: usize = 188;

/// How many units behind a packet are whole where it begins a row of five.
const BEHIND: usize = 4;

/// Bytes in hand, and the packets that are found among them. It has a room of a fixed size, and allocates nothing.
///
/// A packet is begun once six units of bytes behind its first one are in hand, or no more follow, and is then given in
/// as many pieces as the caller likes.
#[derive(Drop)]
pub struct Finder {
    pub(crate) room: Vec<u8>,
    pub(crate) form: Form,
    /// Where in the room the bytes in hand begin.
    pub(crate) from: usize,
    /// How many they are.
    pub(crate) have: usize,
    /// How many of them are the rest of a packet that is begun, to be given.
    pub(crate) due: usize,
    /// How many after these belong to its unit.
    pub(crate) tail: usize,
    /// Whether a unit ends right before the bytes after those.
    pub(crate) near: bool,
    /// How many bytes were left out since the last packet; it saturates.
    pub(crate) left: u64,
    /// How many packets were begun, the number of the next one; it saturates.
    pub(crate) number: u64,
    /// The gap that was noted last.
    pub(crate) noted: Option<Gap>,
    ghost size: { deciding_bytes form ≤ vec_len room },
    ghost within: { from + have ≤ vec_len room },
    ghost due_fits: { due + tail ≤ have },
}

impl Finder {
    ghost use Rattle.std.specs.Prelude.{ℕ, ◌*◌, List, Bool, [], ◌++◌, length, take, drop, true, false, None, MatchResult, option_to_list};
    ghost use Rattle.packet_search.specs.Rule.{gives};
    ghost use Rattle.packet_search.specs.Settled.{IsEnough};
    ghost use Rattle.search_source.specs.Coming.{hand_of, coming, ungiven, deciding, BeginsRow, IsPlain, Gives};
    ghost use Rattle.search_source.specs.SearchView.{SameBut, TakesIn, FailsToTake};

    /// Nothing in hand, before the first byte of a file, in a room for six units of bytes at least.
    pub(crate) fn new(room: Vec<u8>, form: Form) -> Finder
        requires { deciding_bytes form ≤ vec_len room }
        ensures parts { (result.form ≡ form) × (result.due ≡ 0) × (result.tail ≡ 0) × (result.near ≡ true) }
        ensures counts { (result.left ≡ 0) × (result.number ≡ 0) × (result.noted ≡ None) }
        ensures hand { hand_of result ≡ [] }
    {
        Finder {
            room,
            form,
            from: 0,
            have: 0,
            due: 0,
            tail: 0,
            near: true,
            left: 0,
            number: 0,
            noted: None,
        }
    }

    // Leaves out so many bytes at the front.
    fn leave_out(&mut self, count: usize)
        requires none { self.old.due + self.old.tail ≡ 0 }
        requires fits { count ≤ self.old.have }
        ensures hand { hand_of self.new ≡ drop count (hand_of self.old) }
        ensures have { self.new.have + count ≡ self.old.have }
        ensures same { SameBut self.old self.new }
    {
        self.from += count;
        self.have -= count;
    }

    // Leaves out what is behind the last packet in its unit.
    fn leave_tail(&mut self)
        requires { self.old.due ≡ 0 }
        ensures gives { (more : List ℕ) → coming self.old more ≡ coming self.new more }
        ensures none { (self.new.due ≡ 0) × (self.new.tail ≡ 0) }
        ensures same { (self.new.form ≡ self.old.form) × (self.new.noted ≡ self.old.noted) }
    {
        let tail = self.tail;
        self.tail = 0;
        self.leave_out(tail);
    }

    // Leaves bytes out until a packet is at the front, or fewer than `enough` are in hand.
    fn seek(&mut self, enough: usize) -> bool
        requires none { (self.old.due ≡ 0) × (self.old.tail ≡ 0) }
        requires some { 0 < enough }
        ensures gives { (more : List ℕ) → IsEnough self.old.form enough more → coming self.old more ≡ coming self.new more }
        ensures found { result ≡ true → (gives self.new.form self.new.near (hand_of self.new) ≡ true) × (enough ≤ self.new.have) }
        ensures few { result ≡ false → self.new.have < enough }
        ensures none { (self.new.due ≡ 0) × (self.new.tail ≡ 0) }
        ensures same { (self.new.form ≡ self.old.form) × (self.new.noted ≡ self.old.noted) }
    {
        let end = self.from + self.have;
        let place = find(self.form, self.near, &self.room[self.from..end], enough);
        self.leave_out(place.left_out);
        self.near = place.near;
        self.left = sum_with(self.left, place.left_out);
        place.packet
    }

    // Begins the packet at the front, and notes the gap before it.
    fn take_unit(&mut self)
        requires none { (self.old.due ≡ 0) × (self.old.tail ≡ 0) }
        requires packet { gives self.old.form self.old.near (hand_of self.old) ≡ true }
        requires noted { 0 < self.old.left → self.old.noted ≡ None }
        ensures gives { (more : List ℕ) → IsEnough self.old.form self.old.have more → coming self.old more ≡ coming self.new more }
        ensures due { self.new.due ≡ 188 }
        ensures same { self.new.form ≡ self.old.form }
    {
        let lead = self.form.lead();
        let size = self.form.unit().min(self.have);
        self.noted = noted_with(self.noted, self.number, self.left);
        self.number = one_more(self.number);
        self.left = 0;
        self.from += lead;
        self.have -= lead;
        self.due = 188;
        self.tail = size - lead - 188;
        self.near = true;
    }

    // How many bytes decide what is found.
    fn deciding(&self, ended: bool) -> usize
        ensures { result ≡ deciding self.now.form ended }
    {
        if ended { 1 } else { 6 * self.form.unit() }
    }

    // Whether the packet at the front may be begun: there is no gap before it, or one may be noted.
    fn may_begin(&self, may_note: bool) -> bool
        ensures gap { result ≡ true → 0 < self.now.left → may_note ≡ true }
        ensures noted { result ≡ false → may_note ≡ false }
    {
        if may_note {
            return true;
        }
        self.left == 0
    }

    /// Begins the next packet, unless one is begun, and returns whether one is. It does not where the bytes in hand do
    /// not decide where it is, nor where there is a gap before it that may not be noted; `ended`: no more bytes follow.
    pub(crate) fn begin(&mut self, ended: bool, may_note: bool) -> bool
        requires { may_note ≡ true → self.old.noted ≡ None }
        ensures gives { (more : List ℕ) → (ended ≡ true → more ≡ []) → coming self.old more ≡ coming self.new more }
        ensures begun { result ≡ true → 0 < self.new.due }
        ensures few { result ≡ false → may_note ≡ true → (self.new.due ≡ 0) × (self.new.have < deciding self.new.form ended) }
        ensures noted { result ≡ false → self.new.noted ≡ self.old.noted }
        ensures same { self.new.form ≡ self.old.form }
    {
        if self.due > 0 {
            return true;
        }
        self.leave_tail();
        let enough = self.deciding(ended);
        if !self.seek(enough) {
            return false;
        }
        if !self.may_begin(may_note) {
            return false;
        }
        self.take_unit();
        true
    }

    /// Gives the next bytes of the packet that is begun.
    pub(crate) fn give(&mut self, into: &mut [u8]) -> usize
        ensures within { result ≤ length into.new }
        ensures given { (more : List ℕ) → coming self.old more ≡ ungiven (take result into.new) [] (coming self.new more) }
        ensures some { 0 < self.old.due → 0 < length into.new → 0 < result }
        ensures same { self.new.form ≡ self.old.form }
    {
        let count = self.due.min(into.len());
        let end = self.from + count;
        into[..count].copy_from_slice(&self.room[self.from..end]);
        self.from += count;
        self.have -= count;
        self.due -= count;
        count
    }

    // Whether the next packet is at the front, with no byte before or after it in its unit, and nothing was left out before it.
    fn is_plain(&self) -> bool
        ensures { result ≡ true → IsPlain self.now }
    {
        if self.form.unit() != PACKET_SIZE {
            return false;
        }
        if self.due > 0 || self.tail > 0 {
            return false;
        }
        self.near && self.left == 0
    }

    /// How many packets at the front, at most `most`, are found there whatever follows, and can be given as they stand: each is the
    /// first of five whole units in a row, and no byte is between them. 0 says nothing.
    pub(crate) fn row(&self, most: usize) -> usize
        ensures few { result ≤ most }
        ensures row { 0 < result → BeginsRow self.now result }
        ensures in_hand { result * 188 ≤ self.now.have }
    {
        if !self.is_plain() {
            return 0;
        }
        let end = self.from + self.have;
        let units = units_in_row(
            self.form,
            &self.room[self.from..end],
            most.saturating_add(BEHIND),
        );
        units.saturating_sub(BEHIND)
    }

    /// Gives so many packets at the front at once.
    pub(crate) fn give_row(&mut self, into: &mut [u8], count: usize)
        requires row { BeginsRow self.old count }
        requires in_hand { count * 188 ≤ self.old.have }
        requires fits { count * 188 ≤ length into.old }
        ensures given { (more : List ℕ) → coming self.old more ≡ ungiven (take (count * 188) into.new) [] (coming self.new more) }
        ensures same { self.new.form ≡ self.old.form }
    {
        let bytes = count * PACKET_SIZE;
        let end = self.from + bytes;
        into[..bytes].copy_from_slice(&self.room[self.from..end]);
        self.from += bytes;
        self.have -= bytes;
        self.number = sum_with(self.number, count);
    }

    /// Forgets the gap that was noted last.
    pub(crate) fn forget(&mut self)
        ensures gives { (more : List ℕ) → coming self.old more ≡ ungiven [] (option_to_list self.old.noted) (coming self.new more) }
        ensures none { self.new.noted ≡ None }
        ensures same { self.new.form ≡ self.old.form }
    {
        self.noted = None;
    }

    // Moves the bytes in hand to the front of the room.
    fn to_front(&mut self)
        ensures front { self.new.from ≡ 0 }
        ensures hand { hand_of self.new ≡ hand_of self.old }
        ensures have { self.new.have ≡ self.old.have }
        ensures same { SameBut self.old self.new }
    {
        let end = self.from + self.have;
        self.room.copy_within(self.from..end, 0);
        self.from = 0;
    }

    /// Reads a source once, as much as there is room for after the bytes in hand.
    pub(crate) fn read_from<S: Source>(&mut self, source: &mut S) -> Result<usize, Failed>
        requires { self.old.have < deciding_bytes self.old.form }
        ensures read { MatchResult result (TakesIn (S.seen source.old) (S.seen source.new) self.old self.new)
            (λ _. FailsToTake (S.seen source.old) (S.seen source.new) self.old self.new) }
    {
        self.to_front();
        let bytes = self.room.as_mut_slice();
        let count = source.read(&mut bytes[self.have..])?;
        self.have += count;
        Ok(count)
    }
}
