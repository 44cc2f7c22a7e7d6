//! Which cells are slots, counted without a division.
ghost use Rattle.std.specs.Prelude.{◌≡◌, ◌≤◌};
ghost use Rattle.plug_restuff.specs.RestuffState.{Counts};
ghost use Rattle.plug_restuff.specs.declared.limits.TheConstants.{LEAST_RATE, MOST_RATE};

/// The present cell, and how many slots there are before it.
#[derive(Drop)]
pub struct SlotCount {
    /// The rate at which the packets come.
    pub from: u64,
    /// The rate of the slots.
    pub to: u64,
    /// The number of the present cell.
    pub cell: u64,
    /// How many slots there are before it.
    pub slots: u64,
    /// `cell` times `to` is `slots` times `from` and this, which is below `from`.
    pub part: u64,
}

impl SlotCount {
    ghost use Rattle.std.specs.Prelude.{◌≡◌, ◌+◌, ◌<◌, ◌≤◌};
    ghost use Rattle.chain_model.specs.declared.positions.TheConstants.{POSITION_LIMIT};
    ghost use Rattle.plug_restuff.specs.RestuffState.{Counts};
    ghost use Rattle.plug_restuff.specs.Slots.{is_slot};
    ghost use Rattle.plug_restuff.specs.declared.limits.TheConstants.{LEAST_RATE, MOST_RATE};

    /// At the first cell.
    pub fn new(from: u64, to: u64) -> SlotCount
        requires least { LEAST_RATE ≤ to }
        requires lower { to ≤ from }
        requires most { from ≤ MOST_RATE }
        ensures counts { Counts result }
        ensures from { result.from ≡ from }
        ensures to { result.to ≡ to }
        ensures first { result.cell ≡ 0 }
    {
        SlotCount {
            from,
            to,
            cell: 0,
            slots: 0,
            part: 0,
        }
    }

    /// Goes on to the next cell, and returns whether the one before it is a slot.
    #[inline]
    pub fn step(&mut self) -> bool
        requires counts { Counts self.old }
        requires in_range { self.old.cell < POSITION_LIMIT }
        ensures is { result ≡ is_slot self.old.from self.old.to self.old.cell }
        ensures counts { Counts self.new }
        ensures next { self.new.cell ≡ self.old.cell + 1 }
        ensures from { self.new.from ≡ self.old.from }
        ensures to { self.new.to ≡ self.old.to }
    {
        self.cell += 1;
        self.part += self.to;
        if self.part < self.from {
            return false;
        }
        self.part -= self.from;
        self.slots += 1;
        true
    }
}
