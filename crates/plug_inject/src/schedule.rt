//! Groups of sections, given packet by packet.
ghost use Rattle.std.specs.Prelude.{◌≡◌, ◌<◌, ◌≤◌, ◌+◌, ◌^◌, [], IfOk, slice_get};
ghost use Rattle.std.specs.List.{All};
ghost use Rattle.std.specs.Option.{option_map_or};
ghost use Rattle.plug_inject.specs.Contents.{groups};
ghost use Rattle.plug_inject.specs.Schedule.{packets_at, row_after, section_after, turns_from};
ghost use Rattle.plug_inject.specs.Scheduled.{IsComing, Scheduled, first_turn, turns_with};

use crate::group::Group;
use crate::turn::{Turn, chosen};
use std::alloc::{AllocError, Global};
use ts_packet::Packet;

/// Sections of several groups, of which the next is chosen whenever the packets of one are given.
#[derive(Drop)]
pub struct Schedule {
    pub(crate) groups: Vec<Group>,
    /// What counts for the turn of each group.
    pub(crate) turns: Vec<Turn>,
    /// The place of the group whose section is being given; before the first, none has this place.
    pub(crate) group: usize,
    /// The place of the section in it.
    pub(crate) section: usize,
    /// How many packets of the section were given.
    pub(crate) packet: usize,
}

/// The turn of a group of which no section was begun yet.
fn first_turn(group: &Group) -> Turn
    ensures { result ≡ first_turn group.now }
{
    Turn {
        distance: group.distance,
        last: None,
        count: 0,
    }
}

/// The turns of groups of which no section was begun yet.
fn first_turns(alloc: Global, groups: &[Group]) -> Result<Vec<Turn>, AllocError>
    ensures { IfOk result (λ turns. turns.items ≡ turns_from 0 groups.now []) }
{
    let mut turns = Vec::new(alloc);
    for group in groups {
        turns.push(first_turn(group))?;
    }
    Ok(turns)
}

/// Notes that the packet with this number begins a section of the group with this place, and returns how many of its
/// sections were begun before.
fn begin_turn(turns: &mut [Turn], place: usize, number: u64) -> u64
    requires small { number < 2 ^ 63 }
    requires few { All (λ turn. turn.count ≤ number) turns.old }
    ensures count { result ≡ option_map_or (λ turn. turn.count) (slice_get turns.old place) 0 }
    ensures turns { turns.new ≡ turns_with place number turns.old }
{
    if place >= turns.len() {
        return 0;
    }
    let turn = turns[place];
    turns[place] = Turn {
        distance: turn.distance,
        last: Some(number),
        count: turn.count + 1,
    };
    turn.count
}

impl Schedule {
    /// A schedule that has given no packet.
    pub(crate) fn new(alloc: Global, groups: Vec<Group>) -> Result<Schedule, AllocError>
        ensures groups { IfOk result (λ s. s.groups.items ≡ groups.items) }
        ensures fresh { IfOk result (λ s. Scheduled s 0) }
    {
        let turns = first_turns(alloc, groups.as_slice())?;
        let group = groups.as_slice().len();
        Ok(Schedule {
            groups,
            turns,
            group,
            section: 0,
            packet: 0,
        })
    }

    /// The next packet of the section that is being given, if one is left.
    fn row(&self) -> Option<Packet>
        ensures { result ≡ slice_get (packets_at self.now.groups.items self.now.group self.now.section) self.now.packet }
    {
        let group = self.groups.get(self.group)?;
        let rows = group.sections.get(self.section)?;
        rows.as_slice().get(self.packet).copied()
    }

    /// The place of the section that is next in a group after so many of them.
    fn section_after(&self, place: usize, times: u64) -> usize
        ensures { result ≡ section_after self.now.groups.items place times }
    {
        let Some(group) = self.groups.get(place) else {
            return 0;
        };
        (times % group.sections.len() as u64) as usize
    }

    /// Begins the next section where no packet is left of the last one.
    fn begin_where_over(&mut self, number: u64)
        requires met { Scheduled self.old number }
        requires small { number < 2 ^ 63 }
        ensures coming { IsComing self.new number }
        ensures same { self.new.groups.items ≡ self.old.groups.items }
    {
        if self.row().is_some() {
            return;
        }
        let group = chosen(self.turns.as_slice(), number);
        let times = begin_turn(&mut self.turns, group, number);
        self.section = self.section_after(group, times);
        self.group = group;
        self.packet = 0;
    }

    /// The packet that is put in after so many others.
    pub(crate) fn next(&mut self, number: u64) -> Option<Packet>
        requires met { Scheduled self.old number }
        requires small { number < 2 ^ 63 }
        ensures row { result ≡ row_after (groups self.old.groups.items) number }
        ensures met { Scheduled self.new (number + 1) }
        ensures same { self.new.groups.items ≡ self.old.groups.items }
    {
        self.begin_where_over(number);
        let Some(row) = self.row() else {
            return None;
        };
        self.packet += 1;
        Some(row)
    }
}
