//! The times of a packet, moved in place.

ghost use Rattle.std.specs.Prelude.{◌≡◌, ◌+◌, ◌≤◌, drop};
ghost use Rattle.ts_demux.specs.Cut.{size_in_front};
ghost use Rattle.plug_time.specs.MovedTimes as moved;
ghost use Rattle.plug_time.specs.declared.numbers.TheConstants.{MOST_SECTIONS as ALL_SECTIONS};

use crate::numbers::{MOST_SECTIONS, TIME_PID};
use crate::section::{CRC_SIZE, TIME_PLACE, is_tdt, is_tot, section_at, time_of, whole_at};
use crate::utc_time::{TIME_SIZE, later};
use ts_packet::Packet;
use ts_section::crc_of;

/// Moves the times that begin and end in a packet.
#[tactic(auto, unfolding(crate::specs::MovedTimes::moved_packet))]
pub(crate) fn move_times(packet: &mut Packet, shift: i64)
    ensures { packet.new ≡ moved.moved_packet shift packet.old }
{
    if !counts(packet) || !packet.unit_start() {
        return;
    }
    if let Some(start) = packet.payload_start() {
        let start = usize::from(start);
        let pointer = usize::from(packet.bytes()[start]);
        move_from(packet, shift, start + 1 + pointer);
    }
}

/// Whether the packet counts for the sections of TDT and TOT.
pub(crate) fn counts(packet: &Packet) -> bool
    ensures { result ≡ moved.is_of_time packet.now }
{
    packet.pid() == TIME_PID
        && (packet.scrambling() == 0
            && (!packet.error_indicator() && packet.payload_start().is_some()))
}

// Moves the sections that follow one another from a place on.
fn move_from(packet: &mut Packet, shift: i64, first: usize)
    requires header { 4 ≤ first }
    requires near { first ≤ 500 }
    ensures { packet.new ≡ moved.moved_from ALL_SECTIONS shift first packet.old }
{
    let mut at = first;
    for _ in 0..MOST_SECTIONS {
        let Some(size) = whole_at(packet.bytes(), at) else {
            break;
        };
        move_section(packet, shift, at, size);
        at += size;
    }
}

// Moves the whole section at a place, where it is a TDT or a TOT with a right CRC.
#[tactic(auto, unfolding(crate::specs::MovedTimes::moved_section))]
fn move_section(packet: &mut Packet, shift: i64, at: usize, size: usize)
    requires header { 4 ≤ at }
    requires size { size ≡ size_in_front (drop at packet.old) }
    requires within { at + size ≤ 188 }
    ensures { packet.new ≡ moved.moved_section shift at packet.old }
{
    let section = section_at(packet.bytes(), at, size);
    if is_tdt(section) {
        let time = later(&time_of(section), shift);
        put_time(packet, at, time);
    } else if is_tot(section) {
        let time = later(&time_of(section), shift);
        put_time_and_crc(packet, at, at + size, time);
    }
}

// Writes a time, where there is one, in the section at a place.
fn put_time(packet: &mut Packet, at: usize, time: Option<[u8; TIME_SIZE]>)
    requires header { 4 ≤ at }
    requires within { at + 8 ≤ 188 }
    ensures { packet.new ≡ moved.with_time at time packet.old }
{
    if let Some(time) = time {
        packet.put_payload((at + TIME_PLACE) as u8, &time);
    }
}

// Writes a time, where there is one, in the section at a place up to an end, and then its CRC.
fn put_time_and_crc(packet: &mut Packet, at: usize, end: usize, time: Option<[u8; TIME_SIZE]>)
    requires header { 4 ≤ at }
    requires room { at + 12 ≤ end }
    requires within { end ≤ 188 }
    ensures { packet.new ≡ moved.with_time_and_crc at end time packet.old }
{
    if let Some(time) = time {
        packet.put_payload((at + TIME_PLACE) as u8, &time);
        put_crc(packet, at, end);
    }
}

// Writes the CRC of the section at a place up to an end.
fn put_crc(packet: &mut Packet, at: usize, end: usize)
    requires header { 4 ≤ at }
    requires room { at + 4 ≤ end }
    requires within { end ≤ 188 }
    ensures { packet.new ≡ moved.with_crc at end packet.old }
{
    let place = end - CRC_SIZE;
    let crc = crc_of(&packet.bytes()[at..place]);
    packet.put_payload(place as u8, &crc.to_be_bytes());
}
