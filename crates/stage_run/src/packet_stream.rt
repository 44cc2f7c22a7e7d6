//! The packets of a source, read in large pieces: straight into a window where that is possible.
ghost use Rattle.std.specs.Prelude.{◌≡◌, None};
ghost use Rattle.stage_run.specs.Feeds.{end_of_read};

use crate::IoBuffer;
use crate::packet_row::put_packet;
use cell_rows::Mark;
use chain_core::InputEnd;
use in_place::{Reading, read_in_place};
use ts_land::Window;
use ts_outside::{Failed, Source};
use ts_packet::{PACKET_SIZE, Packet};

const SYNC_BYTE: u8 = ts_packet::SYNC_BYTE;

/// The packets of a source, read in large pieces.
pub(crate) struct PacketStream<S> {
    pub(crate) source: S,
    pub(crate) room: IoBuffer,
    /// Where in the buffer the bytes begin that were read and not put yet.
    pub(crate) from: usize,
    /// How many they are.
    pub(crate) have: usize,
    /// How many packets were put.
    pub(crate) packets: u64,
}

/// What was read straight into a window.
pub(crate) struct PacketsRead {
    /// The window.
    pub(crate) window: Window<Packet>,
    /// How many packets were put, from the front.
    pub(crate) count: usize,
    /// How the packets ended, where that is known. Then none were put.
    pub(crate) ended: Option<InputEnd>,
}

impl<S: Source> PacketStream<S> {
    ghost use Rattle.std.specs.Prelude.{◌≡◌, ◌+◌, ◌*◌, ◌^◌, ◌<◌, ◌≤◌, ℕ, List, length, take, drop, None, MatchResult, IfNone, true, false, vec_len};
    ghost use Rattle.cell_rows.specs.Cells.{cell_of, cells_of};
    ghost use Rattle.ts_land.specs.Opening.{AreRows};
    ghost use Rattle.ts_outside.specs.Source.{SourceView};
    ghost use Rattle.stage_run.specs.Rows.{IsUnfinished, IsInSync, IsOutOfSync, BeginsPacket};
    ghost use Rattle.stage_run.specs.Feeds.{hand_of, HasRoom, ReadsMore, FailsToRead, MovesHand, StreamStands, StreamLooks, StreamPuts, StreamPutsAll, StreamReads, Fills};

    /// Returns the source.
    pub(crate) fn into_source(self) -> S
        ensures { result ≡ self.source }
    {
        let PacketStream {
            source,
            room: _,
            from: _,
            have: _,
            packets: _,
        } = self;
        source
    }

    /// Whether the first byte in hand is not the sync byte.
    fn is_lost(&self) -> bool
        requires { HasRoom self.now }
        ensures lost { result ≡ true → IsOutOfSync (hand_of self.now) }
        ensures kept { result ≡ false → IsInSync (hand_of self.now) }
    {
        self.have > 0 && self.room.bytes[self.from] != SYNC_BYTE
    }

    /// Moves the bytes in hand to the front of the room.
    fn to_front(&mut self)
        requires { HasRoom self.old }
        ensures front { self.new.from ≡ 0 }
        ensures room { HasRoom self.new }
        ensures moves { MovesHand self.old self.new }
    {
        let end = self.from + self.have;
        self.room.bytes.copy_within(self.from..end, 0);
        self.from = 0;
    }

    /// Reads once, at most as much as `wanted` packets need besides the bytes in hand, if there is room for it.
    fn read_more(&mut self, wanted: usize) -> Result<usize, Failed>
        requires some { 1 ≤ wanted }
        requires few { self.old.have < PACKET_SIZE }
        requires room { HasRoom self.old }
        ensures read { MatchResult result (ReadsMore S.seen self.old self.new)
            (λ _. FailsToRead S.seen self.old self.new) }
        ensures asked { self.new.have ≤ PACKET_SIZE * wanted }
        ensures room { HasRoom self.new }
        ensures packets { self.new.packets ≡ self.old.packets }
    {
        self.to_front();
        let bytes = self.room.bytes.as_mut_slice();
        let want = wanted.min(bytes.len() / PACKET_SIZE) * PACKET_SIZE;
        let count = self.source.read(&mut bytes[self.have..want])?;
        self.have += count;
        Ok(count)
    }

    /// Reads once, straight into the packets of a window: its first ones are then the next ones of the stream.
    fn read_packets(
        &mut self,
        window: Window<Packet>,
    ) -> (Window<Packet>, usize, Result<usize, Failed>)
        requires some { 0 < length window.cells }
        requires few { self.old.have < PACKET_SIZE }
        requires room { HasRoom self.old }
        requires fits { length window.cells * 188 ≤ vec_len self.old.room.bytes }
        requires in_range { self.old.packets + length window.cells ≤ 2 ^ 62 }
        ensures land { (result.0.land ≡ window.land) × (result.0.start ≡ window.start) }
        ensures long { length result.0.cells ≡ length window.cells }
        ensures within { result.1 ≤ length window.cells }
        ensures rows { AreRows result.0.cells }
        ensures fills { Fills S.seen self.old self.new (length window.cells) (take result.1 result.0.cells) result.2 }
        ensures room { HasRoom self.new }
        ensures packets { self.new.packets ≡ self.old.packets + result.1 }
    {
        self.to_front();
        let Reading {
            window,
            count,
            have,
            read,
        } = read_in_place(
            &mut self.source,
            window,
            self.room.bytes.as_mut_slice(),
            self.have,
        );
        self.have = have;
        self.packets += count as u64;
        (window, count, read)
    }

    /// Reads once, straight into the packets of a window, where the next packet has to be read and all that may come fits
    /// the room too. Else, and where no whole packet came, none is put.
    pub(crate) fn fill_window(&mut self, window: Window<Packet>) -> PacketsRead
        requires room { HasRoom self.old }
        requires in_range { self.old.packets + length window.cells ≤ 2 ^ 62 }
        ensures land { (result.window.land ≡ window.land) × (result.window.start ≡ window.start) }
        ensures long { length result.window.cells ≡ length window.cells }
        ensures within { result.count ≤ length window.cells }
        ensures reads { (first : SourceView) (read : List ℕ) (rows : List (List ℕ))
            → StreamStands S.seen self.old first read rows None
            → StreamReads S.seen self.new (length window.cells) first read rows (take result.count result.window.cells) result.ended }
        ensures room { HasRoom self.new }
        ensures packets { self.new.packets ≡ self.old.packets + result.count }
    {
        let most = self.room.bytes.len() / PACKET_SIZE;
        if window.len() > 0 && window.len() <= most {
            if self.wants_read() {
                let left = self.have as u8;
                let (window, count, read) = self.read_packets(window);
                return PacketsRead {
                    window,
                    count,
                    ended: end_of_read(read, left),
                };
            }
        }
        nothing_read(window)
    }

    /// Reads until the bytes in hand begin with a whole packet, or returns how the packets ended.
    ///
    /// The first byte of a packet that was read is checked before any further read. No more is read than `wanted` packets
    /// need after those that were put.
    pub(crate) fn ensure_packet(&mut self, wanted: usize) -> Option<InputEnd>
        requires some { 1 ≤ wanted }
        requires room { HasRoom self.old }
        ensures looks { (first : SourceView) (read : List ℕ) (rows : List (List ℕ))
            → StreamStands S.seen self.old first read rows None
            → StreamLooks S.seen self.new wanted first read rows result }
        ensures ready { IfNone result (BeginsPacket (hand_of self.new)) }
        ensures room { HasRoom self.new }
        ensures packets { self.new.packets ≡ self.old.packets }
    {
        loop {
            if self.is_lost() {
                return Some(InputEnd::Sync {
                    packet: self.packets,
                });
            }
            if self.have >= PACKET_SIZE {
                return None;
            }
            match self.read_more(wanted) {
                Ok(0) => {
                    return Some(InputEnd::End {
                        left: self.have as u8,
                    });
                }
                Ok(_) => {}
                Err(Failed) => return Some(InputEnd::ReadFault),
            }
        }
    }

    /// Whether one more packet has to be read: there is none in hand, and the bytes in hand do not decide the end either.
    pub(crate) fn wants_read(&self) -> bool
        requires { HasRoom self.now }
        ensures unfinished { result ≡ true → IsUnfinished (hand_of self.now) }
        ensures few { result ≡ true → self.now.have < PACKET_SIZE }
    {
        if self.have < PACKET_SIZE {
            return !self.is_lost();
        }
        false
    }

    /// Puts the packet in front into a slot.
    pub(crate) fn next_packet(&mut self, packet: &mut Packet, mark: &mut Mark)
        requires ready { BeginsPacket (hand_of self.old) }
        requires room { HasRoom self.old }
        requires in_range { self.old.packets < 2 ^ 62 }
        ensures puts { (first : SourceView) (read : List ℕ) (rows : List (List ℕ))
            → StreamStands S.seen self.old first read rows None
            → StreamPuts S.seen self.new first read rows (cell_of packet.new mark.new) }
        ensures room { HasRoom self.new }
        ensures packets { self.new.packets ≡ self.old.packets + 1 }
    {
        put_packet(packet, mark, &self.room.bytes, self.from);
        self.from += PACKET_SIZE;
        self.have -= PACKET_SIZE;
        self.packets += 1;
    }

    /// Whether the bytes in hand begin with a whole packet.
    fn has_packet(&self) -> bool
        requires { HasRoom self.now }
        ensures { result ≡ true → BeginsPacket (hand_of self.now) }
    {
        self.have >= PACKET_SIZE && !self.is_lost()
    }

    /// Puts the packets in hand into the first slots, as far as there are slots, and returns how many.
    pub(crate) fn put_in_hand(&mut self, packets: &mut [Packet], marks: &mut [Mark]) -> usize
        requires long { length marks.old ≡ length packets.old }
        requires room { HasRoom self.old }
        requires in_range { self.old.packets + length packets.old ≤ 2 ^ 62 }
        ensures done { result ≤ length packets.old }
        ensures puts { (first : SourceView) (read : List ℕ) (rows : List (List ℕ))
            → StreamStands S.seen self.old first read rows None
            → StreamPutsAll S.seen self.new first read rows (take result (cells_of packets.new marks.new)) }
        ensures room { HasRoom self.new }
        ensures packets { self.new.packets ≡ self.old.packets + result }
    {
        for done in 0..packets.len() {
            if !self.has_packet() {
                return done;
            }
            self.next_packet(&mut packets[done], &mut marks[done]);
        }
        packets.len()
    }
}

/// No read was made.
pub(crate) fn nothing_read(window: Window<Packet>) -> PacketsRead
    ensures { result ≡ record { window = window; count = 0; ended = None } }
{
    PacketsRead {
        window,
        count: 0,
        ended: None,
    }
}

/// How the packets ended by a read, before which so many bytes were in hand.
fn end_of_read(read: Result<usize, Failed>, left: u8) -> Option<InputEnd>
    ensures { result ≡ end_of_read read left }
{
    match read {
        Ok(0) => Some(InputEnd::End { left }),
        Ok(_) => None,
        Err(Failed) => Some(InputEnd::ReadFault),
    }
}
