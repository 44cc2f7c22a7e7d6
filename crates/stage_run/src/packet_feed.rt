//! The packets of an input of any kind.

use crate::generated_feed::GeneratedFeed;
use crate::null_feed::NullFeed;
use crate::packet_stream::{PacketStream, PacketsRead, nothing_read};
use crate::{InputPart, IoBuffer};
use cell_rows::Mark;
use chain_core::InputEnd;
use ts_land::Window;
use ts_outside::Source;
use ts_packet::Packet;

/// The packets of an input, one after another.
pub(crate) enum PacketFeed<S> {
    Stream(PacketStream<S>),
    Nulls(NullFeed),
    Generated(GeneratedFeed),
}

impl<S: Source> PacketFeed<S> {
    ghost use Rattle.std.specs.Prelude.{◌≡◌, ◌≢◌, ◌+◌, ◌<◌, ◌≤◌, ℕ, List, length, take, None, IfNone, IfSome, true};
    ghost use Rattle.chain_model.specs.declared.positions.TheConstants.{POSITION_LIMIT};
    ghost use Rattle.ts_outside.specs.Source.{SourceView};
    ghost use Rattle.cell_rows.specs.Cells.{cell_of, cells_of};
    ghost use Rattle.stage_run.specs.PartStands.{feed_kind, a_stream};
    ghost use Rattle.stage_run.specs.SourceNow.{IsFedBy};
    ghost use Rattle.stage_run.specs.Feeds.{FeedStands, FeedHasRoom, FeedLooks, FeedPuts, FeedPutsAll, FeedReads, IsFeedOf, IsReady, WantsMore, packets_put, part_of_feed};

    /// The packets of an input of which nothing was read yet; what is read goes into the buffer.
    pub(crate) fn of(part: InputPart<S>, room: IoBuffer) -> Self
        ensures { IsFeedOf part result }
    {
        match part {
            InputPart::Stream(source) => PacketFeed::Stream(PacketStream {
                source,
                room,
                from: 0,
                have: 0,
                packets: 0,
            }),
            InputPart::Nulls(all) => PacketFeed::Nulls(NullFeed { all, packets: 0 }),
            InputPart::Generated { generator, packets } => PacketFeed::Generated(GeneratedFeed {
                generator,
                all: packets,
                packets: 0,
            }),
        }
    }

    /// Returns the input.
    pub(crate) fn into_part(self) -> InputPart<S>
        ensures { result ≡ part_of_feed self }
    {
        match self {
            PacketFeed::Stream(stream) => InputPart::Stream(stream.into_source()),
            PacketFeed::Nulls(nulls) => InputPart::Nulls(nulls.all),
            PacketFeed::Generated(generated) => InputPart::Generated {
                generator: generated.generator,
                packets: generated.all,
            },
        }
    }

    /// The source of its packets, if they come from one.
    pub(crate) fn source(&self) -> Option<&S>
        ensures fed { IfSome result (λ source. IsFedBy source.now self.now) }
        ensures some { IfSome result (λ _. feed_kind self.now ≡ a_stream) }
        ensures none { IfNone result (feed_kind self.now ≢ a_stream) }
    {
        match self {
            PacketFeed::Stream(stream) => Some(&stream.source),
            PacketFeed::Nulls(_) | PacketFeed::Generated(_) => None,
        }
    }

    /// How many packets were put.
    pub(crate) fn packets(&self) -> u64
        ensures { result ≡ packets_put self.now }
    {
        match self {
            PacketFeed::Stream(stream) => stream.packets,
            PacketFeed::Nulls(nulls) => nulls.packets,
            PacketFeed::Generated(generated) => generated.packets,
        }
    }

    /// Ensures that a packet can be put, or returns how the packets ended.
    pub(crate) fn ensure_packet(&mut self, wanted: usize) -> Option<InputEnd>
        requires some { 1 ≤ wanted }
        requires room { FeedHasRoom self.old }
        ensures looks { (first : SourceView) (read : List ℕ) (rows : List (List ℕ))
            → FeedStands S.seen self.old first read rows None
            → FeedLooks S.seen self.old self.new wanted first read rows result }
        ensures ready { IfNone result (IsReady self.new) }
        ensures room { FeedHasRoom self.new }
        ensures packets { packets_put self.new ≡ packets_put self.old }
    {
        match self {
            PacketFeed::Stream(stream) => stream.ensure_packet(wanted),
            PacketFeed::Nulls(nulls) => nulls.ensure_packet(),
            PacketFeed::Generated(generated) => generated.ensure_packet(),
        }
    }

    /// Whether one more packet has to be read.
    pub(crate) fn wants_read(&self) -> bool
        requires { FeedHasRoom self.now }
        ensures { result ≡ true → WantsMore self.now }
    {
        match self {
            PacketFeed::Stream(stream) => stream.wants_read(),
            PacketFeed::Nulls(_) | PacketFeed::Generated(_) => false,
        }
    }

    /// Puts the next packet into a slot.
    pub(crate) fn next_packet(&mut self, packet: &mut Packet, mark: &mut Mark)
        requires ready { IsReady self.old }
        requires room { FeedHasRoom self.old }
        requires in_range { packets_put self.old < POSITION_LIMIT }
        ensures puts { (first : SourceView) (read : List ℕ) (rows : List (List ℕ))
            → FeedStands S.seen self.old first read rows None
            → FeedPuts S.seen self.old self.new first read rows (cell_of packet.new mark.new) }
        ensures room { FeedHasRoom self.new }
        ensures packets { packets_put self.new ≡ packets_put self.old + 1 }
    {
        match self {
            PacketFeed::Stream(stream) => stream.next_packet(packet, mark),
            PacketFeed::Nulls(nulls) => {
                nulls.packets += 1;
                *packet = Packet::null();
                *mark = Mark::live();
            }
            PacketFeed::Generated(generated) => generated.next_packet(packet, mark),
        }
    }

    /// Reads straight into the packets of a window, where they come from a source and the next one has to be read.
    pub(crate) fn fill_window(&mut self, window: Window<Packet>) -> PacketsRead
        requires room { FeedHasRoom self.old }
        requires in_range { packets_put self.old + length window.cells ≤ POSITION_LIMIT }
        ensures land { (result.window.land ≡ window.land) × (result.window.start ≡ window.start) }
        ensures long { length result.window.cells ≡ length window.cells }
        ensures within { result.count ≤ length window.cells }
        ensures reads { (first : SourceView) (read : List ℕ) (rows : List (List ℕ))
            → FeedStands S.seen self.old first read rows None
            → FeedReads S.seen self.old self.new (length window.cells) first read rows
            (take result.count result.window.cells) result.ended }
        ensures room { FeedHasRoom self.new }
        ensures packets { packets_put self.new ≡ packets_put self.old + result.count }
    {
        match self {
            PacketFeed::Stream(stream) => stream.fill_window(window),
            PacketFeed::Nulls(_) | PacketFeed::Generated(_) => nothing_read(window),
        }
    }

    /// Puts the packets in hand into the first slots, and returns how many.
    pub(crate) fn put_in_hand(&mut self, packets: &mut [Packet], marks: &mut [Mark]) -> usize
        requires long { length marks.old ≡ length packets.old }
        requires room { FeedHasRoom self.old }
        requires in_range { packets_put self.old + length packets.old ≤ POSITION_LIMIT }
        ensures done { result ≤ length packets.old }
        ensures puts { (first : SourceView) (read : List ℕ) (rows : List (List ℕ))
            → FeedStands S.seen self.old first read rows None
            → FeedPutsAll S.seen self.old self.new first read rows (take result (cells_of packets.new marks.new)) }
        ensures room { FeedHasRoom self.new }
        ensures packets { packets_put self.new ≡ packets_put self.old + result }
    {
        match self {
            PacketFeed::Stream(stream) => stream.put_in_hand(packets, marks),
            PacketFeed::Nulls(_) | PacketFeed::Generated(_) => 0,
        }
    }
}
