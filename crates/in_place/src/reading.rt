//! A read straight into a window of packets.
ghost use Rattle.std.specs.Prelude.{◌≡◌, ◌+◌, ◌*◌, ◌<◌, ◌≤◌, ℕ, List, length, [], take, drop, ◌++◌, IfOk, IfSome, OnErr, MatchResult};
ghost use Rattle.ts_outside.specs.Source.{unread, read_failed};
ghost use Rattle.ts_land.specs.Opening.{AreInSync, AreRows, joined};
ghost use Rattle.in_place.specs.Reads.{ReadsInto};

use crate::mend::{mend, rows_in_sync};
use ts_land::{OpenWindow, Window, open};
use ts_outside::{Failed, Source};
use ts_packet::{PACKET_SIZE, Packet};

/// What a read left.
pub struct Reading {
    /// The window.
    pub window: Window<Packet>,
    /// How many packets were read, from the front.
    pub count: usize,
    /// How many bytes after them are in the room.
    pub have: usize,
    /// How many bytes were read.
    pub read: Result<usize, Failed>,
}

/// Reads once, after the first `have` bytes.
fn read_after<S: Source>(source: &mut S, bytes: &mut [u8], have: usize) -> Result<usize, Failed>
    requires { have < length bytes.old }
    ensures long { length bytes.new ≡ length bytes.old }
    ensures front { take have bytes.new ≡ take have bytes.old }
    ensures within { IfOk result (λ n. have + n ≤ length bytes.new) }
    ensures moved { IfOk result (λ n. S.seen source.old ≡ unread (take n (drop have bytes.new)) (S.seen source.new)) }
    ensures end { IfOk result (λ n. n ≡ 0 → IfSome (S.seen source.old).left (λ l. l ≡ [])) }
    ensures failed { OnErr result (S.seen source.new ≡ read_failed (S.seen source.old)) }
{
    source.read(&mut bytes[have..])
}

/// Reads once into the bytes of an open window, of which the first `have` are those of the room; what comes after the whole
/// packets goes into the room.
fn fill<S: Source>(
    source: &mut S,
    bytes: &mut [u8],
    rows: usize,
    room: &mut [u8],
    have: usize,
) -> (usize, usize, Result<usize, Failed>)
    requires some { 0 < rows }
    requires long { length bytes.old ≡ rows * 188 }
    requires few { have < 188 }
    requires fits { rows * 188 ≤ length room.old }
    ensures long { length bytes.new ≡ rows * 188 }
    ensures sync { AreInSync rows bytes.new }
    ensures room { length room.new ≡ length room.old }
    ensures within { (result.0 ≤ rows) × (result.1 ≤ length room.new) }
    ensures asked { IfOk result.2 (λ n. have + n ≤ rows * 188) }
    ensures reads { ReadsInto (S.seen source.old) (S.seen source.new) (take have room.old)
        (take (result.0 * 188) bytes.new) (take result.1 room.new) result.2 }
{
    bytes[..have].copy_from_slice(&room[..have]);
    let read = read_after(source, bytes, have);
    let count = match read {
        Ok(n) => n,
        Err(Failed) => 0,
    };
    let end = have + count;
    let done = rows_in_sync(bytes, end);
    let used = done * PACKET_SIZE;
    room[..end - used].copy_from_slice(&bytes[used..end]);
    mend(bytes, done, rows);
    (done, end - used, read)
}

/// Reads once, straight into the packets of a window. `have` bytes in front of the room were read before and are in no
/// packet; the bytes after the packets that were read are left there.
pub fn read_in_place<S: Source>(
    source: &mut S,
    window: Window<Packet>,
    room: &mut [u8],
    have: usize,
) -> Reading
    requires some { 0 < length window.cells }
    requires few { have < 188 }
    requires fits { length window.cells * 188 ≤ length room.old }
    ensures land { (result.window.land ≡ window.land) × (result.window.start ≡ window.start) }
    ensures long { length result.window.cells ≡ length window.cells }
    ensures packets { AreRows result.window.cells }
    ensures room { length room.new ≡ length room.old }
    ensures within { (result.count ≤ length window.cells) × (result.have ≤ length room.new) }
    ensures asked { IfOk result.read (λ n. have + n ≤ length window.cells * 188) }
    ensures reads { ReadsInto (S.seen source.old) (S.seen source.new) (take have room.old)
        (joined (take result.count result.window.cells)) (take result.have room.new) result.read }
{
    let rows = window.len();
    let mut opened = open(window);
    let (count, left, read) = fill(source, opened.as_mut_slice(), rows, room, have);
    Reading {
        window: opened.shut(),
        count,
        have: left,
        read,
    }
}
