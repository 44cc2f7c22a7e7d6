//! A window of packets whose memory is lent as bytes.
ghost use Rattle.std.specs.Prelude.{◌≡◌, ◌*◌, ◌<◌, length, slice_index, EachIndex};
ghost use Rattle.std.specs.Borrow.{Lends, Array, u8, sem};
ghost use denote.RawPtr.{Ptr, InBlock};
ghost use Rattle.ts_land.specs.Opening.{joined, AreInSync, AreRows, open_of, with_bytes, rows_of};
ghost use Rattle.ts_land.specs.Pieces.{piece_of};
ghost use Rattle.ts_land.specs.contracts.open_window.OpenWindow.{the_row};

use crate::opening::{Shutter, open_span, shut_span};
use crate::owner::Owner;
use crate::span::{span_of, vec_over};
use crate::window::Window;
use std::alloc::Global;
use std::marker::Model;
use std::ptr::NonNull;
use std_alloc::vec::Lodged;
use ts_packet::{PACKET_SIZE, Packet};

/// A window of packets whose memory is lent as bytes.
pub struct OpenWindow {
    bytes: Vec<u8, Lodged>,
    shutter: Shutter,
    start: usize,
    base: *mut Packet,
    count: usize,
    owner: Option<Owner<Packet, Global>>,
}

impl Model for OpenWindow {
    ghost use Rattle.std.specs.Prelude.{◌≡◌, ◌+◌, ◌*◌, ◌^◌, ◌<◌, ◌≤◌, is_some};
    ghost use Rattle.std.specs.Vec.{vec_len, vec_ptr, vec_capacity};
    ghost use denote.RawPtr.{InBlock, ◌+ₚ◌};
    ghost use Rattle.ts_land.specs.Pieces.{has_first, IsOwnerOf};
    ghost use Rattle.ts_land.specs.Opening.{OpenPiece, open_code, open_of};

    ghost Value = { OpenPiece };

    ghost coded = { open_code };

    ghost view = { λ w. open_of (record { base = w.base; count = w.count }) w.start w.shutter.count w.bytes.items };

    ghost invariant = { λ w. (vec_ptr w.bytes ≡ w.base +ₚ w.start * 188) × (w.shutter.ptr ≡ vec_ptr w.bytes)
        × (vec_capacity w.bytes ≡ vec_len w.bytes) × (vec_len w.bytes ≡ w.shutter.count * 188)
        × (w.start + w.shutter.count ≤ w.count)
        × (0 < w.count) × (w.count < 2 ^ 63) × (w.count * 188 < 2 ^ 63) × InBlock w.base
        × (is_some w.owner ≡ has_first w.start w.shutter.count) × IsOwnerOf w.base w.count w.owner };
}

// The address of packets as that of their bytes.
fn bytes_at(ptr: *mut Packet) -> *mut u8
    requires { InBlock ptr }
    ensures { result ≡ ptr }
{
    unsafe { NonNull::new_unchecked(ptr) }.cast::<u8>().as_ptr()
}

// The address of bytes as that of the packets which they are.
fn packets_at(ptr: *mut u8) -> *mut Packet
    requires { InBlock ptr }
    ensures { result ≡ ptr }
{
    unsafe { NonNull::new_unchecked(ptr) }
        .cast::<Packet>()
        .as_ptr()
}

// Every byte is below 256. A law; it runs nothing.
fn are_bytes(bytes: &[u8])
    ensures { EachIndex bytes.now (λ k. slice_index bytes.now k < 256) }
{
    let _len = bytes.len();
}

/// Lends the memory of a window of packets as bytes.
pub fn open(window: Window<Packet>) -> OpenWindow
    ensures lent { result ≡ open_of window.land window.start (length window.cells) (joined window.cells) }
    ensures long { length result.bytes ≡ length window.cells * 188 }
    ensures sync { AreInSync (length window.cells) result.bytes }
    ensures packets { rows_of (length window.cells) result.bytes ≡ window.cells }
{
    let Window {
        mut cells,
        start,
        base,
        count,
        owner,
    } = window;
    let len = cells.len();
    let ptr = cells.as_mut_ptr();
    let (span, shutter) = open_span(span_of(cells));
    OpenWindow {
        bytes: vec_over(bytes_at(ptr), len * PACKET_SIZE, span),
        shutter,
        start,
        base,
        count,
        owner,
    }
}

impl OpenWindow {
    /// The packets that the bytes are.
    pub fn shut(self) -> Window<Packet>
        requires { AreInSync self.slots self.bytes }
        ensures shut { result ≡ piece_of self.land self.start (rows_of self.slots self.bytes) }
        ensures packets { AreRows result.cells }
    {
        let OpenWindow {
            mut bytes,
            shutter,
            start,
            base,
            count,
            owner,
        } = self;
        are_bytes(bytes.as_slice());
        let len = bytes.len() / PACKET_SIZE;
        let ptr = bytes.as_mut_ptr();
        let span = shut_span(span_of(bytes), shutter);
        Window {
            cells: vec_over(packets_at(ptr), len, span),
            start,
            base,
            count,
            owner,
        }
    }

    /// The bytes.
    pub fn as_slice(&self) -> &[u8]
        ensures { result.now ≡ self.now.bytes }
    {
        self.bytes.as_slice()
    }

    /// The bytes, which may be changed in place.
    pub fn as_mut_slice(&mut self) -> &mut [u8]
        ensures* writes_back { sem 𝓛
            (Lends the_row (Array u8 0) self.entry result (with_bytes self.old)) }
        ensures value { result.now ≡ self.old.bytes }
    {
        self.bytes.as_mut_slice()
    }
}
