//! Tests of fields: rows of every kind are read and written; each call that allocates, once with enough memory.

ghost use Rattle.std.specs.Prelude.{◌≤◌, length, IsTrue};
ghost use Rattle.ts_fields.specs.Bodies.{page, page_sound};

use crate::compared::{got, same, same_bytes};
use std::alloc::Global;
use std::process::Abort;
use ts_fields::{
    Field, ItemLayout, Kind, Layout, NotRead, fit_page_is_shaped, read_body, write_body,
};

macro_rules! rows {
    ($($kind:expr),*) => {
        &[$(Field { name: "", kind: $kind, absent: None, range: None }),*]
    };
}

/// A field of each kind, and a text up to the end.
static EACH_KIND: Layout = Layout {
    tag: 0,
    name: "each_kind",
    head: rows![
        Kind::Number(3),
        Kind::Ones(2),
        Kind::Free(2),
        Kind::Flag,
        Kind::Decimal(2),
        Kind::Start,
        Kind::Duration,
        Kind::Language,
        Kind::CountedText,
        Kind::Text
    ],
    items: None,
    counted: None,
};

/// Reserved bits that are read as any number, items after a length of 8 bits, data after theirs, and a byte.
static COUNTED: Layout = Layout {
    tag: 2,
    name: "counted",
    head: rows![
        Kind::Reserved(5),
        Kind::Zeros(3),
        Kind::CountedHex,
        Kind::Number(8)
    ],
    items: Some(ItemLayout {
        name: "item",
        rows: rows![Kind::CountedText],
    }),
    counted: Some(2),
};

/// A number, and items of two bytes each.
static PAIRS: Layout = Layout {
    tag: 1,
    name: "pairs",
    head: rows![Kind::Number(8)],
    items: Some(ItemLayout {
        name: "pair",
        rows: rows![Kind::Number(4), Kind::Number(12)],
    }),
    counted: None,
};

/// Five, ones, free bits, a set flag; 42; 93/10/13 12:45:00; 01:45:30; `eng`; `hi`; `to the end`.
static OF_EACH_KIND: [u8; 26] = [
    0xBF, 0x42, 0xC0, 0x79, 0x12, 0x45, 0x00, 0x01, 0x45, 0x30, b'e', b'n', b'g', 0x02, b'h', b'i',
    b't', b'o', b' ', b't', b'h', b'e', b' ', b'e', b'n', b'd',
];

/// What is written after reading.
fn again(alloc: Global, layout: &Layout, from: &[u8]) -> Result<Vec<u8>, NotRead>
    requires short { length from.now ≤ 4096 }
    requires sound { IsTrue (page_sound (page layout.now)) }
{
    let body = read_body(alloc, layout, from)?;
    // A law, which runs nothing.
    fit_page_is_shaped();
    let bytes = write_body(alloc, layout, &body)?;
    Ok(bytes)
}

/// Checks that a body, read and written back, gives the bytes `OF_EACH_KIND`.
fn is_kept(rt: &(impl Abort + AllocGlobal), from: &[u8])
    requires { length from.now ≤ 4096 }
{
    let bytes = got(rt, again(rt.alloc(), &EACH_KIND, from));
    same_bytes(rt, &bytes, &OF_EACH_KIND);
}

#[test]
fn each_kind_is_read_and_written(rt: HostRuntime) {
    let mut free = OF_EACH_KIND;
    is_kept(&rt, &free);
    free[0] = 0xB9;
    is_kept(&rt, &free);
}

/// What is written after reading pairs.
fn pairs(rt: &(impl Abort + AllocGlobal), from: &[u8]) -> Result<Vec<u8>, NotRead>
    requires { length from.now ≤ 4096 }
{
    again(rt.alloc(), &PAIRS, from)
}

#[test]
fn items_are_read_and_written(rt: HostRuntime) {
    let row = [0x07, 0x12, 0x34, 0x56, 0x78];
    same(&rt, pairs(&rt, &row[..4]).err(), Some(NotRead::Outside));
    same_bytes(&rt, &got(&rt, pairs(&rt, &row)), &row);
}

/// What is written after reading items between fields.
fn counted(rt: &(impl Abort + AllocGlobal), from: &[u8]) -> Result<Vec<u8>, NotRead>
    requires { length from.now ≤ 4096 }
{
    again(rt.alloc(), &COUNTED, from)
}

#[test]
fn items_between_fields_are_read_and_written(rt: HostRuntime) {
    let row = [
        0xC9, 0x06, 0x01, b'a', 0x00, 0x02, b'b', b'c', 0x02, 0xCA, 0xFE, 0x07,
    ];
    same_bytes(&rt, &got(&rt, counted(&rt, &row)), &row);
    same(&rt, counted(&rt, &row[..11]).err(), Some(NotRead::Outside));
}
