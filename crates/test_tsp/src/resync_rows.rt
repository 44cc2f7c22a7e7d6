//! Rows on files with damage, whose packets are found again.
use crate::inputs::{Input, Piece};
use crate::row::Row;
use test_tools::{DeskPlan, ORDINARY};

/// Other bytes, six packets, other bytes, five packets.
const TWO_RUNS: &[Piece] = &[
    Piece::Junk(100),
    Piece::Packets(&[256, 257, 258, 256, 257, 258], 0),
    Piece::Junk(7),
    Piece::Packets(&[259, 260, 261, 259, 260], 0),
];

/// The third of eight packets has a wrong sync byte.
const WRONG: &[Piece] = &[
    Piece::Packets(&[256, 257], 0),
    Piece::Wrong(258, 0),
    Piece::Packets(&[259, 256, 257, 258, 259], 0),
];

/// Two wrong sync bytes in a row, and then three packets: they are not found.
const TWO_WRONG: &[Piece] = &[
    Piece::Packets(&[256, 257], 0),
    Piece::Wrong(258, 0),
    Piece::Wrong(259, 0),
    Piece::Packets(&[256, 257, 258], 0),
];

/// The same of packets with sixteen bytes behind each.
const WRONG_204: &[Piece] = &[
    Piece::Packets(&[256, 257], 16),
    Piece::Wrong(258, 16),
    Piece::Packets(&[259, 256, 257, 258, 259], 16),
];

/// Files without damage, with each kind of it, without a packet, and reads of few bytes and that fail.
pub(crate) fn rows() -> &'static [Row] {
    &RESYNC_ROWS
}

static RESYNC_ROWS: [Row; 20] = [
    Row {
        name: "packets found again in a file without damage",
        words: "-I file in --resync -O file out",
        input: Input::Pids(&[256, 257, 256]),
        plan: ORDINARY,
    },
    Row {
        name: "other bytes before and between packets",
        words: "-I file in --resync -O file out",
        input: Input::Pieces(TWO_RUNS),
        plan: ORDINARY,
    },
    Row {
        name: "the same, byte by byte",
        words: "-I file in --resync -O file out",
        input: Input::Pieces(TWO_RUNS),
        plan: DeskPlan {
            read_piece: 1,
            write_piece: 1,
            ..ORDINARY
        },
    },
    Row {
        name: "the same, 94 bytes a read",
        words: "-I file in --resync -O file out",
        input: Input::Pieces(TWO_RUNS),
        plan: DeskPlan {
            read_piece: 94,
            ..ORDINARY
        },
    },
    Row {
        name: "the same, a packet a read",
        words: "-I file in --resync -O file out",
        input: Input::Pieces(TWO_RUNS),
        plan: DeskPlan {
            read_piece: 188,
            ..ORDINARY
        },
    },
    Row {
        name: "a wrong sync byte",
        words: "-I file in --resync -O file out",
        input: Input::Pieces(WRONG),
        plan: ORDINARY,
    },
    Row {
        name: "two wrong sync bytes in a row before the last packets",
        words: "-I file in --resync -O file out",
        input: Input::Pieces(TWO_WRONG),
        plan: ORDINARY,
    },
    Row {
        name: "a wrong sync byte before sixteen bytes behind each packet",
        words: "-I file in --format rs204 --resync -O file out",
        input: Input::Pieces(WRONG_204),
        plan: ORDINARY,
    },
    Row {
        name: "no packet at all",
        words: "-I file in --resync -O file out",
        input: Input::Pieces(&[Piece::Junk(1000)]),
        plan: ORDINARY,
    },
    Row {
        name: "bytes left out behind the last packet",
        words: "-I file in --resync -O file out",
        input: Input::Cut(&[256, 257], 205),
        plan: ORDINARY,
    },
    Row {
        name: "packets found again, with null packets put in and a cut before other bytes",
        words: "--add-input-stuffing 1/2 -I file in --resync -P until --packets 7 -O file out",
        input: Input::Pieces(TWO_RUNS),
        plan: ORDINARY,
    },
    Row {
        name: "packets found again, and the second read fails",
        words: "-I file in --resync -O file out",
        input: Input::Pieces(TWO_RUNS),
        plan: DeskPlan {
            reads: &[2],
            ..ORDINARY
        },
    },
    Row {
        name: "packets found again, and a read within other bytes fails",
        words: "-I file in --resync -O file out",
        input: Input::Pieces(TWO_RUNS),
        plan: DeskPlan {
            reads: &[20],
            read_piece: 94,
            ..ORDINARY
        },
    },
    Row {
        name: "a cut before the packet behind other bytes",
        words: "-I file in --resync -P until --packets 6 -O file out",
        input: Input::Pieces(TWO_RUNS),
        plan: ORDINARY,
    },
    Row {
        name: "a cut behind the packet behind other bytes",
        words: "-I file in --resync -P until --packets 7 -O file out",
        input: Input::Pieces(TWO_RUNS),
        plan: ORDINARY,
    },
    Row {
        name: "packets found again, and bare lines",
        words: "--bare -I file in --resync -O file out",
        input: Input::Pieces(TWO_RUNS),
        plan: ORDINARY,
    },
    Row {
        name: "packets found again, and lines while the run goes",
        words: "--live -I file in --resync -O file out",
        input: Input::Pieces(TWO_RUNS),
        plan: ORDINARY,
    },
    Row {
        name: "a wrong sync byte, which is not wanted",
        words: "--fail-on-faults -I file in --resync -O file out",
        input: Input::Pieces(WRONG),
        plan: ORDINARY,
    },
    Row {
        name: "a wrong sync byte behind the cut, which is not wanted",
        words: "--fail-on-faults -I file in --resync -P until --packets 2 -O file out",
        input: Input::Pieces(WRONG),
        plan: ORDINARY,
    },
    Row {
        name: "no damage, which is not wanted",
        words: "--fail-on-faults -I file in --resync -O file out",
        input: Input::Pids(&[256, 257, 256]),
        plan: ORDINARY,
    },
];
