//! Rows on the bit rate that `info` reports, and on the SDT that it takes the names from. A way of 3000 units from a packet to
//! the next is 13,536,000 bits per second.
use crate::carried::Carried;
use crate::inputs::{Clocked, Input};
use crate::row::Row;
use test_tools::ORDINARY;

/// A packet with a PCR: its PID, the flags of its adaptation field, and the PCR.
macro_rules! clocked {
    ($pid:expr, $flags:expr, $clock:expr) => {
        Clocked {
            pid: $pid,
            flags: $flags,
            clock: $clock,
        }
    };
}

/// What `info` reports of streams whose clock does not go on evenly, and of two SDTs.
pub(crate) fn rows() -> &'static [Row] {
    &RATE_ROWS
}

static RATE_ROWS: [Row; 16] = [
    Row {
        name: "the bit rate is rounded to the nearest",
        words: "-I file in -P info -O drop",
        input: Input::Clocks(&[
            clocked!(256, 0x10, 0),
            clocked!(256, 0x10, 3001),
            clocked!(256, 0x10, 6150),
        ]),
        plan: ORDINARY,
    },
    Row {
        name: "a PCR five hours ahead has no part in the bit rate",
        words: "-I file in -P info -O drop",
        input: Input::Clocks(&[
            clocked!(256, 0x10, 7000),
            clocked!(256, 0x10, 10000),
            clocked!(256, 0x10, 486000013000),
            clocked!(256, 0x10, 16000),
            clocked!(256, 0x10, 19000),
        ]),
        plan: ORDINARY,
    },
    Row {
        name: "two streams that are joined without a flag",
        words: "-I file in -P info -O drop",
        input: Input::Clocks(&[
            clocked!(256, 0x10, 907000),
            clocked!(256, 0x10, 910000),
            clocked!(256, 0x10, 7000),
            clocked!(256, 0x10, 10000),
        ]),
        plan: ORDINARY,
    },
    Row {
        name: "a new time base with its flag",
        words: "-I file in -P info -O drop",
        input: Input::Clocks(&[
            clocked!(256, 0x10, 7000),
            clocked!(256, 0x10, 10000),
            clocked!(256, 0x90, 13000),
            clocked!(256, 0x10, 16000),
        ]),
        plan: ORDINARY,
    },
    Row {
        name: "a gap of more than a second",
        words: "-I file in -P info -O drop",
        input: Input::Clocks(&[
            clocked!(256, 0x10, 7000),
            clocked!(256, 0x10, 10000),
            clocked!(256, 0x10, 27010001),
            clocked!(256, 0x10, 27013001),
        ]),
        plan: ORDINARY,
    },
    Row {
        name: "a gap of a second is time",
        words: "-I file in -P info -O drop",
        input: Input::Clocks(&[clocked!(256, 0x10, 7000), clocked!(256, 0x10, 27007000)]),
        plan: ORDINARY,
    },
    Row {
        name: "the PCR of a damaged packet is passed over",
        words: "-I file in -P info -O drop",
        input: Input::Clocks(&[
            clocked!(256, 0x10, 7000),
            clocked!(0x8100, 0x10, 486000010000),
            clocked!(256, 0x10, 13000),
        ]),
        plan: ORDINARY,
    },
    Row {
        name: "the bit rate is by the PID whose PCRs cover the most packets",
        words: "-I file in -P info -O drop",
        input: Input::Clocks(&[
            clocked!(257, 0x10, 0),
            clocked!(256, 0x10, 3000),
            clocked!(256, 0x10, 4000),
            clocked!(257, 0x10, 9000),
        ]),
        plan: ORDINARY,
    },
    Row {
        name: "of two PIDs that cover as many the least counts",
        words: "-I file in -P info -O drop",
        input: Input::Clocks(&[
            clocked!(257, 0x10, 0),
            clocked!(256, 0x10, 0),
            clocked!(257, 0x10, 9000),
            clocked!(256, 0x10, 6000),
        ]),
        plan: ORDINARY,
    },
    Row {
        name: "a clock that stands still gives no bit rate",
        words: "-I file in -P info -O drop",
        input: Input::Clocks(&[clocked!(256, 0x10, 7000), clocked!(256, 0x10, 7000)]),
        plan: ORDINARY,
    },
    Row {
        name: "a bit rate above the greatest is none",
        words: "-I file in -P info -O drop",
        input: Input::Clocks(&[clocked!(256, 0x10, 7000), clocked!(256, 0x10, 7001)]),
        plan: ORDINARY,
    },
    Row {
        name: "the breaks as JSON",
        words: "-I file in -P info --json -O drop",
        input: Input::Clocks(&[
            clocked!(256, 0x10, 7000),
            clocked!(256, 0x10, 10000),
            clocked!(256, 0x10, 7000),
            clocked!(256, 0x10, 10000),
        ]),
        plan: ORDINARY,
    },
    Row {
        name: "no clock as JSON",
        words: "-I file in -P info --json -O drop",
        input: Input::Clocks(&[clocked!(256, 0x10, 7000), clocked!(256, 0x10, 7000)]),
        plan: ORDINARY,
    },
    Row {
        name: "the SDT of the stream before another one",
        words: "-I file in -P info -O drop",
        input: Input::Tables(&[Carried::Pat, Carried::Sdt, Carried::OtherSdt]),
        plan: ORDINARY,
    },
    Row {
        name: "the SDT of another stream where there is no other",
        words: "-I file in -P info -O drop",
        input: Input::Tables(&[Carried::Pat, Carried::OtherSdt]),
        plan: ORDINARY,
    },
    Row {
        name: "an SDT without a PAT, as JSON",
        words: "-I file in -P info --json -O drop",
        input: Input::Tables(&[Carried::Sdt, Carried::OtherSdt]),
        plan: ORDINARY,
    },
];
