//! Reading sources in memory to their end.
use packet_forms::{Form, FormSource};
use ts_outside::{Desk, Failed, Source};

/// What a source gave until its end or a failed read.
#[derive(Clone, Copy, Debug, PartialEq, Eq)]
pub(crate) struct Came {
    /// The number of bytes.
    count: u64,
    /// Their sum modulo 2^32: for each byte, the sum so far times 31 plus the byte.
    sum: u32,
    /// Whether a read failed.
    failed: bool,
}

/// The sum of some bytes, after a sum before them.
fn sum_of(before: u32, bytes: &[u8]) -> u32 {
    let mut sum = before;
    for byte in bytes {
        sum = sum.wrapping_mul(31).wrapping_add(u32::from(*byte));
    }
    sum
}

/// Reads a source to its end, or until a read fails.
fn drain<S: Source>(source: &mut S, room: &mut [u8]) -> Came {
    let mut count: u64 = 0;
    let mut sum = 0;
    if room.len() == 0 {
        return Came {
            count,
            sum,
            failed: false,
        };
    }
    for _ in 0..u64::MAX {
        match source.read(room) {
            Ok(0) => break,
            Ok(n) => {
                count = count.wrapping_add(n as u64);
                sum = sum_of(sum, &room[..n]);
            }
            Err(Failed) => {
                return Came {
                    count,
                    sum,
                    failed: true,
                };
            }
        }
    }
    Came {
        count,
        sum,
        failed: false,
    }
}

/// Reads the packets of the file `a` to their end or to a fault, and then once more; `None` where it was not opened.
pub(crate) fn read_twice<D: Desk>(
    desk: &mut D,
    form: Form,
    room: &mut [u8],
) -> Option<(Came, Came)> {
    match desk.open_in(Some("a")) {
        Ok(source) => {
            let mut packets = FormSource::new(source, form);
            let first = drain(&mut packets, room);
            let second = drain(&mut packets, room);
            desk.close_in(packets.into_inner());
            Some((first, second))
        }
        Err(_) => None,
    }
}

/// Reads the packets of the file `a` once, and then what is left of the file itself; `None` where it was not opened.
pub(crate) fn read_once<D: Desk>(
    desk: &mut D,
    form: Form,
    room: &mut [u8],
) -> Option<(usize, Came)> {
    match desk.open_in(Some("a")) {
        Ok(source) => {
            let mut packets = FormSource::new(source, form);
            let count = if room.len() == 0 {
                0
            } else {
                packets.read(room).unwrap_or(0)
            };
            let mut own = packets.into_inner();
            let rest = drain(&mut own, room);
            desk.close_in(own);
            Some((count, rest))
        }
        Err(_) => None,
    }
}
