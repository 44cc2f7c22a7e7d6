//! In which form a file seems to keep its packets, by its first bytes.
ghost use Rattle.std.specs.Prelude.{◌<◌};

/// A form of a file: its name as `--format` has it, and how many bytes a packet has there.
#[derive(Clone, Copy)]
pub(crate) struct SeenForm {
    pub(crate) name: &'static str,
    pub(crate) size: u64,
}

/// The byte that begins a packet.
const SYNC: u8 = 0x47;

/// So many packets have to begin with it.
const ENOUGH: usize = 3;

// Whether each packet of this size begins with the sync byte, of which the first is at a place.
fn is_synced(bytes: &[u8], size: usize, first: usize) -> bool
    requires { 0 < size }
{
    let mut count = 0usize;
    for (place, byte) in bytes.iter().enumerate() {
        if place % size == first {
            if *byte != SYNC {
                return false;
            }
            count = count.saturating_add(1);
        }
    }
    count >= ENOUGH
}

/// What the first bytes of a file seem to be.
#[derive(Clone, Copy)]
pub(crate) enum Seen {
    /// Packets in one of the forms of a file.
    Form(SeenForm),
    /// Packets of 188 bytes, after so many other bytes.
    Behind(u64),
    /// Datagrams of RTP with packets (RFC 3550, 5.1; RFC 3551, payload type 33).
    Rtp,
}

/// How many bytes the header of a datagram of RTP has.
const RTP_HEADER: usize = 12;

// Whether the bytes begin with such a header and a packet.
fn is_rtp(head: &[u8]) -> bool {
    let [first, second, ..] = head else {
        return false;
    };
    *first >> 6 == 2 && *second & 0x7F == 33 && head.get(RTP_HEADER) == Some(&SYNC)
}

/// What the first bytes of a file seem to be; `None` where they are none of these, or too few to say it.
pub(crate) fn form_seen(head: &[u8]) -> Option<Seen> {
    if is_synced(head, 188, 0) {
        return Some(Seen::Form(SeenForm {
            name: "ts",
            size: 188,
        }));
    }
    if is_synced(head, 192, 4) {
        return Some(Seen::Form(SeenForm {
            name: "m2ts",
            size: 192,
        }));
    }
    if is_synced(head, 204, 0) {
        return Some(Seen::Form(SeenForm {
            name: "rs204",
            size: 204,
        }));
    }
    if is_rtp(head) {
        return Some(Seen::Rtp);
    }
    for first in 1..188usize {
        if is_synced(head, 188, first) {
            return Some(Seen::Behind(u64::try_from(first).unwrap_or(0)));
        }
    }
    None
}
