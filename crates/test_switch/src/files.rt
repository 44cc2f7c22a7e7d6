//! The files of the desk.
use std::alloc::{AllocError, Global};
use ts_outside::{FileBytes, FileList, NameText};

/// The sync byte, and another byte in its place.
const SYNC: u8 = 0x47;

const NO_SYNC: u8 = 0x46;

/// A file of packets.
#[derive(Clone, Copy)]
struct PacketFile {
    name: &'static str,
    /// The PIDs of its packets.
    pids: &'static [u16],
    /// Whether a packet that does not begin with the sync byte follows them.
    is_lost: bool,
    /// How many bytes of an incomplete packet follow at the end.
    rest: usize,
    /// What happened to them.
    damage: Damage,
}

/// What happened to the packets of a file.
#[derive(Clone, Copy)]
enum Damage {
    None,
    /// So many bytes that are in no packet stand in front of them.
    Junk(usize),
    /// The packet of this index has lost its last byte.
    Torn(usize),
    /// The packet of this index has a wrong sync byte.
    Wrong(usize),
}

/// The PIDs of the packets of files with damage.
const MORE_PIDS: &[u16] = &[400, 401, 402, 403, 404, 405, 406, 407, 408, 409, 410, 411];

/// The files; any other name is an empty file.
static FILES: [PacketFile; 9] = [
    PacketFile {
        name: "A",
        pids: &[256, 257],
        is_lost: false,
        rest: 0,
        damage: Damage::None,
    },
    PacketFile {
        name: "B",
        pids: &[258],
        is_lost: false,
        rest: 0,
        damage: Damage::None,
    },
    PacketFile {
        name: "lost",
        pids: &[256],
        is_lost: true,
        rest: 0,
        damage: Damage::None,
    },
    PacketFile {
        name: "rest",
        pids: &[259],
        is_lost: false,
        rest: 100,
        damage: Damage::None,
    },
    PacketFile {
        name: "many",
        pids: &[300, 301, 302, 303],
        is_lost: false,
        rest: 0,
        damage: Damage::None,
    },
    PacketFile {
        name: "junk",
        pids: MORE_PIDS,
        is_lost: false,
        rest: 0,
        damage: Damage::Junk(77),
    },
    PacketFile {
        name: "torn",
        pids: MORE_PIDS,
        is_lost: false,
        rest: 0,
        damage: Damage::Torn(5),
    },
    PacketFile {
        name: "wrong",
        pids: MORE_PIDS,
        is_lost: false,
        rest: 0,
        damage: Damage::Wrong(5),
    },
    PacketFile {
        name: "noise",
        pids: &[],
        is_lost: false,
        rest: 0,
        damage: Damage::Junk(500),
    },
];

/// All files.
pub(crate) fn files(alloc: Global) -> Result<FileList, AllocError> {
    let mut files = Vec::new(alloc);
    for file in &FILES {
        files.push(named(alloc, file)?)?;
    }
    Ok(FileList::of(files))
}

/// A file with its name.
fn named(alloc: Global, file: &PacketFile) -> Result<(NameText, FileBytes), AllocError> {
    let name = NameText::of(String::from_str(alloc, file.name)?);
    let bytes = bytes_of(alloc, file)?;
    Ok((name, FileBytes::of(bytes)))
}

fn bytes_of(alloc: Global, file: &PacketFile) -> Result<Vec<u8>, AllocError> {
    let mut bytes = Vec::new(alloc);
    push_packets(&mut bytes, file)?;
    Ok(bytes)
}

/// Appends the packets of a file.
fn push_packets(bytes: &mut Vec<u8>, file: &PacketFile) -> Result<(), AllocError> {
    if let Damage::Junk(count) = file.damage {
        push_packet(bytes, NO_SYNC, 8191, count)?;
    }
    for (index, pid) in file.pids.iter().enumerate() {
        push_damaged(bytes, file.damage, index, *pid)?;
    }
    if file.is_lost {
        push_packet(bytes, NO_SYNC, 8191, 188)?;
    }
    push_packet(bytes, SYNC, 8191, file.rest)
}

/// Appends the packet of an index, with the damage that it has.
fn push_damaged(
    bytes: &mut Vec<u8>,
    damage: Damage,
    index: usize,
    pid: u16,
) -> Result<(), AllocError> {
    match damage {
        Damage::Torn(torn) if torn == index => push_packet(bytes, SYNC, pid, 187),
        Damage::Wrong(wrong) if wrong == index => push_packet(bytes, NO_SYNC, pid, 188),
        _ => push_packet(bytes, SYNC, pid, 188),
    }
}

/// Appends the first bytes of a packet.
fn push_packet(bytes: &mut Vec<u8>, first: u8, pid: u16, count: usize) -> Result<(), AllocError> {
    let [high, low] = pid.to_be_bytes();
    for place in 0..count {
        let byte = match place {
            0 => first,
            1 => high,
            2 => low,
            3 => 0x10,
            _ => 0x55,
        };
        bytes.push(byte)?;
    }
    Ok(())
}
