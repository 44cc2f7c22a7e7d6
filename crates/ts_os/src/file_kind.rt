//! What kind of file an input or an output is, and how much is given to it at once.
ghost use Rattle.std.specs.Prelude.{◌≡◌};
ghost use Rattle.std.specs.Fs.{metadata_mode};
ghost use Rattle.ts_packet.specs.declared.numbers.TheConstants.{PACKET_SIZE};
ghost use Rattle.ts_os.specs.Pieces.{kind_of_mode, packets_at_once, bytes_at_once};

use std::fs::Metadata;
use std::io;
use std::os::unix::fs::MetadataExt;
use ts_packet::PACKET_SIZE;

/// The bits of a mode that tell the type of a file (inode(7)).
const TYPE_BITS: u32 = 0o170000;

/// The type of a regular file.
const REGULAR: u32 = 0o100000;

/// The type of a socket.
const SOCKET: u32 = 0o140000;

/// The most packets of one write to a pipe or a device: 3,948 bytes, which a pipe takes whole or not at all, since they are
/// fewer than the 4,096 of `PIPE_BUF`.
const PACKETS_TO_PIPE: usize = 21;

/// The most packets of one write to a socket, where each write may be a datagram.
const PACKETS_TO_SOCKET: usize = 7;

/// What kind of file the system says that an input or an output is, as far as it matters for how much is moved at once.
#[derive(Clone, Copy, PartialEq, Eq)]
pub(crate) enum FileKind {
    Regular,
    Socket,
    /// A pipe, a device or a folder.
    Other,
    /// The system did not say what it is.
    Untold,
}

impl FileKind {
    ghost use Rattle.std.specs.Prelude.{◌≢◌, ◌+◌, ◌*◌, ◌<◌, ◌≤◌, IfSome, MatchResult};
    ghost use Rattle.ts_os.specs.declared.file_kind.FileKind.TheVariants.{Untold};

    /// The kind of a file that the system was asked about.
    pub(crate) fn of(told: &io::Result<Metadata>) -> FileKind
        ensures { MatchResult told.now (λ told. result ≡ kind_of_mode (metadata_mode told)) (λ _. result ≡ Untold) }
    {
        match told {
            Ok(told) => FileKind::of_mode(told.mode()),
            Err(_) => FileKind::Untold,
        }
    }

    /// The kind of a file of this mode.
    fn of_mode(mode: u32) -> FileKind
        ensures { result ≡ kind_of_mode mode }
    {
        match mode & TYPE_BITS {
            REGULAR => FileKind::Regular,
            SOCKET => FileKind::Socket,
            _ => FileKind::Other,
        }
    }

    /// The most packets of one write; `None` where there is no such bound.
    fn packets_at_once(self) -> Option<usize>
        ensures { result ≡ packets_at_once self }
    {
        match self {
            FileKind::Regular => None,
            FileKind::Other => Some(PACKETS_TO_PIPE),
            FileKind::Socket | FileKind::Untold => Some(PACKETS_TO_SOCKET),
        }
    }

    /// How many bytes of a piece of so many the next write gives, where so many bytes of a packet were taken before: all, or
    /// as many as end with the last packet that a write may have. So a piece that ends with a packet is cut between packets
    /// alone, also after a write that took a part of one.
    pub(crate) fn bytes_at_once(self, begun: usize, bytes: usize) -> usize
        requires { begun < PACKET_SIZE }
        ensures exact { result ≡ bytes_at_once self begun bytes }
        ensures some { 0 < bytes → 0 < result }
        ensures within { result ≤ bytes }
        ensures whole { IfSome (packets_at_once self) (λ packets. result ≢ bytes → begun + result ≡ PACKET_SIZE * packets) }
        ensures few { IfSome (packets_at_once self) (λ packets. result ≤ PACKET_SIZE * packets) }
    {
        match self.packets_at_once() {
            Some(packets) => bytes.min(PACKET_SIZE * packets - begun),
            None => bytes,
        }
    }
}
