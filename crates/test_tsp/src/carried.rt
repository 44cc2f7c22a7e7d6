//! The tables that packets of the rows on editors carry.
use crate::event_tables::EventTable;
use crate::listed_tables::ListedTable;
use crate::named_tables::NamedTable;
use crate::network_tables::NetworkTable;
use crate::time_tables::TimeTable;

/// A PAT with the service 1 on PID 4096.
static PAT: [u8; 16] = [
    0x00, 0xB0, 0x0D, 0x00, 0x01, 0xC1, 0x00, 0x00, 0x00, 0x01, 0xF0, 0x00, 0x2A, 0xB1, 0x04, 0xB2,
];

/// A PAT of version 1 of the same stream, with the service 2 on PID 4097.
static NEXT_PAT: [u8; 16] = [
    0x00, 0xB0, 0x0D, 0x00, 0x01, 0xC3, 0x00, 0x00, 0x00, 0x02, 0xF0, 0x01, 0xB2, 0xB7, 0x3C, 0xAE,
];

/// A PAT with the service 1 on PID 4096 and again on PID 4097, and the service 2 on PID 4096.
static SHARED_PAT: [u8; 24] = [
    0x00, 0xB0, 0x15, 0x00, 0x01, 0xC1, 0x00, 0x00, 0x00, 0x01, 0xF0, 0x00, 0x00, 0x01, 0xF0, 0x01,
    0x00, 0x02, 0xF0, 0x00, 0x76, 0x26, 0x2C, 0x99,
];

/// A PAT of version 1 of the same stream, with the service 1 on PID 4097.
static MOVED_PAT: [u8; 16] = [
    0x00, 0xB0, 0x0D, 0x00, 0x01, 0xC3, 0x00, 0x00, 0x00, 0x01, 0xF0, 0x01, 0xB0, 0xDE, 0xC9, 0x27,
];

/// A CAT of version 3 without descriptors.
static CAT: [u8; 12] = [
    0x01, 0xB0, 0x09, 0xFF, 0xFF, 0xC7, 0x00, 0x00, 0xD2, 0xBE, 0x49, 0x50,
];

/// A PMT of service 1 with its PCR and a component of type 3 on PID 257.
static PMT: [u8; 21] = [
    0x02, 0xB0, 0x12, 0x00, 0x01, 0xC1, 0x00, 0x00, 0xE1, 0x01, 0xF0, 0x00, 0x03, 0xE1, 0x01, 0xF0,
    0x00, 0x8D, 0xFF, 0x34, 0x11,
];

/// A PMT of service 1 without a PCR, and with a component of type 3 on PID 300.
static PMT_OF_300: [u8; 21] = [
    0x02, 0xB0, 0x12, 0x00, 0x01, 0xC1, 0x00, 0x00, 0xFF, 0xFF, 0xF0, 0x00, 0x03, 0xE1, 0x2C, 0xF0,
    0x00, 0x31, 0xD2, 0x0E, 0x2E,
];

/// A PMT of service 2 with its PCR and a component of type 3 on PID 258.
static PMT_OF_2: [u8; 21] = [
    0x02, 0xB0, 0x12, 0x00, 0x02, 0xC1, 0x00, 0x00, 0xE1, 0x02, 0xF0, 0x00, 0x03, 0xE1, 0x02, 0xF0,
    0x00, 0x5E, 0x59, 0x43, 0x7E,
];

/// An SDT of version 31 without services.
static SDT: [u8; 15] = [
    0x42, 0xF0, 0x0C, 0x00, 0x01, 0xFF, 0x00, 0x00, 0x00, 0x01, 0xFF, 0x59, 0xC2, 0xAC, 0xFD,
];

/// The same of another transport stream.
static OTHER_SDT: [u8; 15] = [
    0x42, 0xF0, 0x0C, 0x00, 0x02, 0xFF, 0x00, 0x00, 0x00, 0x01, 0xFF, 0x88, 0x3B, 0x14, 0xCE,
];

/// A NIT without descriptors and without transport streams.
static NIT: [u8; 16] = [
    0x40, 0xF0, 0x0D, 0x00, 0x01, 0xC1, 0x00, 0x00, 0xF0, 0x00, 0xF0, 0x00, 0x3B, 0x85, 0x84, 0x02,
];

/// A table of one section.
#[derive(Clone, Copy)]
pub(crate) enum Carried {
    Pat,
    NextPat,
    SharedPat,
    MovedPat,
    Cat,
    Pmt,
    PmtOf300,
    /// That of service 1, on PID 4097.
    PmtOnNext,
    PmtOf2,
    Sdt,
    OtherSdt,
    Nit,
    /// One with names and descriptors.
    Named(NamedTable),
    /// One of a network or a bouquet, or an EIT section.
    Network(NetworkTable),
    /// A NIT or a BAT that lists services.
    Listed(ListedTable),
    /// An EIT section with events.
    Events(EventTable),
    /// One of times and running states, of the short form.
    Time(TimeTable),
}

impl Carried {
    /// The PID of the packets that carry it.
    pub(crate) fn pid(self) -> u16 {
        match self {
            Carried::Pat | Carried::NextPat | Carried::SharedPat | Carried::MovedPat => 0,
            Carried::Cat => 1,
            Carried::Pmt | Carried::PmtOf300 | Carried::PmtOf2 => 4096,
            Carried::PmtOnNext => 4097,
            Carried::Sdt | Carried::OtherSdt => 17,
            Carried::Nit => 16,
            Carried::Events(_) => 18,
            Carried::Named(table) => table.pid(),
            Carried::Network(table) => table.pid(),
            Carried::Listed(table) => table.pid(),
            Carried::Time(table) => table.pid(),
        }
    }

    /// Its section.
    pub(crate) fn section(self) -> &'static [u8] {
        match self {
            Carried::Pat => &PAT,
            Carried::NextPat => &NEXT_PAT,
            Carried::SharedPat => &SHARED_PAT,
            Carried::MovedPat => &MOVED_PAT,
            Carried::Cat => &CAT,
            Carried::Pmt | Carried::PmtOnNext => &PMT,
            Carried::PmtOf300 => &PMT_OF_300,
            Carried::PmtOf2 => &PMT_OF_2,
            Carried::Sdt => &SDT,
            Carried::OtherSdt => &OTHER_SDT,
            Carried::Nit => &NIT,
            Carried::Named(table) => table.section(),
            Carried::Network(table) => table.section(),
            Carried::Events(table) => table.section(),
            Carried::Listed(table) => table.section(),
            Carried::Time(table) => table.section(),
        }
    }
}
