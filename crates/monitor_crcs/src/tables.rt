//! The tables whose CRC is looked at.
ghost use Rattle.std.specs.Prelude.{◌≡◌};
ghost use Rattle.monitor_crcs.specs.WrongCrcs as wrong;

/// The table_id of a TOT, whose sections have a CRC though they are of the short form (ETSI EN 300 468, 5.2.6).
pub const TOT_ID: u8 = 0x73;

/// Whether a wrong CRC is an error with this table_id (ETSI TR 101 290, 5.2.2, 2.2): of the PAT, CAT, PMT, NIT, SDT, BAT, EIT
/// and TOT.
pub fn is_told(table_id: u8) -> bool
    ensures { result ≡ wrong.is_told table_id }
{
    matches!(
        table_id,
        0 | 1 | 2 | 64 | 65 | 66 | 70 | 74 | TOT_ID | 78..=111
    )
}
