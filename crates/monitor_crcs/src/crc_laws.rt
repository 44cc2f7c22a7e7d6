//! Laws of sections with a wrong CRC. They run nothing.
ghost use Rattle.std.specs.Prelude.{◌≡◌, ◌≢◌, ◌+◌, ◌<◌, ◌≤◌, ℕ, List, All, length, true, false};
ghost use Rattle.ts_section.specs.SectionFields.{is_long, section_length_of, table_id_of};
ghost use Rattle.ts_section.specs.ValidSection.{IsSection};
ghost use Rattle.monitor_crcs.specs.WrongCrcs.{has_crc, is_spoiled};

/// A law; it runs nothing. A valid section of the long form is not spoiled.
pub fn a_valid_section_is_not_spoiled()
    ensures { (piece : List ℕ) → IsSection piece → is_long piece ≡ true → is_spoiled piece ≡ false }
{}

/// A law; it runs nothing. A whole piece of the long form, with room for its head and its CRC and its numbers in order, that is
/// not spoiled is a valid section: a spoiled one lacks nothing but its CRC.
pub fn a_spoiled_piece_lacks_its_crc_alone()
    ensures { (piece : List ℕ) → All (λ x. x < 256) piece → table_id_of piece ≢ 255 → section_length_of piece ≤ 4093
        → length piece ≡ 3 + section_length_of piece → is_long piece ≡ true → has_crc piece ≡ true → is_spoiled piece ≡ false
        → IsSection piece }
{}
