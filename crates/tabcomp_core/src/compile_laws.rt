//! The law of texts and their sections.

ghost use Rattle.std.specs.Prelude.{◌≡◌, ℕ, List, Ok};
ghost use Rattle.tabcomp_core.specs.Compiling.{compiled};
ghost use Rattle.tabcomp_core.specs.ToldAgain.{IsToldAgain};

use ts_json_tables::{read_tables_are_valid, sections_tell_their_table};

/// What is compiled is decompiled: the sections that a text is compiled to are the sections of whole runs, and are
/// decompiled to the text of the tables that they give. These are the tables of the text, except that a table given by
/// its bytes becomes the table of its table_id where its sections read as that. A law; it runs nothing.
pub fn compiled_is_decompiled()
    ensures { (text sections : List ℕ) → compiled text ≡ Ok sections → IsToldAgain text sections }
{
    read_tables_are_valid();
    sections_tell_their_table();
}
