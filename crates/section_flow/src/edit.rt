//! Edits of single sections.

use std::alloc::{AllocError, Global};
use ts_section::Section;

/// What an edit makes of a section.
#[derive(Drop)]
pub enum SectionChange {
    /// It is given as it came.
    Stays,
    /// Another section is given in its place.
    Becomes(Section),
    /// Nothing is given in its place.
    Goes,
}

/// An edit of sections, one by one. What becomes of a section depends on the edit's value and on the section alone; a
/// caller whose edit depends on the tables in force makes its value anew as they change.
pub trait SectionEdit {
    ghost use Rattle.std.specs.Prelude.{◌≡◌, ℕ, List, Option, IfOk};
    ghost use Rattle.section_flow.specs.FlowStands.{outcome};

    /// What becomes of a section: it as it is, another one, or none.
    ghost edited: { Self → List ℕ → Option (List ℕ) };

    /// Edits a section. If memory runs out, nothing of the result is left.
    fn edit(&self, alloc: Global, section: &Section) -> Result<SectionChange, AllocError>
        ensures { IfOk result (λ change. outcome section.now change ≡ edited self.now section.now) };
}
