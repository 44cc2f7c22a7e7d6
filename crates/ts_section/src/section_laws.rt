//! Laws of sections and of runs.

ghost use Rattle.std.specs.Prelude.{◌≡◌, ◌<◌, ◌≤◌, ℕ, Bool, true, false, List, [], ◌∷◌, length, All, slice_index_or};
ghost use Rattle.ts_section.specs.declared.long_head.LongHead.{LongHead};
ghost use Rattle.ts_section.specs.SectionFields.{is_long, head_fields};
ghost use Rattle.ts_section.specs.SectionRun.{stands_alone, SharesHead, IsTableRun};
ghost use Rattle.ts_section.specs.WrittenSection.{long_section, short_section, IsLongSectionOf, IsShortSectionOf};

/// A section built from a head and a body within their ranges is a valid section with that head and that
/// body. A law; it runs nothing.
pub fn made_sections_are_valid()
    ensures long { (head : LongHead) (body : List ℕ) → head.table_id < 255 → head.extension < 65536 →
        head.version < 32 → head.number ≤ head.last → head.last < 256 →
        All (λ x. x < 256) body → length body ≤ 4084 → IsLongSectionOf head body (long_section head body) }
    ensures short { (id : ℕ) (own : Bool) (body : List ℕ) → id < 255 → All (λ x. x < 256) body →
        length body ≤ 4093 → IsShortSectionOf id own body (short_section id own body) }
{}

/// A run whose first section is not alone has one head in all its sections, each of the long
/// form; any other run is that one section. A law; it runs nothing.
pub fn runs_share_their_head()
    ensures head { (first : List ℕ) (rest : List (List ℕ)) (k : ℕ) → IsTableRun (first ∷ rest) →
        stands_alone first ≡ false → k < length (first ∷ rest) →
        SharesHead (head_fields first) k (slice_index_or (first ∷ rest) k []) }
    ensures long { (s : List ℕ) → stands_alone s ≡ false → is_long s ≡ true }
    ensures alone { (first : List ℕ) (rest : List (List ℕ)) → IsTableRun (first ∷ rest) →
        stands_alone first ≡ true → rest ≡ [] }
{}
