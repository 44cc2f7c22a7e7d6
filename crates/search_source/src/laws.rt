//! A law of sources of packets that are found again.
ghost use Rattle.std.specs.Prelude.{◌≡◌, ◌<◌, ◌^◌, ◌++◌, ℕ, Bool, List, Some, false, length, option_to_list};
ghost use Rattle.std.specs.Option.{option_map};
ghost use Rattle.packet_forms.specs.declared.forms.Form.{Form};
ghost use Rattle.packet_search.specs.Rule.{deciding_bytes};
ghost use Rattle.ts_outside.specs.Told.{before};
ghost use Rattle.ts_outside.specs.Source.{SourceView};
ghost use Rattle.search_source.specs.declared.gap.Gap.{Gap};
ghost use Rattle.search_source.specs.Coming.{found_in, ungiven};
ghost use Rattle.search_source.specs.SearchView.{SearchView, plain, FoundThrough, FoundOf};
ghost use Rattle.search_source.specs.Kept.{KeptThrough, KeptTo, GapsTo, KeptOf};
ghost use Rattle.search_source.specs.Since.{NotedOf};
ghost use Rattle.search_source.specs.declared.noted_source.NotedSource.{NotedSource};

use crate::noted_source::NotedSource;
use ts_outside::Source;

/// After any reads of a file whose bytes are known, what was given and which gaps were taken is the first part of all that
/// is found in the file, and what is left of the file itself is told. A law; it runs nothing.
pub fn what_was_read()
    ensures { (form : Form) (file given : List ℕ) (gaps : List Gap) (old new : SearchView) (inner : SourceView)
        → old.coming ≡ Some (found_in form file) → old.origin ≡ record { unit = deciding_bytes form; bytes = Some file }
        → old.coming ≡ option_map (ungiven given gaps) new.coming → old.origin ≡ new.origin → FoundThrough new inner
        → FoundOf form file given gaps inner.left }
{}

/// After any reads of a file whose bytes are known, and where no gap was lost, each gap of the file that was not kept is
/// before a packet that was not begun. Where the search is over, all were kept, and what is left out behind the last packet
/// is known. A law; it runs nothing.
pub fn gaps_so_far()
    ensures { (form : Form) (file : List ℕ) (gaps : List Gap) (number behind : ℕ) (over : Bool) (new : SearchView) (inner : SourceView)
        → new.origin ≡ record { unit = deciding_bytes form; bytes = Some file } → length file < 2 ^ 63
        → KeptTo new inner false gaps number behind over → GapsTo form file gaps number behind over }
{}

/// After any reads of a file whose bytes are known, and where no gap was lost, each gap of the file that was not kept is
/// before a packet of which no byte was given. So the gaps before the packets that were given are among those kept, and
/// are all of them. A law; it runs nothing.
pub fn gaps_of_a_file()
    ensures { (form : Form) (file given : List ℕ) (gaps : List Gap) (old : SourceView) (new : SearchView) (inner : SourceView)
        → old.left ≡ Some (found_in form file).bytes → old.origin ≡ record { unit = deciding_bytes form; bytes = Some file }
        → old.left ≡ before given (plain new).left → old.origin ≡ new.origin → length file < 2 ^ 63
        → KeptThrough new inner false gaps → KeptOf form file given gaps }
{}

/// At any moment of the reading of a file whose bytes are known, and where no gap was lost: but for gaps before packets with a
/// lower number than `from`, each gap of the file that is not noted is before a packet of which no byte was given. A law; it
/// runs nothing.
pub fn gaps_noted_so_far<S: Source>()
    ensures { (source : NotedSource _ _) (form : Form) (file given : List ℕ) (old : SourceView)
        → let seen = ⟦<NotedSource<S> as Source>⟧.seen source in
        old.left ≡ Some (found_in form file).bytes → old.origin ≡ record { unit = deciding_bytes form; bytes = Some file }
        → old.left ≡ before given seen.left → old.origin ≡ seen.origin → length file < 2 ^ 63 → source.lost ≡ false
        → NotedOf form file given source.from (source.gaps.items ++ option_to_list source.source.finder.noted) }
{}
