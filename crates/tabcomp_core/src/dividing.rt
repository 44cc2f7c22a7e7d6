//! Dividing sections into the runs of whole tables.

ghost use Rattle.std.specs.Prelude.{◌≡◌, ◌+◌, ◌++◌, ◌∷◌, [], ◌^◌, ◌<◌, ◌≤◌, length, List, ℕ, Ok, Err, IfOk, IfErr};
ghost use Rattle.ts_section.specs.ValidSection.{IsSection};
ghost use Rattle.ts_section.specs.SectionRun.{IsTableRun, IsRunFault};
ghost use Rattle.tabcomp_core.specs.declared.dividing.NoRuns.TheVariants.{NoMemory};
ghost use Rattle.tabcomp_core.specs.Dividing;
ghost use Rattle.tabcomp_core.specs.Dividing.{AreRuns, ClosesRun, Divides, IsWithin, StopsAt, runs_in};

use std::alloc::{AllocError, AllocFailed, Global};
use std::mem;
use ts_section::{RunFault, Section, TableRun};

/// Why sections are not runs.
#[derive(Clone, Copy)]
pub enum NoRuns {
    /// At this section, or at the end, no run continues.
    Place(usize),
    /// Out of memory.
    NoMemory,
}

impl From<AllocError> for NoRuns {
    ghost from_gives = { λ _ fault. fault ≡ NoMemory };

    fn from(_error: AllocError) -> NoRuns {
        NoRuns::NoMemory
    }
}

impl<T: Drop> From<AllocFailed<T>> for NoRuns {
    ghost from_gives = { λ _ fault. fault ≡ NoMemory };

    fn from(_error: AllocFailed<T>) -> NoRuns {
        NoRuns::NoMemory
    }
}

/// The number of sections of the run that begins with this one.
fn whole_size(first: &Section) -> usize
    ensures { result ≡ Dividing.whole_size first.now }
{
    match first.head() {
        None => 1,
        Some(head) if 0x4E <= head.table_id && head.table_id <= 0x6F => 1,
        Some(head) => usize::from(head.last) + 1,
    }
}

/// Whether a run that has begun has all its sections.
fn is_full(begun: &[Section]) -> bool
    ensures { result ≡ Dividing.is_full begun.now }
{
    match begun.first() {
        Some(first) => begun.len() == whole_size(first),
        None => false,
    }
}

/// The run of these sections, the first of which has this index.
fn run_at(place: usize, sections: Vec<Section>) -> Result<TableRun, NoRuns>
    requires { place + length sections.items < 2 ^ 64 }
    ensures { ClosesRun place sections.items (λ run. run) result }
{
    match TableRun::of(sections) {
        Ok(run) => Ok(run),
        Err(RunFault { place: within }) => Err(NoRuns::Place(place + within)),
    }
}

/// The runs of the sections, one after another; or the place at which no run continues.
pub fn runs_of(alloc: Global, sections: Vec<Section>) -> Result<Vec<TableRun>, NoRuns>
    ensures divided { Divides (λ v. v.items) result (runs_in sections.items) }
    ensures within { IfErr result (IsWithin (length sections.items)) }
{
    let mut runs = Vec::new(alloc);
    let mut begun = Vec::new(alloc);
    let mut place = 0;
    for section in sections {
        begun.push(section)?;
        if is_full(&begun) {
            let whole = mem::replace(&mut begun, Vec::new(alloc));
            let size = whole.len();
            let run = run_at(place, whole)?;
            runs.push(run)?;
            place += size;
        }
    }
    if begun.is_empty() {
        return Ok(runs);
    }
    let run = run_at(place, begun)?;
    runs.push(run)?;
    Ok(runs)
}

/// Sections are divided in one way: the runs are whole runs that join to the sections, there are no others, and
/// where there are none, no run continues. A law; it runs nothing.
pub fn runs_are_told()
    ensures whole { (ss : List (List ℕ)) (runs : List (List (List ℕ))) → runs_in ss ≡ Ok runs → AreRuns runs ss }
    ensures only { (ss : List (List ℕ)) (runs : List (List (List ℕ))) → AreRuns runs ss → runs_in ss ≡ Ok runs }
    ensures stops { (ss : List (List ℕ)) (place : ℕ) → runs_in ss ≡ Err place → StopsAt ss place }
{}
