//! Laws that follow from the clause of `tabcomp_call`.
ghost use Rattle.std.specs.Prelude.{◌≡◌, ◌≢◌, ◌⊎◌, ◌≤◌, ℕ, List, Ok, Err, Some, length};
ghost use Rattle.tabcomp_core.specs.declared.fault.DecompileFault.{DecompileFault};
ghost use Rattle.ts_outside.specs.Desk.{DeskView, content};
ghost use Rattle.ts_outside.specs.Faultless.{NothingFails};
ghost use Rattle.tabcomp_top.specs.TabWords.{Job, job_of};
ghost use Rattle.tabcomp_top.specs.Conversion.{converted};
ghost use Rattle.tabcomp_top.specs.TabCall.{CallsTab, most_bytes};
ghost use Rattle.tabcomp_top.specs.Causes.{HasCauses};
ghost use Rattle.tabcomp_top.specs.declared.status.TabStatus.{TabStatus};
ghost use Rattle.tabcomp_top.specs.declared.status.TabStatus.TheVariants.{Decompile, Done, NoMemory, Words};
ghost use Rattle.tabcomp_top.specs.declared.task.Task.TheVariants.{Canonical};

use tabcomp_core::compiled_is_decompiled;

/// The table of causes. Words that break the form are reported exactly, by the first that does. For all other
/// calls each status says its cause and comes exactly where that cause is there, apart from running out of memory and
/// failed reads and writes. The sections of a text are never refused: `--canonical` does not end with `Decompile`.
/// A law; it runs nothing.
pub fn causes()
    ensures words { (words : List (List ℕ)) (word : ℕ) (old new : DeskView) (status : TabStatus)
        → job_of words ≡ Err word → CallsTab words old new status → status ≡ Words word }
    ensures valid { (words : List (List ℕ)) (job : Job) (old new : DeskView) (status : TabStatus)
        → job_of words ≡ Ok job → CallsTab words old new status → HasCauses job old new status }
    ensures canonical { (text : List ℕ) (fault : DecompileFault)
        → converted Canonical text ≢ Err (Decompile fault) }
{
    compiled_is_decompiled();
}

/// A call with valid words, whose input is known, within its greatest size and convertible, and that meets no fault
/// outside, returns `Done` or `NoMemory`. A law; it runs nothing.
pub fn completeness()
    ensures { (words : List (List ℕ)) (job : Job) (file text : List ℕ)
        (old new : DeskView) (status : TabStatus)
        → job_of words ≡ Ok job → content old job.input ≡ Some file → length file ≤ most_bytes
        → converted job.task file ≡ Ok text
        → CallsTab words old new status → NothingFails old new
        → (status ≡ Done) ⊎ (status ≡ NoMemory) }
{
    compiled_is_decompiled();
}
