//! The task of a call of `tstabcomp`.
ghost use Rattle.std.specs.Prelude.{◌≡◌};
ghost use Rattle.tabcomp_top.specs.TabWords.{task_of};

/// What is to be done with the input.
#[derive(Drop, Clone, Copy, PartialEq, Eq)]
pub(crate) enum Task {
    /// A JSON text to the sections of its tables.
    Compile,
    /// Sections to the JSON text of their tables.
    Decompile,
    /// A JSON text to the one that its sections are decompiled to.
    Canonical,
}

impl Task {
    /// The task of a word; none where no task has it.
    pub(crate) fn of(word: &str) -> Option<Task>
        ensures { result ≡ task_of word.now }
    {
        match word {
            "--compile" => Some(Task::Compile),
            "--decompile" => Some(Task::Decompile),
            "--canonical" => Some(Task::Canonical),
            _ => None,
        }
    }
}
