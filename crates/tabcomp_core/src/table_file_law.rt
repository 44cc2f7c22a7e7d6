//! The law of the faults of a file.
ghost use Rattle.std.specs.Prelude.{◌≡◌, ℕ, List, Err};
ghost use Rattle.tabcomp_core.specs.declared.fault.CompileFault.TheVariants.{NoMemory as NoMemoryForText};
ghost use Rattle.tabcomp_core.specs.declared.fault.DecompileFault.TheVariants.{NoMemory as NoMemoryForSections};
ghost use Rattle.tabcomp_core.specs.TableFiles.{sections_of_file};
ghost use Rattle.tabcomp_core.specs.declared.table_file_fault.TableFileFault.TheVariants.{Compile, Sections};

/// Running out of memory is not a reason for which a file has no sections. A law; it runs nothing.
pub fn memory_refuses_no_file()
    ensures text { (name bytes : List ℕ) → sections_of_file name bytes ≡ Err (Compile NoMemoryForText) → ⊥ }
    ensures sections { (name bytes : List ℕ) → sections_of_file name bytes ≡ Err (Sections NoMemoryForSections) → ⊥ }
{}
