//! What follows from the contract of `switch_call`, in terms of the switched list. Laws; they run nothing.
ghost use Rattle.std.specs.Prelude.{◌≡◌, ◌⊎◌, ◌*◌, ◌^◌, ◌≤◌, ℕ, List, Some, length, true};
ghost use Rattle.ts_outside.specs.Count.{HasCause};
ghost use Rattle.ts_outside.specs.Desk.{DeskView, file_of};
ghost use Rattle.ts_outside.specs.Faultless.{NothingFails};
ghost use Rattle.switch_args.specs.SwitchWords.{Given, read_of, IsFirstFault};
ghost use Rattle.switch_top.specs.declared.status.SwitchStatus.{SwitchStatus};
ghost use Rattle.switch_top.specs.declared.status.SwitchStatus.TheVariants.{Done, NoMemory, Words, ReadFault, WriteFault, Sync};
ghost use Rattle.switch_top.specs.SwitchCall.{CallsSwitch};
ghost use Rattle.switch_top.specs.SwitchEnds.{output_name, opened_as};
ghost use Rattle.switch_top.specs.SwitchPlans.{plays_of};
ghost use Rattle.switch_top.specs.SwitchTheorem.{lists_given, IsPureSwitch, WritesSwitched, WritesFirst, TellsWhole, NothingLate, AllEndPlainly, ReadFailed, StatusTells, RefusesWords};

use switch_args::{first_fault_law, words_read_back};

/// Whatever the files, the settings and the buffer, a call that meets no fault outside and does not run out of memory
/// writes the packets of the plays up to the first that does not end plainly, reports one line for each of them and the
/// end line, and returns how the last of them ended.
pub fn switched_whole()
    ensures { (words : List (List ℕ)) (given : Given) (files : List (List ℕ × List ℕ)) (old new : DeskView) (answer : SwitchStatus)
        → read_of words ≡ Some given → old.files ≡ Some files → CallsSwitch words old new answer → NothingFails old new
        → (answer ≡ NoMemory) ⊎ IsPureSwitch (lists_given given files) (output_name given.output) old new answer }
{
    first_fault_law();
}

/// Whatever fails, what is written begins the bytes of the switched list.
pub fn switched_first()
    ensures { (words : List (List ℕ)) (given : Given) (files : List (List ℕ × List ℕ)) (old new : DeskView) (answer : SwitchStatus)
        → read_of words ≡ Some given → old.files ≡ Some files → CallsSwitch words old new answer
        → WritesFirst (lists_given given files) (output_name given.output) old new }
{
    first_fault_law();
}

/// After `Done`, `Sync` and `TooLong` the whole list is written, also where a play after the last one failed; these statuses
/// are that of the list. Its report is what was reported, or begins it where a report failed. After `Done` no write and no
/// report failed.
pub fn switched_status()
    ensures whole { (words : List (List ℕ)) (given : Given) (files : List (List ℕ × List ℕ)) (old new : DeskView) (answer : SwitchStatus)
        → read_of words ≡ Some given → old.files ≡ Some files → CallsSwitch words old new answer → TellsWhole answer
        → WritesSwitched (lists_given given files) (output_name given.output) old new answer }
    ensures done { (words : List (List ℕ)) (old new : DeskView) → CallsSwitch words old new Done → NothingLate old new }
{
    first_fault_law();
}

/// Each fault that is returned has its cause: `Words` is returned exactly where the words are not of the form, and nothing is
/// opened then, `ReadFault` where a read failed and the failed opening or the closed source shows it, `WriteFault` where a
/// write, a closing or a report failed.
pub fn switched_faults()
    ensures words { (words : List (List ℕ)) (old new : DeskView) (word : ℕ) → CallsSwitch words old new (Words word)
        → IsFirstFault words word }
    ensures refused { (words : List (List ℕ)) (old new : DeskView) (answer : SwitchStatus) (word : ℕ) → IsFirstFault words word
        → CallsSwitch words old new answer → ((answer ≡ NoMemory) × (new ≡ old)) ⊎ RefusesWords word old new answer }
    ensures read { (words : List (List ℕ)) (given : Given) (old new : DeskView) → read_of words ≡ Some given
        → CallsSwitch words old new ReadFault
        → HasCause old.read_faults new.read_faults × ReadFailed (opened_as old (output_name given.output)) new }
    ensures write { (words : List (List ℕ)) (old new : DeskView) → CallsSwitch words old new WriteFault
        → HasCause old.write_faults new.write_faults ⊎ HasCause old.report_faults new.report_faults }
{
    first_fault_law();
}

/// Valid words whose plays all end plainly, and no rise of a count, give `Done`, or memory ran out.
pub fn switched_complete()
    ensures { (words : List (List ℕ)) (given : Given) (files : List (List ℕ × List ℕ)) (old new : DeskView) (answer : SwitchStatus)
        → read_of words ≡ Some given → old.files ≡ Some files → CallsSwitch words old new answer → NothingFails old new
        → AllEndPlainly (lists_given given files) → (answer ≡ Done) ⊎ (answer ≡ NoMemory) }
{
    first_fault_law();
}

/// Each status says how the last play that was played ended, and is returned for no other end. `Done` is returned only where
/// every play ends plainly, and `Sync` and `TooLong` only where the last one ended so.
///
/// Whatever failed, exactly the packets of the plays before it and those that it gave itself are written, after a failed write
/// also a part of the next packet, and exactly their lines and the end line are reported, or begin the report where that
/// failed. After a failed read the packets that it gave are those of what was read of it.
pub fn switched_ends()
    ensures { (words : List (List ℕ)) (given : Given) (files : List (List ℕ × List ℕ)) (old new : DeskView) (answer : SwitchStatus)
        → read_of words ≡ Some given → old.files ≡ Some files → CallsSwitch words old new answer
        → StatusTells given.resync files (plays_of given) (output_name given.output) old new answer }
{
    first_fault_law();
    words_read_back();
}

/// Where packets are found again, no play of a known file ends by lost sync; and every play ends plainly where no file has
/// more bytes than 2^60 packets have. So then only a fault outside ends the plays before the last one.
pub fn switched_found()
    ensures in_sync { (words : List (List ℕ)) (given : Given) (files : List (List ℕ × List ℕ)) (old new : DeskView) (input packet : ℕ)
        → read_of words ≡ Some given → given.resync ≡ true → old.files ≡ Some files
        → CallsSwitch words old new (Sync input packet) → ⊥ }
    ensures plain { (given : Given) (files : List (List ℕ × List ℕ)) → given.resync ≡ true
        → ((name : List ℕ) → length (file_of files name) ≤ 188 * 2 ^ 60) → AllEndPlainly (lists_given given files) }
{
    first_fault_law();
    words_read_back();
}
