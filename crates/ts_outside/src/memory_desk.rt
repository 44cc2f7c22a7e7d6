//! A desk in memory, for tests.
ghost use Rattle.std.specs.Prelude.{nat_lt, ◌||◌, if◌then◌else◌, ◌≡◌, ◌<◌, ◌≤◌, ◌^◌, ◌-◌, [], ◌∷◌, ◌++◌, Some, true, false, length, min, take, slice_get, is_err, IfOk, OnOk, OnErr, IfSome, MatchOption};
ghost use Rattle.ts_outside.specs.Count.{raised};
ghost use Rattle.std.specs.Option.{option_copied, option_map};
ghost use Rattle.std.specs.Vec.{vec_capacity};
ghost use Rattle.ts_outside.specs.declared.requests.Purpose.TheVariants.{Input, Output, File};
ghost use Rattle.ts_outside.specs.Told.{told_length};
ghost use Rattle.ts_outside.specs.Source.{own_bytes};
ghost use Rattle.ts_outside.specs.OpenFault.{MatchOpen};
ghost use Rattle.ts_outside.specs.FileFault.{MatchFile};
ghost use Rattle.ts_outside.specs.Desk.{stream_name, file_of, content, asked_well, asked_in_vain, input_closed, output_closed, report_failed, reports};
ghost use Rattle.ts_outside.specs.Memory.{close_fails, closed_a_sink, closed_a_source, desk_seen, in_failed, new_desk, new_sink, new_source, open_fails, opened, out_failed, report_count, report_fails, report_stood, reported_more, sink_seen, source_seen};

use crate::closed_inputs::{ClosedInput, ClosedInputs};
use crate::closed_outputs::{ClosedOutputs, Found};
use crate::counts::one_more;
use crate::desks::Desk;
use crate::fail_plan::FailPlan;
use crate::faults::{Failed, FileFault, OpenFault};
use crate::file_bytes::FileBytes;
use crate::file_list::FileList;
use crate::memory_sink::MemorySink;
use crate::memory_source::MemorySource;
use crate::name_text::NameText;
use crate::number_list::NumberList;
use crate::requests::{Asked, Purpose};
use crate::stream_names::stream;
use std::alloc::{AllocError, Global};
use std::marker::Model;
use std::mem;

/// A desk in memory, for tests: it keeps all that it was given, and contracts know all of it.
///
/// A call returns `Failed` exactly where its number is in the plan's list; `write` and `report` also where the room
/// is full. An unknown name is an empty file.
#[derive(Drop)]
pub struct MemoryDesk {
    alloc: Global,
    files: FileList,
    outputs: ClosedOutputs,
    reported: Vec<u8>,
    asked: Vec<Asked>,
    inputs: ClosedInputs,
    read_faults: u64,
    write_faults: u64,
    report_faults: u64,
    opens: u64,
    reports: u64,
    closes: u64,
    plan: FailPlan,
}

// What a source in memory is made of.
#[derive(Drop)]
struct SourceRoom {
    bytes: Vec<u8>,
    failing: NumberList,
    link: Box<ClosedInputs>,
}

// What a sink in memory is made of.
#[derive(Drop)]
struct SinkRoom {
    bytes: Vec<u8>,
    name: NameText,
    failing: NumberList,
    link: Box<ClosedOutputs>,
}

impl Model for MemoryDesk {
    ghost use Rattle.std.specs.Prelude.{ℕ, ◌<◌, ◌≤◌};
    ghost use Rattle.std.specs.Vec.{vec_capacity, vec_len};
    ghost use Rattle.ts_outside.specs.Memory.{MemoryDeskView, inputs_of, outputs_of};

    ghost Value = { MemoryDeskView };

    ghost view = { λ d. record {
      files = d.files;
      outputs = outputs_of d.outputs;
      reported = d.reported.items;
      asked = d.asked.items;
      closed_in = inputs_of d.inputs;
      read_faults = d.read_faults;
      write_faults = d.write_faults;
      report_faults = d.report_faults;
      opens = d.opens;
      reports = d.reports;
      closes = d.closes;
      plan = d.plan;
    } };

    // The room of the reports is reserved in `new`.
    ghost invariant = { λ d.
        (0 < d.plan.read_piece) × (0 < d.plan.write_piece)
        × (vec_len d.reported ≤ d.plan.room) × (d.plan.room ≤ vec_capacity d.reported) };
}

impl MemoryDesk {
    /// A desk with these files, at which nothing was requested yet.
    pub fn new(alloc: Global, files: FileList, fails: FailPlan) -> Result<MemoryDesk, AllocError>
        requires read_piece { 0 < fails.read_piece }
        requires write_piece { 0 < fails.write_piece }
        ensures { IfOk result (λ d. d ≡ new_desk files fails) }
    {
        let reported = Vec::with_capacity(alloc, fails.room)?;
        Ok(MemoryDesk {
            alloc,
            files,
            outputs: ClosedOutputs::Empty,
            reported,
            asked: Vec::new(alloc),
            inputs: ClosedInputs::Empty,
            read_faults: 0,
            write_faults: 0,
            report_faults: 0,
            opens: 0,
            reports: 0,
            closes: 0,
            plan: fails,
        })
    }

    /// The number of outputs that were closed; it saturates at `usize::MAX`.
    pub fn output_count(&self) -> usize
        ensures { result ≡ min (length self.now.outputs) (2 ^ 64 - 1) }
    {
        self.outputs.count()
    }

    /// The name and the bytes of the output with number `i`, from 0 in the order of closing; `None` exactly past the
    /// last one.
    pub fn output(&self, i: usize) -> Option<(&str, &[u8])>
        ensures { MatchOption result
            (length self.now.outputs ≤ i)
            (λ output. slice_get self.now.outputs i ≡ Some (output.0.now, output.1.now)) }
    {
        match self.outputs.find(i) {
            Found::Output(name, bytes) => Some((name, bytes)),
            Found::Past(_) => None,
        }
    }

    /// All bytes that were reported.
    pub fn reported(&self) -> &[u8]
        ensures { result.now ≡ self.now.reported }
    {
        self.reported.as_slice()
    }

    /// The number of names that were requested.
    pub fn asked_count(&self) -> usize
        ensures { result ≡ length self.now.asked }
    {
        self.asked.len()
    }

    /// Whether the plan makes the next open fail.
    fn next_open_fails(&self) -> bool
        ensures { result ≡ open_fails self.now }
    {
        self.plan.opens.has(one_more(self.opens))
    }

    /// Notes a request, and counts the call. `AllocError` changes nothing.
    fn note(&mut self, purpose: Purpose, name: &str, ok: bool) -> Result<(), AllocError>
        ensures noted { OnOk result (self.new ≡ record self.old {
          asked = self.old.asked ++ record { purpose = purpose; name = name.now; ok = ok } ∷ [];
          opens = raised self.old.opens;
        }) }
        ensures same { OnErr result (self.new ≡ self.old) }
    {
        let name = NameText::of(String::from_str(self.alloc, name)?);
        self.asked.push(Asked { purpose, name, ok })?;
        self.opens = one_more(self.opens);
        Ok(())
    }

    // The parts of a source over the file of this name.
    fn source_room(&self, named: &str) -> Result<SourceRoom, AllocError>
        ensures bytes { IfOk result (λ r. r.bytes.items ≡ file_of self.now.files named.now) }
        ensures failing { IfOk result (λ r. r.failing ≡ self.now.plan.reads) }
    {
        let bytes = Vec::from_slice(self.alloc, self.files.bytes_of(named))?;
        let failing = self.plan.reads.copy()?;
        let link = Box::new(self.alloc, ClosedInputs::Empty)?;
        Ok(SourceRoom {
            bytes,
            failing,
            link,
        })
    }

    // The parts of a sink with this name.
    fn sink_room(&self, named: &str) -> Result<SinkRoom, AllocError>
        ensures bytes { IfOk result (λ r. r.bytes.items ≡ []) }
        ensures room { IfOk result (λ r. self.now.plan.room ≤ vec_capacity r.bytes) }
        ensures name { IfOk result (λ r. r.name ≡ named.now) }
        ensures failing { IfOk result (λ r. r.failing ≡ self.now.plan.writes) }
    {
        let bytes = Vec::with_capacity(self.alloc, self.plan.room)?;
        let name = NameText::of(String::from_str(self.alloc, named)?);
        let failing = self.plan.writes.copy()?;
        let link = Box::new(self.alloc, ClosedOutputs::Empty)?;
        Ok(SinkRoom {
            bytes,
            name,
            failing,
            link,
        })
    }

    // Counts the closing of a sink with so many faults, and returns whether the plan makes it fail.
    fn count_closing(&mut self, faults: u64) -> bool
        ensures planned { result ≡ close_fails self.old }
        ensures counted { self.new ≡ record self.old {
          write_faults = if nat_lt 0 faults || close_fails self.old then raised self.old.write_faults else self.old.write_faults;
          closes = raised self.old.closes;
        } }
    {
        let fails = self.plan.closes.has(one_more(self.closes));
        self.closes = one_more(self.closes);
        if faults > 0 || fails {
            self.write_faults = one_more(self.write_faults);
        }
        fails
    }
}

impl Desk for MemoryDesk {
    type In = MemorySource;

    type Out = MemorySink;

    ghost seen = { desk_seen };

    fn open_in(&mut self, name: Option<&str>) -> Result<MemorySource, OpenFault>
        ensures asked { let named = stream_name (option_copied name.entry) in
            MatchOpen result
            (λ _. desk_seen self.new ≡ asked_well (desk_seen self.old) Input named)
            (desk_seen self.new ≡ asked_in_vain (desk_seen self.old) Input named)
            (desk_seen self.new ≡ desk_seen self.old) }
        ensures source { let named = stream_name (option_copied name.entry) in
            IfOk result (λ s. source_seen s ≡ record { left = content (desk_seen self.old) named; faults = 0; origin = own_bytes }) }
        ensures small { IfOk result (λ s. told_length (source_seen s).left < 2 ^ 63) }

        // Exactly where the plan says so, apart from running out of memory.
        ensures planned { let named = stream_name (option_copied name.entry) in
            MatchOpen result
            (λ s. (open_fails self.old ≡ false) × (self.new ≡ opened self.old Input named) × (s ≡ new_source self.old named))
            ((open_fails self.old ≡ true) × (self.new ≡ in_failed self.old Input named))
            (self.new ≡ self.old) }
    {
        let named = stream(name);
        if self.next_open_fails() {
            self.note(Purpose::Input, named, false)?;
            self.read_faults = one_more(self.read_faults);
            return Err(OpenFault::Failed);
        }
        let room = self.source_room(named)?;
        self.note(Purpose::Input, named, true)?;
        Ok(MemorySource {
            bytes: room.bytes,
            at: 0,
            faults: 0,
            calls: 0,
            failing: room.failing,
            piece: self.plan.read_piece,
            link: room.link,
        })
    }

    fn open_out(&mut self, name: Option<&str>) -> Result<MemorySink, OpenFault>
        ensures asked { let named = stream_name (option_copied name.entry) in
            MatchOpen result
            (λ _. desk_seen self.new ≡ asked_well (desk_seen self.old) Output named)
            (desk_seen self.new ≡ asked_in_vain (desk_seen self.old) Output named)
            (desk_seen self.new ≡ desk_seen self.old) }
        ensures sink { let named = stream_name (option_copied name.entry) in
            let told = (desk_seen self.old).outputs in
            IfOk result (λ s. sink_seen s ≡
            record { taken = option_map (λ _. []) told; name = option_map (λ _. named) told; faults = 0 }) }

        // Exactly where the plan says so, apart from running out of memory.
        ensures planned { let named = stream_name (option_copied name.entry) in
            MatchOpen result
            (λ s. (open_fails self.old ≡ false) × (self.new ≡ opened self.old Output named) × (s ≡ new_sink self.old named))
            ((open_fails self.old ≡ true) × (self.new ≡ out_failed self.old named))
            (self.new ≡ self.old) }
    {
        let named = stream(name);
        if self.next_open_fails() {
            self.note(Purpose::Output, named, false)?;
            self.write_faults = one_more(self.write_faults);
            return Err(OpenFault::Failed);
        }
        let room = self.sink_room(named)?;
        self.note(Purpose::Output, named, true)?;
        Ok(MemorySink {
            bytes: room.bytes,
            name: room.name,
            faults: 0,
            calls: 0,
            failing: room.failing,
            piece: self.plan.write_piece,
            room: self.plan.room,
            link: room.link,
        })
    }

    fn close_in(&mut self, input: MemorySource)
        ensures closed { desk_seen self.new ≡ input_closed (desk_seen self.old) (source_seen input) }
        ensures counted { self.new ≡ closed_a_source self.old input }
    {
        let MemorySource {
            bytes,
            at,
            faults,
            calls: _,
            failing: _,
            piece: _,
            mut link,
        } = input;
        let entry = ClosedInput {
            left: bytes.len() - at,
            failed: faults > 0,
        };
        if faults > 0 {
            self.read_faults = one_more(self.read_faults);
        }
        *link = mem::replace(&mut self.inputs, ClosedInputs::Empty);
        self.inputs = ClosedInputs::Behind(entry, link);
    }

    fn close_out(&mut self, output: MemorySink) -> Result<(), Failed>
        ensures closed { desk_seen self.new ≡ output_closed (desk_seen self.old) (sink_seen output) (is_err result) }

        // Exactly where the plan says so.
        ensures planned { is_err result ≡ close_fails self.old }
        ensures counted { self.new ≡ closed_a_sink self.old output }
    {
        let fails = self.count_closing(output.faults);
        let MemorySink {
            bytes,
            name,
            faults: _,
            calls: _,
            failing: _,
            piece: _,
            room: _,
            mut link,
        } = output;
        *link = mem::replace(&mut self.outputs, ClosedOutputs::Empty);
        self.outputs = ClosedOutputs::Behind(name, FileBytes::of(bytes), link);
        if fails { Err(Failed) } else { Ok(()) }
    }

    fn read_file(&mut self, name: Option<&str>, most: usize) -> Result<FileBytes, FileFault>
        ensures asked { let named = stream_name (option_copied name.entry) in
            MatchFile result
            (λ _. desk_seen self.new ≡ asked_well (desk_seen self.old) File named)
            (desk_seen self.new ≡ asked_well (desk_seen self.old) File named)
            (desk_seen self.new ≡ asked_in_vain (desk_seen self.old) File named)
            (desk_seen self.new ≡ desk_seen self.old) }
        ensures file { let file = content (desk_seen self.old) (stream_name (option_copied name.entry)) in
            MatchFile result
            (λ bytes. (length bytes ≤ most) × IfSome file (λ b. bytes ≡ b))
            (IfSome file (λ b. most < length b))
            (Unit {0})
            (Unit {0}) }

        // Exactly where the plan says so, apart from running out of memory.
        ensures planned { let named = stream_name (option_copied name.entry) in
            MatchFile result
            (λ _. (open_fails self.old ≡ false) × (self.new ≡ opened self.old File named))
            ((open_fails self.old ≡ false) × (self.new ≡ opened self.old File named))
            ((open_fails self.old ≡ true) × (self.new ≡ in_failed self.old File named))
            (self.new ≡ self.old) }
    {
        let named = stream(name);
        if self.next_open_fails() {
            self.note(Purpose::File, named, false)?;
            self.read_faults = one_more(self.read_faults);
            return Err(FileFault::Failed);
        }
        let file = self.files.bytes_of(named);
        if file.len() > most {
            self.note(Purpose::File, named, true)?;
            return Err(FileFault::TooMany);
        }
        let bytes = Vec::from_slice(self.alloc, file)?;
        self.note(Purpose::File, named, true)?;
        Ok(FileBytes::of(bytes))
    }

    fn report(&mut self, piece: &[u8]) -> Result<usize, Failed>
        requires { 0 < length piece.now }
        ensures some { IfOk result (λ n. 0 < n) }
        ensures within { IfOk result (λ n. n ≤ length piece.now) }
        ensures taken { IfOk result (λ n. desk_seen self.new ≡ reports (desk_seen self.old) (take n piece.now)) }
        ensures failed { OnErr result (desk_seen self.new ≡ report_failed (desk_seen self.old)) }

        // Exactly where the plan or the room says so, and exactly as many bytes as may be taken.
        ensures planned { is_err result ≡ report_fails self.old }
        ensures count { IfOk result (λ n. n ≡ report_count self.old (length piece.now)) }
        ensures reported { IfOk result (λ n. self.new ≡ reported_more self.old (take n piece.now)) }
        ensures stood { OnErr result (self.new ≡ report_stood self.old) }
    {
        let planned = self.plan.reports.has(one_more(self.reports));
        let left = self.plan.room - self.reported.len();
        self.reports = one_more(self.reports);
        if planned || left == 0 {
            self.report_faults = one_more(self.report_faults);
            return Err(Failed);
        }
        let count = piece.len().min(self.plan.write_piece).min(left);
        self.reported.extend_from_slice(&piece[..count]).unwrap();
        Ok(count)
    }
}
