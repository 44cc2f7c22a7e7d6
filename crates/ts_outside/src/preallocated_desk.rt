//! A desk in memory that never fails.
ghost use Rattle.std.specs.Prelude.{◌≡◌, ◌<◌, ◌≤◌, ◌^◌, [], length, take, is_err, IsOk, IfOk, OnErr, IfSome};
ghost use Rattle.std.specs.Option.{option_copied, option_map};
ghost use Rattle.ts_outside.specs.declared.requests.Purpose.TheVariants.{Input, Output, File};
ghost use Rattle.ts_outside.specs.Told.{told_length};
ghost use Rattle.ts_outside.specs.Source.{own_bytes};
ghost use Rattle.ts_outside.specs.OpenFault.{MatchOpen};
ghost use Rattle.ts_outside.specs.FileFault.{MatchFile};
ghost use Rattle.ts_outside.specs.Desk.{stream_name, file_of, content, asked_well, asked_in_vain, input_closed, output_closed, report_failed, reports};
ghost use Rattle.ts_outside.specs.Preallocated.{counted, preallocated_desk, preallocated_sink, preallocated_source};

use crate::desks::Desk;
use crate::faults::{Failed, FileFault, OpenFault};
use crate::file_bytes::FileBytes;
use crate::file_list::FileList;
use crate::preallocated_sink::PreallocatedSink;
use crate::preallocated_source::PreallocatedSource;
use crate::stream_names::stream;
use std::alloc::{AllocError, Global};
use std::marker::Model;

/// A desk in memory that never fails: its files and what its sources have still to come are known, and of its outputs
/// and reports it keeps only the number of bytes.
///
/// An unknown name is an empty file.
#[derive(Drop)]
pub struct PreallocatedDesk {
    alloc: Global,
    files: FileList,
    written: u64,
    reported: u64,
}

impl Model for PreallocatedDesk {
    ghost use Rattle.ts_outside.specs.Preallocated.{PreallocatedDeskView};

    ghost Value = { PreallocatedDeskView };

    ghost view = { λ d. record { files = d.files; written = d.written; reported = d.reported } };
}

impl PreallocatedDesk {
    /// A desk with these files, at which nothing was written or reported yet.
    pub fn new(alloc: Global, files: FileList) -> Result<PreallocatedDesk, AllocError>
        ensures { IfOk result (λ d. d ≡ record { files = files; written = 0; reported = 0 }) }
    {
        Ok(PreallocatedDesk {
            alloc,
            files,
            written: 0,
            reported: 0,
        })
    }

    /// The number of bytes that the closed sinks took; it saturates at `u64::MAX`.
    pub fn written_count(&self) -> u64
        ensures { result ≡ self.now.written }
    {
        self.written
    }

    /// The number of bytes that were reported; it saturates at `u64::MAX`.
    pub fn reported_count(&self) -> u64
        ensures { result ≡ self.now.reported }
    {
        self.reported
    }
}

impl Desk for PreallocatedDesk {
    type In = PreallocatedSource;

    type Out = PreallocatedSink;

    ghost seen = { preallocated_desk };

    fn open_in(&mut self, name: Option<&str>) -> Result<PreallocatedSource, OpenFault>
        ensures asked { let named = stream_name (option_copied name.entry) in
            MatchOpen result
            (λ _. preallocated_desk self.new ≡ asked_well (preallocated_desk self.old) Input named)
            (preallocated_desk self.new ≡ asked_in_vain (preallocated_desk self.old) Input named)
            (preallocated_desk self.new ≡ preallocated_desk self.old) }
        ensures source { let named = stream_name (option_copied name.entry) in
            IfOk result (λ s. preallocated_source s ≡ record { left = content (preallocated_desk self.old) named; faults = 0; origin = own_bytes }) }
        ensures small { IfOk result (λ s. told_length (preallocated_source s).left < 2 ^ 63) }

        // It never fails.
        ensures preallocated { let named = stream_name (option_copied name.entry) in
            MatchOpen result (λ s. s ≡ file_of self.old.files named) ⊥ (Unit {0}) }
        ensures same { self.new ≡ self.old }
    {
        let bytes = Vec::from_slice(self.alloc, self.files.bytes_of(stream(name)))?;
        Ok(PreallocatedSource { bytes, at: 0 })
    }

    fn open_out(&mut self, name: Option<&str>) -> Result<PreallocatedSink, OpenFault>
        ensures asked { let named = stream_name (option_copied name.entry) in
            MatchOpen result
            (λ _. preallocated_desk self.new ≡ asked_well (preallocated_desk self.old) Output named)
            (preallocated_desk self.new ≡ asked_in_vain (preallocated_desk self.old) Output named)
            (preallocated_desk self.new ≡ preallocated_desk self.old) }
        ensures sink { let named = stream_name (option_copied name.entry) in
            let told = (preallocated_desk self.old).outputs in
            IfOk result (λ s. preallocated_sink s ≡
            record { taken = option_map (λ _. []) told; name = option_map (λ _. named) told; faults = 0 }) }

        // It never fails.
        ensures preallocated { result ≡ Ok 0 }
        ensures same { self.new ≡ self.old }
    {
        let _ = name;
        Ok(PreallocatedSink { taken: 0 })
    }

    fn close_in(&mut self, input: PreallocatedSource)
        ensures closed { preallocated_desk self.new ≡ input_closed (preallocated_desk self.old) (preallocated_source input) }
        ensures same { self.new ≡ self.old }
    {
        let PreallocatedSource { bytes: _, at: _ } = input;
    }

    fn close_out(&mut self, output: PreallocatedSink) -> Result<(), Failed>
        ensures closed { preallocated_desk self.new ≡ output_closed (preallocated_desk self.old) (preallocated_sink output) (is_err result) }

        // It never fails.
        ensures preallocated { IsOk result }
        ensures count { self.new ≡ record self.old { written = counted self.old.written output } }
    {
        let PreallocatedSink { taken } = output;
        self.written = self.written.saturating_add(taken);
        Ok(())
    }

    fn read_file(&mut self, name: Option<&str>, most: usize) -> Result<FileBytes, FileFault>
        ensures asked { let named = stream_name (option_copied name.entry) in
            MatchFile result
            (λ _. preallocated_desk self.new ≡ asked_well (preallocated_desk self.old) File named)
            (preallocated_desk self.new ≡ asked_well (preallocated_desk self.old) File named)
            (preallocated_desk self.new ≡ asked_in_vain (preallocated_desk self.old) File named)
            (preallocated_desk self.new ≡ preallocated_desk self.old) }
        ensures file { let file = content (preallocated_desk self.old) (stream_name (option_copied name.entry)) in
            MatchFile result
            (λ bytes. (length bytes ≤ most) × IfSome file (λ b. bytes ≡ b))
            (IfSome file (λ b. most < length b))
            (Unit {0})
            (Unit {0}) }

        // It never fails.
        ensures preallocated { MatchFile result (λ _. Unit {0}) (Unit {0}) ⊥ (Unit {0}) }
        ensures same { self.new ≡ self.old }
    {
        let file = self.files.bytes_of(stream(name));
        if file.len() > most {
            return Err(FileFault::TooMany);
        }
        Ok(FileBytes::of(Vec::from_slice(self.alloc, file)?))
    }

    fn report(&mut self, piece: &[u8]) -> Result<usize, Failed>
        requires { 0 < length piece.now }
        ensures some { IfOk result (λ n. 0 < n) }
        ensures within { IfOk result (λ n. n ≤ length piece.now) }
        ensures taken { IfOk result (λ n. preallocated_desk self.new ≡ reports (preallocated_desk self.old) (take n piece.now)) }
        ensures failed { OnErr result (preallocated_desk self.new ≡ report_failed (preallocated_desk self.old)) }

        // It never fails, and takes all.
        ensures preallocated { result ≡ Ok (length piece.now) }
        ensures count { self.new ≡ record self.old { reported = counted self.old.reported (length piece.now) } }
    {
        self.reported = self.reported.saturating_add(piece.len() as u64);
        Ok(piece.len())
    }
}
