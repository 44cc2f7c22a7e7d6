//! The files and standard streams of the system, as a desk.
ghost use Rattle.std.specs.Prelude.{◌≡◌, ◌<◌, ◌≤◌, ◌^◌, ◌||◌, [], false, length, take, is_err, vec_len, vec_capacity, IfOk, OnOk, OnErr, IfSome};
ghost use Rattle.std.specs.Option.{option_copied, option_map};
ghost use Rattle.std.specs.Str.{bytes_eq};
ghost use Rattle.ts_outside.specs.declared.requests.Purpose.TheVariants.{Input, Output, File as Whole};
ghost use Rattle.ts_outside.specs.Told.{told_length};
ghost use Rattle.ts_outside.specs.Source.{own_bytes};
ghost use Rattle.ts_outside.specs.OpenFault.{MatchOpen};
ghost use Rattle.ts_outside.specs.FileFault.{MatchFile};
ghost use Rattle.ts_outside.specs.Desk.{stream_name, content, asked_well, asked_in_vain, input_closed, output_closed, report_failed, reports};
ghost use Rattle.ts_os.specs.Untold.{untold_desk, untold_sink, untold_source};

use crate::calls::write_some;
use crate::noted::Noted;
use crate::open_files::OpenFiles;
use crate::opening::{open_input, protect_named, with_room};
use crate::os_sink::OsSink;
use crate::os_source::OsSource;
use crate::reason::Reason;
use std::alloc::AllocError;
use std::marker::Model;
use ts_outside::{
    Desk, Failed, FileBytes, FileFault, NameText, OpenFault, Purpose, one_more, read_to_end,
};

/// The files and standard streams of the system. Contracts see no content of it, only its counts of faults and where
/// reports go.
///
/// Reports go to standard error once `open_out` was asked for the standard stream, and to standard output otherwise.
/// An output file is made if it is absent. If it is there it is emptied before the first byte is written, or when it is
/// closed. Which regular files may be opened, under whatever names, `OpenFiles` says; one that is refused stays as it is. If
/// nothing was written to an output when it was asked for as an input, closing it leaves it as it is.
#[derive(Drop)]
pub struct OsDesk {
    rt: HostRuntime,
    files: OpenFiles,
    noted: Noted,
    read_faults: u64,
    write_faults: u64,
    report_faults: u64,
    aside: bool,
}

impl Model for OsDesk {
    ghost use Rattle.ts_os.specs.Untold.{OsDeskView};

    ghost Value = { OsDeskView };

    ghost view = { λ d. record {
      read_faults = d.read_faults;
      write_faults = d.write_faults;
      report_faults = d.report_faults;
      aside = d.aside;
    } };
}

impl OsDesk {
    /// The desk of this process, at which nothing failed yet.
    pub fn new(rt: HostRuntime) -> OsDesk
        ensures { result ≡ record { read_faults = 0; write_faults = 0; report_faults = 0; aside = false } }
    {
        OsDesk {
            rt,
            files: OpenFiles::new(rt.alloc()),
            noted: Noted::new(rt.alloc()),
            read_faults: 0,
            write_faults: 0,
            report_faults: 0,
            aside: false,
        }
    }

    /// Protects the regular files of these names: none of them is opened as an output from now on. `Err` means out of memory,
    /// and changes nothing. Which files these are, the system says for each name, and no clause.
    pub fn protect(&mut self, names: &[NameText]) -> Result<(), AllocError>
        ensures { self.new ≡ self.old }
    {
        protect_named(&self.rt, &mut self.files, names)
    }

    /// From now on the bytes of the file that was read last are noted.
    pub fn keep_file(&mut self)
        ensures { self.new ≡ self.old }
    {
        self.noted.keep_file();
    }

    /// What was noted of calls that failed.
    pub fn noted(&self) -> &Noted {
        &self.noted
    }
}

impl Desk for OsDesk {
    type In = OsSource;

    type Out = OsSink;

    ghost seen = { untold_desk };

    fn open_in(&mut self, name: Option<&str>) -> Result<OsSource, OpenFault>
        ensures asked { let named = stream_name (option_copied name.entry) in
            MatchOpen result
            (λ _. untold_desk self.new ≡ asked_well (untold_desk self.old) Input named)
            (untold_desk self.new ≡ asked_in_vain (untold_desk self.old) Input named)
            (untold_desk self.new ≡ untold_desk self.old) }
        ensures source { let named = stream_name (option_copied name.entry) in
            IfOk result (λ s. untold_source s ≡ record { left = content (untold_desk self.old) named; faults = 0; origin = own_bytes }) }
        ensures small { IfOk result (λ s. told_length (untold_source s).left < 2 ^ 63) }
        ensures aside { self.new.aside ≡ self.old.aside }
    {
        if self.files.reserve_input().is_err() {
            return Err(OpenFault::NoMemory);
        }
        let number = self.noted.next_input();
        match open_input(&self.rt, &mut self.files, name.unwrap_or(""), number) {
            Ok(source) => with_room(self.rt.alloc(), source),
            Err(reason) => {
                self.noted.note(Purpose::Input, number, reason);
                self.read_faults = one_more(self.read_faults);
                Err(OpenFault::Failed)
            }
        }
    }

    fn open_out(&mut self, name: Option<&str>) -> Result<OsSink, OpenFault>
        ensures asked { let named = stream_name (option_copied name.entry) in
            MatchOpen result
            (λ _. untold_desk self.new ≡ asked_well (untold_desk self.old) Output named)
            (untold_desk self.new ≡ asked_in_vain (untold_desk self.old) Output named)
            (untold_desk self.new ≡ untold_desk self.old) }
        ensures sink { let named = stream_name (option_copied name.entry) in
            let told = (untold_desk self.old).outputs in
            IfOk result (λ s. untold_sink s ≡
            record { taken = option_map (λ _. []) told; name = option_map (λ _. named) told; faults = 0 }) }

        // From the first opening of the standard stream on, reports keep out of it.
        ensures aside { let named = stream_name (option_copied name.entry) in
            self.new.aside ≡ (self.old.aside || bytes_eq named []) }
    {
        let named = name.unwrap_or("");
        if named.is_empty() {
            self.aside = true;
        }
        if self.files.reserve_output().is_err() {
            return Err(OpenFault::NoMemory);
        }
        match OsSink::open(&self.rt, named, &self.files) {
            Ok(sink) => {
                if let Some(file) = sink.file {
                    self.files.written_to(file);
                }
                Ok(sink)
            }
            Err(reason) => {
                self.noted.note(Purpose::Output, 1, reason);
                self.write_faults = one_more(self.write_faults);
                Err(OpenFault::Failed)
            }
        }
    }

    fn close_in(&mut self, input: OsSource)
        ensures closed { untold_desk self.new ≡ input_closed (untold_desk self.old) (untold_source input) }
        ensures aside { self.new.aside ≡ self.old.aside }
    {
        let OsSource {
            from: _,
            kind: _,
            file,
            ahead: _,
            faults,
            reason,
            number,
            head,
        } = input;
        self.noted.note_head(head);
        self.noted.note_if(Purpose::Input, number, reason);
        if let Some(id) = file {
            self.files.closed_in(id);
        }
        if faults > 0 {
            self.read_faults = one_more(self.read_faults);
        }
    }

    fn close_out(&mut self, output: OsSink) -> Result<(), Failed>
        ensures closed { untold_desk self.new ≡ output_closed (untold_desk self.old) (untold_sink output) (is_err result) }
        ensures aside { self.new.aside ≡ self.old.aside }
    {
        let OsSink {
            to,
            kind: _,
            begun: _,
            file,
            full,
            faults,
            reason,
        } = output;
        self.noted.note_if(Purpose::Output, 1, reason);
        let wanted = match file {
            Some(id) => self.files.closed_out(id),
            None => false,
        };
        let closed = wanted || !full || to.empty();
        if faults > 0 || !closed {
            self.write_faults = one_more(self.write_faults);
        }
        if closed { Ok(()) } else { Err(Failed) }
    }

    fn read_file(&mut self, name: Option<&str>, most: usize) -> Result<FileBytes, FileFault>
        ensures asked { let named = stream_name (option_copied name.entry) in
            MatchFile result
            (λ _. untold_desk self.new ≡ asked_well (untold_desk self.old) Whole named)
            (untold_desk self.new ≡ asked_well (untold_desk self.old) Whole named)
            (untold_desk self.new ≡ asked_in_vain (untold_desk self.old) Whole named)
            (untold_desk self.new ≡ untold_desk self.old) }
        ensures file { let file = content (untold_desk self.old) (stream_name (option_copied name.entry)) in
            MatchFile result
            (λ bytes. (length bytes ≤ most) × IfSome file (λ b. bytes ≡ b))
            (IfSome file (λ b. most < length b))
            (Unit {0})
            (Unit {0}) }
        ensures aside { self.new.aside ≡ self.old.aside }
    {
        let number = self.noted.next_file();
        let read = match OsSource::open(&self.rt, name.unwrap_or(""), number) {
            Ok(mut source) => {
                let read = read_to_end(self.rt.alloc(), &mut source, most);
                self.noted
                    .note_if(Purpose::File, number, source.into_reason());
                read
            }
            Err(reason) => {
                self.noted.note(Purpose::File, number, reason);
                Err(FileFault::Failed)
            }
        };
        match &read {
            Ok(bytes) => self.noted.note_file(bytes.as_slice()),
            Err(FileFault::Failed) => self.read_faults = one_more(self.read_faults),
            Err(_) => {}
        }
        read
    }

    fn report(&mut self, piece: &[u8]) -> Result<usize, Failed>
        requires { 0 < length piece.now }
        ensures some { IfOk result (λ n. 0 < n) }
        ensures within { IfOk result (λ n. n ≤ length piece.now) }
        ensures taken { IfOk result (λ n. untold_desk self.new ≡ reports (untold_desk self.old) (take n piece.now)) }
        ensures failed { OnErr result (untold_desk self.new ≡ report_failed (untold_desk self.old)) }
        ensures aside { self.new.aside ≡ self.old.aside }
    {
        let moved = if self.aside {
            write_some(&mut self.rt.stderr(), piece)
        } else {
            write_some(&mut self.rt.stdout(), piece)
        };
        match moved {
            Ok(count) => Ok(count),
            Err(_) => {
                self.report_faults = one_more(self.report_faults);
                Err(Failed)
            }
        }
    }
}
