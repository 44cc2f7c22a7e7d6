//! The trait of the outside of a program.
ghost use Rattle.std.specs.Prelude.{◌≡◌, ◌<◌, ◌≤◌, ◌^◌, [], Some, length, take, is_err, IfOk, OnErr, IfSome};
ghost use Rattle.std.specs.Option.{option_copied, option_map};
ghost use Rattle.ts_outside.specs.Told.{told_length};
ghost use Rattle.ts_outside.specs.Source.{own_bytes};
ghost use Rattle.ts_outside.specs.OpenFault.{MatchOpen};
ghost use Rattle.ts_outside.specs.FileFault.{MatchFile};
ghost use Rattle.ts_outside.specs.declared.requests.Purpose.TheVariants.{Input, Output, File};
ghost use Rattle.ts_outside.specs.Desk.{DeskView, stream_name, content, asked_well, asked_in_vain, input_closed, output_closed, reports, report_failed};

use crate::faults::{Failed, FileFault, OpenFault};
use crate::file_bytes::FileBytes;
use crate::sinks::Sink;
use crate::sources::Source;

/// The outside of a program: its files, its standard streams and its reports.
///
/// No name and the empty name mean the standard stream. After each call contracts see the desk as it was before,
/// except for what the one equation of that call names.
pub trait Desk {
    type In: Source + Send;

    type Out: Sink + Send;

    // What contracts see: files, outputs, reports, requests and closed inputs, each known or not, and counts of faults.
    ghost seen: { Self → DeskView };

    /// Opens a source of the bytes of this name.
    ///
    /// `Failed` raises the count of faults of the inputs. `NoMemory` changes nothing.
    fn open_in(&mut self, name: Option<&str>) -> Result<Self::In, OpenFault>
        ensures asked { let named = stream_name (option_copied name.entry) in
            MatchOpen result
            (λ _. seen self.new ≡ asked_well (seen self.old) Input named)
            (seen self.new ≡ asked_in_vain (seen self.old) Input named)
            (seen self.new ≡ seen self.old) }
        ensures source { let named = stream_name (option_copied name.entry) in
            IfOk result (λ s. Self.In.seen s ≡ record { left = content (seen self.old) named; faults = 0; origin = own_bytes }) }

        // Where its bytes are known they are fewer than 2^63: no machine holds more.
        ensures small { IfOk result (λ s. told_length (Self.In.seen s).left < 2 ^ 63) };

    /// Opens a sink of this name, which has taken nothing.
    ///
    /// `Failed` raises the count of faults of the outputs. `NoMemory` changes nothing.
    fn open_out(&mut self, name: Option<&str>) -> Result<Self::Out, OpenFault>
        ensures asked { let named = stream_name (option_copied name.entry) in
            MatchOpen result
            (λ _. seen self.new ≡ asked_well (seen self.old) Output named)
            (seen self.new ≡ asked_in_vain (seen self.old) Output named)
            (seen self.new ≡ seen self.old) }
        ensures sink { let named = stream_name (option_copied name.entry) in
            let told = (seen self.old).outputs in
            IfOk result (λ s. Self.Out.seen s ≡
            record { taken = option_map (λ _. []) told; name = option_map (λ _. named) told; faults = 0 }) };

    /// Closes a source, and notes how many bytes it had still to come. Allocates nothing.
    fn close_in(&mut self, input: Self::In)
        ensures { seen self.new ≡ input_closed (seen self.old) (Self.In.seen input) };

    /// Closes a sink. Its name and its bytes are appended to the outputs, whatever is returned. Allocates nothing.
    ///
    /// `Failed` raises the count of faults of the outputs, and so does a sink whose writes failed.
    fn close_out(&mut self, output: Self::Out) -> Result<(), Failed>
        ensures { seen self.new ≡ output_closed (seen self.old) (Self.Out.seen output) (is_err result) };

    /// Reads all bytes of this name, at most `most` of them.
    ///
    /// `Failed` raises the count of faults of the inputs. `NoMemory` changes nothing.
    fn read_file(&mut self, name: Option<&str>, most: usize) -> Result<FileBytes, FileFault>
        ensures asked { let named = stream_name (option_copied name.entry) in
            MatchFile result
            (λ _. seen self.new ≡ asked_well (seen self.old) File named)
            (seen self.new ≡ asked_well (seen self.old) File named)
            (seen self.new ≡ asked_in_vain (seen self.old) File named)
            (seen self.new ≡ seen self.old) }
        ensures file { let file = content (seen self.old) (stream_name (option_copied name.entry)) in
            MatchFile result
            (λ bytes. (length bytes ≤ most) × IfSome file (λ b. bytes ≡ b))
            (IfSome file (λ b. most < length b))
            (Unit {0})
            (Unit {0}) };

    /// Reports the first bytes of a piece, at least one, and returns how many.
    ///
    /// `Failed` raises the count of faults of the reports, and none of the piece was taken.
    fn report(&mut self, piece: &[u8]) -> Result<usize, Failed>
        requires { 0 < length piece.now }
        ensures some { IfOk result (λ n. 0 < n) }
        ensures within { IfOk result (λ n. n ≤ length piece.now) }
        ensures taken { IfOk result (λ n. seen self.new ≡ reports (seen self.old) (take n piece.now)) }
        ensures failed { OnErr result (seen self.new ≡ report_failed (seen self.old)) };
}
