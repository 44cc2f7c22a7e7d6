//! Generic callers, for tests: their contracts show that the clauses of the traits combine through loops and calls.

ghost use Rattle.std.specs.Prelude.{◌≡◌, ◌<◌, ◌≤◌, [], ◌∷◌, ◌++◌, List, ℕ, Some, true, codes, length, take, IfOk, IfErr, IfSome, OnOk};
ghost use Rattle.std.specs.Option.{option_copied};
ghost use Rattle.ts_outside.specs.Source.{read_failed, unread};
ghost use Rattle.ts_outside.specs.Sink.{took};
ghost use Rattle.ts_outside.specs.Count.{HasCause};
ghost use Rattle.ts_outside.specs.Told.{grown};
ghost use Rattle.ts_outside.specs.declared.requests.Purpose.TheVariants.{Input, Output};
ghost use Rattle.ts_outside.specs.Desk.{file_of, stream_name};

use ts_outside::{CutShort, Desk, Failed, OpenFault, Sink, Source, report_whole, write_whole};

// Reads one packet in as many calls as the source needs. Fewer than 188 bytes mean that the source has ended.
#[tactic(auto, using(ts_outside::proofs::Views::views))]
fn read_packet<S: Source>(source: &mut S, packet: &mut [u8; 188]) -> Result<usize, CutShort>
    ensures within { IfOk result (λ n. n ≤ 188) }
    ensures moved { IfOk result (λ n. S.seen source.old ≡ unread (take n packet.new) (S.seen source.new)) }
    ensures ended { IfOk result (λ n. n < 188 → IfSome (S.seen source.new).left (λ l. l ≡ [])) }
    ensures short { IfErr result (λ cut. cut.taken < 188) }
    ensures failed { IfErr result (λ cut. read_failed (S.seen source.old) ≡ unread (take cut.taken packet.new) (S.seen source.new)) }
{
    let mut have = 0;
    while have < 188 {
        match source.read(&mut packet[have..]) {
            Ok(0) => return Ok(have),
            Ok(count) => have += count,
            Err(Failed) => return Err(CutShort { taken: have }),
        }
    }
    Ok(have)
}

// How a copy ended.
#[derive(Clone, Copy, Debug, PartialEq, Eq)]
pub(crate) enum CopyEnd {
    Done,
    ReadFault,
    WriteFault,
    NoMemory,
}

// Copies whole packets until the source ends, and the bytes after the last one too.
#[tactic(auto, using(ts_outside::proofs::Views::views))]
fn pump<S: Source, K: Sink>(source: &mut S, sink: &mut K) -> Result<bool, CutShort>
    ensures moved { OnOk result ((bytes : List ℕ)
        × (S.seen source.old ≡ unread bytes (S.seen source.new))
        × (K.seen sink.new ≡ took (K.seen sink.old) bytes)) }
    ensures ended { result ≡ Ok true → IfSome (S.seen source.new).left (λ l. l ≡ []) }
{
    let mut packet = [0u8; 188];
    for _ in 0..u64::MAX {
        let count = read_packet(source, &mut packet)?;
        write_whole(sink, &packet[..count])?;
        if count < 188 {
            return Ok(true);
        }
    }
    Ok(false)
}

// Copies a file and reports it.
#[tactic(auto, using(ts_outside::proofs::Views::views))]
pub(crate) fn copy<D: Desk>(desk: &mut D, from: Option<&str>, to: Option<&str>) -> CopyEnd
    ensures written { let old = D.seen desk.old in
        result ≡ CopyEnd.Done → IfSome old.files (λ files. IfSome old.outputs (λ outputs.
        (D.seen desk.new).outputs ≡
        Some (outputs ++ (stream_name (option_copied to.entry), file_of files (stream_name (option_copied from.entry))) ∷ []))) }
    ensures reported { result ≡ CopyEnd.Done → (D.seen desk.new).reported ≡ grown (D.seen desk.old).reported (codes "done") }
    ensures asked { result ≡ CopyEnd.Done → (D.seen desk.new).asked ≡ grown (D.seen desk.old).asked
        (record { purpose = Input; name = stream_name (option_copied from.entry); ok = true }
        ∷ record { purpose = Output; name = stream_name (option_copied to.entry); ok = true } ∷ []) }
    ensures files { (D.seen desk.new).files ≡ (D.seen desk.old).files }
    ensures read_fault { result ≡ CopyEnd.ReadFault → HasCause (D.seen desk.old).read_faults (D.seen desk.new).read_faults }
{
    let mut input = match desk.open_in(from) {
        Ok(input) => input,
        Err(OpenFault::Failed) => return CopyEnd::ReadFault,
        Err(OpenFault::NoMemory) => return CopyEnd::NoMemory,
    };
    let mut output = match desk.open_out(to) {
        Ok(output) => output,
        Err(OpenFault::Failed) => {
            desk.close_in(input);
            return CopyEnd::WriteFault;
        }
        Err(OpenFault::NoMemory) => {
            desk.close_in(input);
            return CopyEnd::NoMemory;
        }
    };
    let moved = pump(&mut input, &mut output);
    desk.close_in(input);
    let closed = desk.close_out(output);
    if let Err(_) = moved {
        return CopyEnd::WriteFault;
    }
    if closed.is_err() || moved == Ok(false) {
        return CopyEnd::WriteFault;
    }
    if report_whole(desk, b"done").is_err() {
        return CopyEnd::WriteFault;
    }
    CopyEnd::Done
}
