//! Calls over a desk in memory: what is written, what is reported, and how a call on a failing desk ends.
ghost use Rattle.std.specs.Prelude.{◌≡◌};

use crate::compared::{got, same, same_bytes};
use std::process::Abort;
use tabcomp_top::{TabStatus, tabcomp_call};
use ts_outside::{FailPlan, FileBytes, FileList, MemoryDesk, NameText, NumberList};

/// A PAT of one service, as written by hand.
const PAT: &[u8] =
    br##"{"#name":"tsduck","#nodes":[{"#name":"PAT","transport_stream_id":1,"#nodes":[{"#name":"service","service_id":1,"program_map_PID":"0x1000"}]}]}"##;

/// The same as it is decompiled.
const CANONICAL: &[u8] =
    br##"{"#name":"tsduck","#nodes":[{"#name":"PAT","#nodes":[{"#name":"service","program_map_PID":4096,"service_id":1}],"current":true,"transport_stream_id":1,"version":0}]}"##;

/// A text.
fn text(rt: &(impl Abort + AllocGlobal), text: &str) -> String {
    got(rt, String::from_str(rt.alloc(), text))
}

/// The file `pat.json` with the text of the PAT.
fn files(rt: &(impl Abort + AllocGlobal)) -> FileList {
    let bytes = FileBytes::of(got(rt, Vec::from_slice(rt.alloc(), PAT)));
    let name = NameText::of(text(rt, "pat.json"));
    FileList::of(got(rt, vec![in rt.alloc(); (name, bytes)]))
}

/// A plan by which only the closing with this number fails.
fn plan(rt: &(impl Abort + AllocGlobal), failing: u64) -> FailPlan
    ensures { (result.read_piece ≡ 100) × (result.write_piece ≡ 70) }
{
    let closes = NumberList::of(got(rt, Vec::from_slice(rt.alloc(), &[failing])));
    let mut plan = FailPlan::none(rt.alloc(), 100, 70, 1000);
    plan.closes = closes;
    plan
}

/// A desk with that file and that plan, in a box, since it is large.
fn desk(rt: &(impl Abort + AllocGlobal), failing: u64) -> Box<MemoryDesk> {
    let files = files(rt);
    let desk = got(rt, MemoryDesk::new(rt.alloc(), files, plan(rt, failing)));
    got(rt, Box::new(rt.alloc(), desk))
}

/// The words of a text, separated by spaces.
fn words_of(rt: &(impl Abort + AllocGlobal), words: &str) -> Vec<String> {
    let mut list = Vec::new(rt.alloc());
    for word in words.split(' ') {
        got(rt, list.push(text(rt, word)));
    }
    list
}

/// Checks the report and the output of a call.
fn has_written(rt: &impl Abort, desk: &MemoryDesk, reported: &[u8]) {
    same_bytes(rt, desk.reported(), reported);
    let (_, bytes) = got(rt, desk.output(0).ok_or("output"));
    same_bytes(rt, bytes, CANONICAL);
}

/// Makes a call that writes the canonical text, and checks its exit status, its report and its output.
fn calls(rt: &(impl Abort + AllocGlobal), failing: u64, code: u8, reported: &[u8]) {
    let words = words_of(rt, "--canonical pat.json out.json");
    let mut desk = desk(rt, failing);
    let status = tabcomp_call(rt.alloc(), &words, &mut *desk);
    same(rt, status.exit_code(), code);
    has_written(rt, &*desk, reported);
}

/// The text is written, and a failing close is reported.
#[test]
fn the_canonical_text_is_written(rt: HostRuntime) {
    calls(&rt, 9, 0, b"");
    calls(&rt, 1, 4, b"tstabcomp: cannot write\n");
}

/// Checks which word of a call is reported as faulty.
fn is_faulty(
    rt: &(impl Abort + AllocGlobal),
    words: &[String],
    desk: &mut MemoryDesk,
    wanted: usize,
) {
    let status = tabcomp_call(rt.alloc(), words, desk);
    same(
        rt,
        matches!(status, TabStatus::Words { word } if word == wanted),
        true,
    );
}

/// Makes two calls with faulty words.
fn both_are_faulty(rt: &(impl Abort + AllocGlobal), desk: &mut MemoryDesk) {
    is_faulty(rt, &[], desk, 0);
    is_faulty(rt, &words_of(rt, "--compile a b c"), desk, 3);
}

#[test]
fn faulty_words_are_told(rt: HostRuntime) {
    let mut desk = desk(&rt, 9);
    both_are_faulty(&rt, &mut *desk);
    same_bytes(
        &rt,
        desk.reported(),
        b"tstabcomp: words\ntstabcomp: words\n",
    );
    same(&rt, desk.asked_count(), 0);
}
