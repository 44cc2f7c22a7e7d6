//! The two ends of a chain: what a plan names is opened, and whatever was opened is closed.
ghost use Rattle.std.specs.Prelude.{◌≡◌, ◌≤◌, false, true, vec_len, IfOk, OnErr, is_err};
ghost use Rattle.std.specs.Option.{option_map};
ghost use Rattle.chain_args.specs.declared.input_conf.InputConf.TheVariants as input;
ghost use Rattle.packet_search.specs.Rule.{deciding_bytes};
ghost use Rattle.search_source.specs.FileView.{of_either};
ghost use Rattle.ts_outside.specs.Desk.{asked_in_vain, asked_well};
ghost use Rattle.ts_outside.specs.OpenFault.{MatchOpen};
ghost use Rattle.ts_outside.specs.declared.requests.Purpose.TheVariants.{Input};
ghost use Rattle.tsp_top.specs.PlannedChain.{input_name, output_name};
ghost use Rattle.tsp_top.specs.Openings.{asked_input, asked_output, asked_input_in_vain, asked_output_in_vain, OpensInput, OpensOutput, IsThrough, NamesInput, NamesOutput, input_closed_as, output_closed_as, WasOpened};

use chain_args::{InputConf, OutputConf};
use packet_forms::{Form, FormSource};
use search_source::{FileParts, FileSource, KeptGaps, NotedSource};
use stage_run::{InputPart, OutputPart};
use std::alloc::{AllocError, Global};
use ts_outside::{Desk, Failed, OpenFault, Source};
use ts_testgen::TestGen;

/// The source of the packets of a file.
pub(crate) type PacketSource<S> = FileSource<FormSource<S>, NotedSource<S>>;

/// How many units of bytes there is room for where packets are found again.
const SEARCHED_UNITS: usize = 300;

/// Room for the bytes in which packets are found again.
fn search_room(alloc: Global, form: Form) -> Result<Vec<u8>, AllocError>
    ensures { IfOk result (λ room. deciding_bytes form ≤ vec_len room) }
{
    vec![in alloc; 0u8; SEARCHED_UNITS * form.unit()]
}

/// Opens a file whose packets are at their places.
fn open_placed<D: Desk>(
    desk: &mut D,
    name: &str,
    form: Form,
) -> Result<InputPart<PacketSource<D::In>>, OpenFault>
    ensures asked { MatchOpen result
        (λ _. D.seen desk.new ≡ asked_well (D.seen desk.old) Input name.now)
        (D.seen desk.new ≡ asked_in_vain (D.seen desk.old) Input name.now)
        (D.seen desk.new ≡ D.seen desk.old) }
    ensures part { IfOk result (λ part. OpensInput ⟦<PacketSource<D::In> as Source>⟧.seen (of_either (λ placed. D.In.seen placed.source) (λ found. D.In.seen found.source.source))
        (D.seen desk.old) (input.File name.now form false) part) }
{
    let source = desk.open_in(Some(name))?;
    Ok(InputPart::Stream(FileSource::Placed(FormSource::new(source, form))))
}

/// Opens a file whose packets are found again. The room for its bytes is taken first. A gap before one of the last `keep` packets
/// is not let go.
fn open_found<D: Desk>(
    alloc: Global,
    desk: &mut D,
    name: &str,
    form: Form,
    keep: u64,
) -> Result<InputPart<PacketSource<D::In>>, OpenFault>
    ensures asked { MatchOpen result
        (λ _. D.seen desk.new ≡ asked_well (D.seen desk.old) Input name.now)
        (D.seen desk.new ≡ asked_in_vain (D.seen desk.old) Input name.now)
        (D.seen desk.new ≡ D.seen desk.old) }
    ensures part { IfOk result (λ part. OpensInput ⟦<PacketSource<D::In> as Source>⟧.seen (of_either (λ placed. D.In.seen placed.source) (λ found. D.In.seen found.source.source))
        (D.seen desk.old) (input.File name.now form true) part) }
{
    let Ok(room) = search_room(alloc, form) else {
        return Err(OpenFault::NoMemory);
    };
    let source = desk.open_in(Some(name))?;
    let noted = NotedSource::keeping(alloc, source, form, room, keep);
    Ok(InputPart::Stream(FileSource::Found(noted)))
}

/// Opens the input, unless it is null packets or a generated stream. Where packets are found again, a gap before one of the last
/// `keep` packets is not let go.
pub(crate) fn open_input<D: Desk>(
    alloc: Global,
    desk: &mut D,
    conf: &InputConf,
    keep: u64,
) -> Result<InputPart<PacketSource<D::In>>, OpenFault>
    ensures asked { MatchOpen result
        (λ _. D.seen desk.new ≡ asked_input (D.seen desk.old) conf.now)
        (D.seen desk.new ≡ asked_input_in_vain (D.seen desk.old) conf.now)
        (D.seen desk.new ≡ D.seen desk.old) }
    ensures part { IfOk result (λ part. OpensInput ⟦<PacketSource<D::In> as Source>⟧.seen (of_either (λ placed. D.In.seen placed.source) (λ found. D.In.seen found.source.source))
        (D.seen desk.old) conf.now part) }
    ensures named { MatchOpen result (λ _. Unit {0}) (NamesInput conf.now) (Unit {0}) }
{
    match conf {
        InputConf::File { name, form, resync } => {
            if *resync {
                open_found(alloc, desk, name.as_str(), *form, keep)
            } else {
                open_placed(desk, name.as_str(), *form)
            }
        }
        InputConf::Null(count) => Ok(InputPart::Nulls(*count)),
        InputConf::TestGen { seed, packets } => match TestGen::new(alloc, *seed) {
            Ok(generator) => Ok(InputPart::Generated {
                generator,
                packets: *packets,
            }),
            Err(AllocError) => Err(OpenFault::NoMemory),
        },
    }
}

/// Opens the output, unless packets are dropped.
pub(crate) fn open_output<D: Desk>(
    desk: &mut D,
    conf: &OutputConf,
) -> Result<OutputPart<D::Out>, OpenFault>
    ensures asked { MatchOpen result
        (λ _. D.seen desk.new ≡ asked_output (D.seen desk.old) conf.now)
        (D.seen desk.new ≡ asked_output_in_vain (D.seen desk.old) conf.now)
        (D.seen desk.new ≡ D.seen desk.old) }
    ensures part { IfOk result (λ part. OpensOutput D.Out.seen (D.seen desk.old) conf.now part) }
    ensures named { OnErr result (NamesOutput conf.now) }
{
    match conf {
        OutputConf::File(name) => Ok(OutputPart::Stream(desk.open_out(Some(name.as_str()))?)),
        OutputConf::Drop => Ok(OutputPart::Discard),
    }
}

/// Closes the input, if it was opened, and returns the gaps that were kept of it, where packets were found again.
pub(crate) fn close_input<D: Desk>(
    desk: &mut D,
    part: InputPart<PacketSource<D::In>>,
) -> Option<KeptGaps>
    ensures closed { D.seen desk.new ≡ input_closed_as (of_either (λ placed. D.In.seen placed.source) (λ found. D.In.seen found.source.source)) (D.seen desk.old) part }
    ensures through { IsThrough ⟦<PacketSource<D::In> as Source>⟧.seen (of_either (λ placed. D.In.seen placed.source) (λ found. D.In.seen found.source.source)) part result }
{
    match part {
        InputPart::Stream(source) => {
            let FileParts { source, kept } = source.into_parts();
            desk.close_in(source);
            kept
        }
        InputPart::Nulls(_) => None,
        InputPart::Generated {
            generator: _,
            packets: _,
        } => None,
    }
}

/// Closes the output, if it was opened.
pub(crate) fn close_output<D: Desk>(desk: &mut D, part: OutputPart<D::Out>) -> Result<(), Failed>
    ensures closed { D.seen desk.new ≡ output_closed_as D.Out.seen (D.seen desk.old) part (is_err result) }
    ensures failed { OnErr result (WasOpened part) }
{
    match part {
        OutputPart::Stream(sink) => desk.close_out(sink),
        OutputPart::Discard => Ok(()),
    }
}
