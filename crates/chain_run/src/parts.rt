//! The stages of a chain from its parts, and the parts from its stages.
ghost use Rattle.std.specs.Prelude.{◌≡◌, ◌+◌, ◌≤◌, ◌<◌, ◌++◌, ◌∷◌, [], ℕ, List, length, vec_len, vec_capacity};
ghost use Rattle.plugin_trait.specs.HeardStands.{HeardStands};
ghost use Rattle.plugin_trait.specs.declared.heard.Heard.{Heard};
ghost use Rattle.stage_run.specs.Seeing.{seeing};
ghost use Rattle.chain_core.specs.declared.core_plan.CorePlan.{CorePlan};
ghost use Rattle.chain_core.specs.CoreNumbers.{IsValidPlan};
ghost use Rattle.stage_run.specs.Parts.{IsUnused};
ghost use Rattle.stage_run.specs.declared.stage_part.StagePart.{StagePart};
ghost use Rattle.chain_run.specs.Fresh.{AreFresh};
ghost use Rattle.chain_run.specs.Runs.{began_with};
ghost use Rattle.chain_run.specs.NewRow.{IsNewRow};
ghost use Rattle.chain_run.specs.Parts.{AreMadeOf, AreTakenFrom, ArePluginsAndOutput, AreStages, GaveBack};

use plugin_trait::{Heard, Plugin};
use stage_run::{InputPart, IoBuffer, OutputPart, StagePart, Stuffing};
use ts_outside::{Sink, Source};

/// Appends the stages of the plugins to the stages, which have room for them.
pub(crate) fn add_plugins<S: Source, K: Sink, P: Plugin>(
    parts: &mut Vec<StagePart<S, K, P>>,
    plugins: &mut Vec<Heard<P>>,
)
    requires room { vec_len parts.old + vec_len plugins.old ≤ vec_capacity parts.old }
    requires fresh { AreFresh (HeardStands P.rule P.stands_for) plugins.old.items }
    ensures made { (made : List (StagePart S K P)) × (parts.new.items ≡ parts.old.items ++ made)
        × AreMadeOf (seeing S.seen K.seen P.rule P.stands_for P.preallocated) made plugins.old.items }
    ensures none_left { plugins.new.items ≡ [] }
    ensures room_left { vec_capacity plugins.new ≡ vec_capacity plugins.old }
    ensures capacity { vec_capacity parts.new ≡ vec_capacity parts.old }
{
    if plugins.is_empty() {
        return;
    }
    parts.push_reserved(StagePart::of_plugin(plugins.remove(0)));
    add_plugins(parts, plugins);
}

/// The memory of a chain's stages, but for that of the plugins: what the input reads into and the output gathers in, and
/// a row with room for the stages, which is empty.
pub struct StageRooms<S, K, P> {
    pub input: IoBuffer,
    pub output: IoBuffer,
    pub row: Vec<StagePart<S, K, P>>,
}

/// Lays the stages of a chain in a row: the input, the plugins and the output. Nothing is read, met or written.
pub fn lay_stages<S: Source, K: Sink, P: Plugin>(
    rooms: StageRooms<S, K, P>,
    input: InputPart<S>,
    stuffing: Stuffing,
    plugins: &mut Vec<Heard<P>>,
    output: OutputPart<K>,
) -> Vec<StagePart<S, K, P>>
    requires every { 1 ≤ stuffing.every }
    requires unused { IsUnused input }
    requires fresh { AreFresh (HeardStands P.rule P.stands_for) plugins.old.items }
    requires none { rooms.row.items ≡ [] }
    requires room { vec_len plugins.old + 2 ≤ vec_capacity rooms.row }
    ensures new { (plan : CorePlan) → IsValidPlan plan → plan.plugins ≡ vec_len plugins.old
        → let see = seeing S.seen K.seen P.rule P.stands_for P.preallocated in
        IsNewRow see (began_with see input stuffing plugins.old.items output plan) result.items }
    ensures none_left { plugins.new.items ≡ [] }
    ensures room_left { vec_capacity plugins.new ≡ vec_capacity plugins.old }
{
    let StageRooms {
        input: input_room,
        output: output_room,
        mut row,
    } = rooms;
    row.push_reserved(StagePart::of_input(input, stuffing, input_room));
    add_plugins(&mut row, plugins);
    row.push_reserved(StagePart::of_output(output, output_room));
    row
}

/// What the stages of a chain return.
pub struct GivenBack<S, K, P> {
    /// The input's part.
    pub input: InputPart<S>,
    /// The plugins in their order, each with its lines.
    pub plugins: Vec<Heard<P>>,
    /// The output's part.
    pub output: OutputPart<K>,
}

/// Moves the plugins back from the front of the stages, until one stage is left.
pub(crate) fn take_plugins<S: Source, K: Sink, P: Plugin>(
    parts: &mut Vec<StagePart<S, K, P>>,
    plugins: &mut Vec<Heard<P>>,
)
    requires room { vec_len plugins.old + vec_len parts.old ≤ vec_capacity plugins.old + 1 }
    requires kinds { ArePluginsAndOutput (seeing S.seen K.seen P.rule P.stands_for P.preallocated) parts.old.items }
    ensures taken { (made : List (Heard P)) × (plugins.new.items ≡ plugins.old.items ++ made)
        × AreTakenFrom (seeing S.seen K.seen P.rule P.stands_for P.preallocated) parts.old.items made }
    ensures one_left { (first : List (StagePart S K P)) × (parts.old.items ≡ first ++ parts.new.items) }
    ensures one { vec_len parts.new ≡ 1 }
    ensures output { ArePluginsAndOutput (seeing S.seen K.seen P.rule P.stands_for P.preallocated) parts.new.items }
{
    if parts.len() <= 1 {
        return;
    }
    plugins.push_reserved(parts.remove(0).into_plugin());
    take_plugins(parts, plugins);
}

/// Takes the stages of a chain apart: the input, the plugins and the output that they hold, each as its stage left it.
///
/// The plugins go into the row that is passed for them, which has room. It allocates nothing.
pub fn take_apart<S: Source, K: Sink, P: Plugin>(
    mut parts: Vec<StagePart<S, K, P>>,
    mut plugins: Vec<Heard<P>>,
) -> GivenBack<S, K, P>
    requires stages { AreStages (seeing S.seen K.seen P.rule P.stands_for P.preallocated) parts.items }
    requires none { plugins.items ≡ [] }
    requires room { vec_len parts ≤ vec_capacity plugins + 2 }
    ensures { GaveBack (seeing S.seen K.seen P.rule P.stands_for P.preallocated) parts.items
        result.input result.plugins.items result.output }
{
    let input = parts.remove(0).into_input();
    take_plugins(&mut parts, &mut plugins);
    let output = parts.remove(0).into_output();
    parts.destroy_empty();
    GivenBack {
        input,
        plugins,
        output,
    }
}
