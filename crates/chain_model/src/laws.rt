//! Laws of the run without faults. They run nothing.

ghost use Rattle.std.specs.Prelude.{◌≡◌, ◌<◌, ◌++◌, ℕ, List, Some, None, IsSome, length, slice_index_or, take};
ghost use Rattle.ts_packet.specs.declared.cell.Cell.{Cell};
ghost use Rattle.chain_model.specs.declared.cause.Cause.TheVariants.{Joint};
ghost use Rattle.chain_model.specs.PluginRule.{PluginRule};
ghost use Rattle.chain_model.specs.Apply.{StageList, apply, apply_after, became, goes_on};
ghost use Rattle.chain_model.specs.NeverEnds.{NeverEnds};
ghost use Rattle.chain_model.specs.Joint.{joint_position};
ghost use Rattle.chain_model.specs.Cut.{cut_of, cause_of};

/// The cause is joint termination exactly where the joint position is the cut: where it is not, some stage ended its own
/// list there, since the input's list ends by itself.
pub fn joint_is_at_the_cut()
    ensures only { (rules : List PluginRule) (input : StageList) (users : List ℕ)
        → IsSome input.ended → cause_of rules input users ≡ Joint
        → joint_position rules input users ≡ Some (cut_of rules input users) }
    ensures always { (rules : List PluginRule) (input : StageList) (users : List ℕ)
        → joint_position rules input users ≡ Some (cut_of rules input users) → cause_of rules input users ≡ Joint }
{}

/// A rule that never ends its list gives one cell for each cell, at the same position: what it makes of that cell after the
/// cells before it. So what it gives for two joined lists begins with what it gives for the first of them.
pub fn each_position_by_itself()
    ensures ended { (rule : PluginRule) (cells : List Cell) → NeverEnds rule → (apply rule cells).ended ≡ None }
    ensures count { (rule : PluginRule) (cells : List Cell) → NeverEnds rule
        → length (apply rule cells).cells ≡ length cells }
    ensures cell { (rule : PluginRule) (cells : List Cell) (p : ℕ) (default : Cell) → NeverEnds rule → p < length cells
        → became rule (take p cells) (slice_index_or cells p default)
        ≡ goes_on (slice_index_or (apply rule cells).cells p default) }
    ensures behind { (rule : PluginRule) (first second : List Cell) → NeverEnds rule
        → (apply rule (first ++ second)).cells ≡ (apply rule first).cells ++ (apply_after rule first second).cells }
{}
