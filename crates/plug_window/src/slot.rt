//! The place of a packet, in which an earlier packet is output.
ghost use Rattle.std.specs.Prelude.{◌≡◌};
ghost use Rattle.chain_model.specs.Apply.{outcome_of_live, goes_on};
ghost use Rattle.plugin_trait.specs.Actions.{action};
ghost use Rattle.plugin_trait.specs.Steps.{left_of};
ghost use Rattle.plug_window.specs.DelayRule.{given_packet, labels_left};
ghost use Rattle.plug_window.specs.Slots.{outcome_word};

use plugin_trait::Outcome;
use ts_packet::{Labelled, Labels, Packet};

/// Puts the packet that is output instead of a packet. If there is none, the packet is dropped, or with `stuffing`
/// becomes a null packet and keeps its labels.
#[inline]
pub(crate) fn fill_slot(
    packet: &mut Packet,
    labels: &mut Labels,
    given: Option<Labelled>,
    stuffing: bool,
) -> Outcome
    ensures made { outcome_of_live (action stuffing (given_packet given)) (labels_left labels.old given)
        ≡ goes_on (left_of result packet.new labels.new) }
    ensures told { result ≡ outcome_word (left_of result packet.new labels.new) }
{
    if let Some(row) = given {
        *packet = row.packet;
        *labels = row.labels;
        return Outcome::Pass;
    }
    if stuffing {
        *packet = Packet::null();
        return Outcome::Pass;
    }
    Outcome::Drop
}
