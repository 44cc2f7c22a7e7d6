//! Laws of `eit`, each a fact and no code.

ghost use Rattle.std.specs.Prelude.{◌≡◌, ℕ, List};
ghost use Rattle.ts_packet.specs.declared.cell.Cell.{Cell};
ghost use Rattle.chain_model.specs.PluginRule.{passes};
ghost use Rattle.plugin_trait.specs.Finding.{finds_none};
ghost use Rattle.named_services.specs.declared.service_word.ServiceWord.TheVariants.{Number};
ghost use Rattle.plug_eit.specs.EitRule.{eit_rule};
ghost use Rattle.plug_eit.specs.OnePid.{numbered_finds, numbered_made};
ghost use Rattle.plug_eit.specs.declared.eit_conf.EitConf.{EitConf as GivenConf};

use followed_services::a_number_means_itself;
use section_flow::an_edit_that_stays_goes_by_one_pid;

/// Where a number is given, packets of other PIDs do not matter: what becomes of a packet, and whether a run has a fault, is said
/// by the packets on PID 18 alone. A law: it runs nothing.
pub fn a_number_is_edited_by_one_pid()
    ensures outcome { (conf : GivenConf) (id : ℕ) (history : List Cell) (packet : List ℕ) (labels : ℕ) → conf.service ≡ Number id
        → (eit_rule conf).outcome_of history packet labels ≡ passes (numbered_made conf id history packet) }
    ensures fault { (conf : GivenConf) (id : ℕ) (history : List Cell) → conf.service ≡ Number id
        → (eit_rule conf).has_fault history ≡ finds_none (numbered_finds conf id) history }
{
    // Laws, which run nothing.
    a_number_means_itself();
    an_edit_that_stays_goes_by_one_pid();
}
