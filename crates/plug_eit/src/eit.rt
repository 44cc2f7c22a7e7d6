//! The plugin `eit`.

ghost use Rattle.std.specs.Prelude.{◌≡◌, [], None, IfOk};
ghost use Rattle.plug_eit.specs.EitRule.{eit_rule};
ghost use Rattle.plug_eit.specs.EitSettings.{IsValidEit};
ghost use Rattle.plug_eit.specs.EitState.{MeetsHistory, rule_of};

use crate::eit_conf::EitConf;
use crate::eit_edit::EitEdit;
use crate::numbers::EIT_PID;
use followed_services::{NamedService, Unnamed};
use plugin_trait::{FirstFind, Outcome, Plugin, Silent, Steps};
use section_flow::{Flow, packets_of_other_pids_change_nothing};
use std::alloc::{AllocError, Global};
use ts_demux::FailureLatch;
use ts_packet::{Labels, Packet};

/// Edits the EIT sections of a service as they pass.
///
/// If a step runs out of memory, every later step does too. A step on a PID but 18 needs memory only where the service is given
/// by a name.
#[derive(Drop)]
pub struct EitSteps {
    pub(crate) edit: EitEdit,
    pub(crate) service: NamedService,
    pub(crate) flow: Flow,
    /// The first position at which a section was complete that the edit changes or removes.
    pub(crate) found: FirstFind,
    pub(crate) failed: FailureLatch,
}

/// The plugin `eit`.
pub type Eit = Silent<EitSteps>;

/// A plugin that met no cell yet. It keeps a copy of the settings; its steps allocate memory for sections.
pub fn new_eit(alloc: Global, conf: &EitConf, _buffer: usize) -> Result<Eit, AllocError>
    requires { IsValidEit conf.now }
    ensures rule { IfOk result (λ plugin. ⟦<Eit as Plugin>⟧.rule plugin ≡ eit_rule conf.now) }
    ensures fresh { IfOk result (λ plugin. ⟦<Eit as Plugin>⟧.stands_for plugin [] 0) }
    ensures preallocated { IfOk result (λ plugin. ⟦<Eit as Plugin>⟧.preallocated plugin ≡ None) }
{
    let steps = new_steps(alloc, conf)?;
    Ok(Silent { steps })
}

// The steps of a plugin that met no cell yet.
fn new_steps(alloc: Global, conf: &EitConf) -> Result<EitSteps, AllocError>
    requires { IsValidEit conf.now }
    ensures rule { IfOk result (λ steps. rule_of steps ≡ eit_rule conf.now) }
    ensures fresh { IfOk result (λ steps. MeetsHistory steps []) }
{
    let own = conf.copy()?;
    let service = NamedService::new(alloc, &conf.service)?;
    let flow = Flow::new(alloc, EIT_PID)?;
    Ok(EitSteps {
        edit: EitEdit {
            conf: own,
            service: service.number(),
        },
        service,
        flow,
        found: FirstFind::none(),
        failed: FailureLatch::unset(),
    })
}

impl EitSteps {
    ghost use Rattle.std.specs.Prelude.{◌≡◌, ◌++◌, ◌∷◌, [], ℕ, List, true, OnOk, OnErr};
    ghost use Rattle.plugin_trait.specs.Finding.{first_of};
    ghost use Rattle.plug_eit.specs.EitRule.{alters_with, made_of};
    ghost use Rattle.plug_eit.specs.EitState.{Edits, StandsFor};

    /// Whether a section came that the edit changes or removes.
    pub fn has_come(&self) -> bool {
        !self.found.is_none_below(u64::MAX)
    }

    /// Why a name means no service by the tables in force; `None` where the service is given by its number, or the name means
    /// one.
    pub fn unnamed(&self) -> Result<Option<Unnamed>, AllocError> {
        self.service.unnamed()
    }

    // Meets the next packet, and edits it in place. After `AllocError` the packet is as it was, and every later call returns
    // `AllocError`.
    #[inline]
    fn take(&mut self, at: u64, packet: &mut Packet) -> Result<(), AllocError>
        ensures made { OnOk result ((met : List (List ℕ)) → StandsFor self.old met → packet.new ≡ made_of self.old.edit.conf met packet.old) }
        ensures stands { OnOk result ((met : List (List ℕ)) → StandsFor self.old met → StandsFor self.new (met ++ packet.old ∷ [])) }
        ensures found { OnOk result ((met : List (List ℕ)) → StandsFor self.old met
            → self.new.found.at ≡ first_of self.old.found.at at (alters_with self.old.edit.conf met packet.old)) }
        ensures not_found { OnErr result (self.new.found ≡ self.old.found) }
        ensures spent { OnErr result (self.new.failed ≡ true) }
        ensures as_it_was { OnErr result (packet.new ≡ packet.old) }
        ensures conf { self.new.edit.conf ≡ self.old.edit.conf }
    {
        self.failed.check()?;
        let answer = self.advance(at, packet);
        self.failed.note(answer)?;
        Ok(())
    }

    // Meets the next packet, unless memory ran out before. After `AllocError` the packet is as it was.
    #[inline]
    fn advance(&mut self, at: u64, packet: &mut Packet) -> Result<(), AllocError>
        ensures made { OnOk result ((met : List (List ℕ)) → Edits self.old.edit.conf self.old.service self.old.flow met
            → packet.new ≡ made_of self.old.edit.conf met packet.old) }
        ensures stands { OnOk result ((met : List (List ℕ)) → Edits self.old.edit.conf self.old.service self.old.flow met
            → Edits self.old.edit.conf self.new.service self.new.flow (met ++ packet.old ∷ [])) }
        ensures found { OnOk result ((met : List (List ℕ)) → Edits self.old.edit.conf self.old.service self.old.flow met
            → self.new.found.at ≡ first_of self.old.found.at at (alters_with self.old.edit.conf met packet.old)) }
        ensures not_found { OnErr result (self.new.found ≡ self.old.found) }
        ensures as_it_was { OnErr result (packet.new ≡ packet.old) }
        ensures conf { self.new.edit.conf ≡ self.old.edit.conf }
        ensures failed { self.new.failed ≡ self.old.failed }
    {
        // A law, which runs nothing.
        packets_of_other_pids_change_nothing();
        self.service.meet(at, packet)?;
        // Nearly all packets end here.
        if packet.pid() != EIT_PID {
            return Ok(());
        }
        self.edit.service = self.service.number();
        self.flow.step(&self.edit, packet)?;
        self.found.meet(at, self.flow.has_altered());
        Ok(())
    }
}

impl Steps for EitSteps {
    ghost use Rattle.std.specs.Prelude.{None, refl};
    ghost use Rattle.plug_eit.specs.EitState.{MeetsHistory, rule_of};

    ghost rule = { λ s. rule_of s };

    ghost stands_for = { λ s history. MeetsHistory s history };

    ghost preallocated = { λ _. None };

    #[inline]
    fn step(&mut self, at: u64, packet: &mut Packet, _labels: &mut Labels) -> Outcome {
        match self.take(at, packet) {
            Ok(()) => Outcome::Pass,
            Err(_) => Outcome::NoMemory,
        }
    }

    fn pass_over(&mut self, _at: u64) {}

    fn has_fault(&self, cut: u64) -> bool {
        self.found.is_none_below(cut)
    }

    ghost quiet = { λ plugin. record { no_lines = λ history packet labels. refl; no_summary = λ history. refl } };

    ghost never_agrees = { λ plugin history. refl };
}
