//! The plugin `inject`.
//!
//! It is made of sections and knows no file: somebody else reads and converts it. So its rule is a function of its
//! settings, of these sections and of the packets, and every theorem about chains holds of it without a word on files.
//! `rule_of` of `plugin_set` has the sections as an argument for every plugin, and all others ignore it.
//!
//! Its packets are made before the run, and which of them comes next is given by the number of those that were put in:
//! of one cycle of all sections, or of a schedule of several groups of them.
//! Its two modes are one rule: the PID of the packets that may be replaced, and how many packets before one that is
//! were not.
ghost use Rattle.std.specs.Prelude.{◌≡◌, ◌<◌, ◌^◌, ◌∷◌, ℕ, List, [], None, IfOk};
ghost use Rattle.plug_inject.specs.InjectRule.{inject_rule, injected, is_replaced, put_for, replaced_among};
ghost use Rattle.plug_inject.specs.InjectSettings.{IsValidInject};
ghost use Rattle.plug_inject.specs.InjectState.{Counts, Numbers, how_of};

use crate::counting::{Counting, count, counting_of};
use crate::inject_conf::{InjectConf, InjectMode};
use crate::supply::Supply;
use plugin_trait::{FirstFind, Outcome, Plugin, Silent, Steps};
use std::alloc::{AllocError, Global};
use ts_packet::{Labels, NULL_PID, Packet};
use ts_section::Section;

/// Inserts the packets of some sections repeatedly instead of packets on their PID, or of null packets.
#[derive(Drop)]
pub struct InjectSteps {
    /// The PID of the packets that may be replaced.
    target: u16,
    /// How many packets just before a replaced one were not replaced.
    kept: u64,
    /// The packets that are inserted, and how many were.
    supply: Supply,
    /// How many more packets have to pass before one may be replaced.
    wait: u64,
    /// The counters of the PID of the sections, where all its packets get new ones.
    counting: Option<Counting>,
    /// The first position at which a packet was replaced.
    found: FirstFind,
}

/// The plugin `inject`.
pub type Inject = Silent<InjectSteps>;

/// A new plugin, which has processed no cell. It allocates the packets of the sections; its steps allocate
/// nothing, and none of them returns `NoMemory`.
pub fn new_inject(
    alloc: Global,
    conf: &InjectConf,
    sections: Vec<Section>,
) -> Result<Inject, AllocError>
    requires { IsValidInject conf.now }
    ensures rule { IfOk result (λ plugin. ⟦<Inject as Plugin>⟧.rule plugin ≡ inject_rule conf.now sections.items) }
    ensures fresh { IfOk result (λ plugin. ⟦<Inject as Plugin>⟧.stands_for plugin [] 0) }
    ensures preallocated { IfOk result (λ plugin. ⟦<Inject as Plugin>⟧.preallocated plugin ≡ None) }
{
    let pid = conf.pid as u16;
    let supply = Supply::new(alloc, pid, conf.every.as_slice(), sections.as_slice())?;
    let counting = counting_of(conf.fix_counters, pid);
    let (target, kept) = match conf.mode {
        InjectMode::Replace => (pid, 0),
        InjectMode::InterPacket(distance) => (NULL_PID, distance - 1),
    };
    let steps = InjectSteps {
        target,
        kept,
        supply,
        wait: 0,
        counting,
        found: FirstFind::none(),
    };
    Ok(Silent { steps })
}

impl InjectSteps {
    /// The PID of the packets that may be replaced.
    pub fn target(&self) -> u16 {
        self.target
    }

    /// Whether there are packets to insert.
    pub fn has_contents(&self) -> bool {
        self.supply.has_packets()
    }

    /// Whether a packet was inserted.
    pub fn has_inserted(&self) -> bool {
        self.supply.given() > 0
    }

    /// Replaces the next packet if it is its turn. Returns whether it did.
    #[inline]
    fn put(&mut self, packet: &mut Packet) -> bool
        requires { self.old.supply.given < 2 ^ 63 }
        ensures replaced { (older : List (List ℕ)) → Counts (how_of self.old) self.old.supply.given self.old.wait older
            → result ≡ is_replaced (how_of self.old) (replaced_among (how_of self.old) older) packet.old }
        ensures made { (older : List (List ℕ)) → Counts (how_of self.old) self.old.supply.given self.old.wait older
            → packet.new ≡ put_for (how_of self.old) (replaced_among (how_of self.old) older) packet.old }
        ensures counts { (older : List (List ℕ)) → Counts (how_of self.old) self.old.supply.given self.old.wait older
            → Counts (how_of self.old) self.new.supply.given self.new.wait (packet.old ∷ older) }
        ensures same { how_of self.new ≡ how_of self.old }
        ensures counting { self.new.counting ≡ self.old.counting }
        ensures found { self.new.found ≡ self.old.found }
    {
        let wait = self.wait;
        self.wait = wait.saturating_sub(1);
        if wait > 0 {
            return false;
        }
        if packet.pid() != self.target {
            return false;
        }
        if self.supply.has_packets() {
            *packet = self.supply.next().unwrap_or(*packet);
            self.wait = self.kept;
            return true;
        }
        false
    }

    /// Processes the next packet, and replaces it if it is its turn. Returns whether it did.
    #[inline]
    fn meet(&mut self, packet: &mut Packet) -> bool
        requires { self.old.supply.given < 2 ^ 63 }
        ensures replaced { (older : List (List ℕ)) → Counts (how_of self.old) self.old.supply.given self.old.wait older
            → result ≡ is_replaced (how_of self.old) (replaced_among (how_of self.old) older) packet.old }
        ensures made { (older : List (List ℕ)) → Counts (how_of self.old) self.old.supply.given self.old.wait older
            → Numbers (how_of self.old) self.old.counting older → packet.new ≡ injected (how_of self.old) older packet.old }
        ensures counts { (older : List (List ℕ)) → Counts (how_of self.old) self.old.supply.given self.old.wait older
            → Counts (how_of self.old) self.new.supply.given self.new.wait (packet.old ∷ older) }
        ensures numbers { (older : List (List ℕ)) → Counts (how_of self.old) self.old.supply.given self.old.wait older
            → Numbers (how_of self.old) self.old.counting older
            → Numbers (how_of self.old) self.new.counting (packet.old ∷ older) }
        ensures same { how_of self.new ≡ how_of self.old }
        ensures found { self.new.found ≡ self.old.found }
    {
        let replaced = self.put(packet);
        count(&mut self.counting, packet);
        replaced
    }
}

impl Steps for InjectSteps {
    ghost use Rattle.std.specs.Prelude.{◌≡◌, ◌≢◌, ◌<◌, None, refl};
    ghost use Rattle.ts_packet.specs.Cells.{Live};
    ghost use Rattle.chain_model.specs.declared.positions.TheConstants.{POSITION_LIMIT};
    ghost use Rattle.plugin_trait.specs.Steps.{MeetsCells, Tells, Meets, left_of};
    ghost use Rattle.plugin_trait.specs.Unmarked.{unmarked};
    ghost use Rattle.plug_inject.specs.InjectRule.{injecting_rule};
    ghost use Rattle.plug_inject.specs.InjectState.{Meant, how_of};

    ghost rule = { λ s. injecting_rule (how_of s) };

    ghost stands_for = { λ s history. Meant s history };

    ghost preallocated = { λ s. None };

    /// The clauses of `Steps`, whose ghost members have no names here, and one more: no step returns `NoMemory`.
    #[inline]
    fn step(&mut self, at: u64, packet: &mut Packet, _labels: &mut Labels) -> Outcome
        requires met { MeetsCells (unmarked (Meant self.old)) at }
        requires in_range { at < POSITION_LIMIT }
        ensures tells { Tells (injecting_rule (how_of self.old)) (unmarked (Meant self.old)) at
            (Live packet.old _labels.old) result (left_of result packet.new _labels.new) }
        ensures meets { Meets (unmarked (Meant self.old)) (unmarked (Meant self.new)) at
            (Live packet.old _labels.old) result }
        ensures same_rule { injecting_rule (how_of self.new) ≡ injecting_rule (how_of self.old) }
        ensures no_memory { result ≢ Outcome.NoMemory }
    {
        let replaced = self.meet(packet);
        self.found.meet(at, replaced);
        Outcome::Pass
    }

    fn pass_over(&mut self, _at: u64) {}

    fn has_fault(&self, cut: u64) -> bool {
        self.found.is_none_below(cut)
    }

    ghost quiet = { λ plugin. record { no_lines = λ history packet labels. refl; no_summary = λ history. refl } };

    ghost never_agrees = { λ plugin history. refl };
}
