//! The plugin `pattern`.

ghost use Rattle.std.specs.Prelude.{◌≡◌, ◌≤◌, ◌<◌, IfOk, ℕ, List, [], Some, length};
ghost use Rattle.plug_pass.specs.PatternRule.{pattern_rule, repeated, patterned_from};
ghost use Rattle.plug_pass.specs.PatternSettings.{IsValidPattern};

use crate::pattern_conf::PatternConf;
use plugin_options::PidSet;
use plugin_trait::{Outcome, Plugin, Silent, Steps};
use std::alloc::{AllocError, Global};
use ts_outside::FileBytes;
use ts_packet::{Labels, PACKET_SIZE, PAYLOAD_SIZE, Packet};

/// Writes a pattern over the payloads of packets on selected PIDs.
#[derive(Drop)]
pub struct PatternSteps {
    pattern: FileBytes,
    pids: PidSet,
    negate: bool,
    offset_pusi: Option<u64>,
    offset_non_pusi: Option<u64>,
    /// The pattern repeated, as long as the longest payload.
    filled: [u8; PAYLOAD_SIZE],
    buffer: usize,
}

/// The plugin `pattern`.
pub type Pattern = Silent<PatternSteps>;

/// A plugin that met no cell yet. It takes room for its pattern and its table of PIDs, and its steps
/// take none.
pub fn new_pattern(alloc: Global, conf: &PatternConf, buffer: usize) -> Result<Pattern, AllocError>
    requires { IsValidPattern conf.now }
    ensures rule { IfOk result (λ plugin. ⟦<Pattern as Plugin>⟧.rule plugin ≡ pattern_rule conf.now) }
    ensures fresh { IfOk result (λ plugin. ⟦<Pattern as Plugin>⟧.stands_for plugin [] 0) }
    ensures preallocated { IfOk result (λ plugin. ⟦<Pattern as Plugin>⟧.preallocated plugin ≡ Some buffer) }
{
    let steps = PatternSteps {
        pattern: conf.operand.copy()?,
        pids: PidSet::of(alloc, &conf.pid)?,
        negate: conf.negate,
        offset_pusi: conf.offset_pusi,
        offset_non_pusi: conf.offset_non_pusi,
        filled: filled_with(conf.operand.as_slice()),
        buffer,
    };
    Ok(Silent { steps })
}

impl PatternSteps {
    ghost use Rattle.std.specs.Prelude.{◌≡◌};
    ghost use Rattle.plug_pass.specs.PatternRule.{offset_for, edited};
    ghost use Rattle.plug_pass.specs.PatternState.{conf_of, IsMade};

    // Where in the payload the pattern begins.
    fn offset_for(&self, packet: &Packet) -> u64
        requires { IsMade self.now.filled self.now.pattern self.now.offset_pusi self.now.offset_non_pusi }
        ensures offset { result ≡ offset_for (conf_of self.now) packet.now }
        ensures range { result < PAYLOAD_SIZE }
    {
        let offset = if packet.unit_start() {
            self.offset_pusi
        } else {
            self.offset_non_pusi
        };
        offset.unwrap_or(0)
    }

    // Writes the pattern, if the packet's PID is selected and the place is in the packet.
    fn edit(&self, packet: &mut Packet)
        requires { IsMade self.now.filled self.now.pattern self.now.offset_pusi self.now.offset_non_pusi }
        ensures { packet.new ≡ edited (conf_of self.now) packet.old }
    {
        if !self.pids.selects(self.negate, packet.pid()) {
            return;
        }
        if let Some(start) = packet.payload_start() {
            write_from(
                packet,
                u64::from(start) + self.offset_for(packet),
                &self.filled,
            );
        }
    }
}

// The pattern repeated.
fn filled_with(pattern: &[u8]) -> [u8; PAYLOAD_SIZE]
    requires { 1 ≤ length pattern.now }
    ensures { result ≡ repeated pattern.now PAYLOAD_SIZE }
{
    let mut filled = [0; PAYLOAD_SIZE];
    for (k, byte) in filled.iter_mut().enumerate() {
        *byte = pattern[k % pattern.len()];
    }
    filled
}

impl Steps for PatternSteps {
    ghost use Rattle.std.specs.Prelude.{Some, refl};
    ghost use Rattle.plug_pass.specs.PatternRule.{pattern_rule, repeated};
    ghost use Rattle.plug_pass.specs.PatternState.{conf_of, IsMade};

    ghost rule = { λ s. pattern_rule (conf_of s) };

    ghost stands_for = { λ s history. IsMade s.filled s.pattern s.offset_pusi s.offset_non_pusi };

    ghost preallocated = { λ s. Some s.buffer };

    #[inline]
    fn step(&mut self, _at: u64, packet: &mut Packet, _labels: &mut Labels) -> Outcome {
        self.edit(packet);
        Outcome::Pass
    }

    fn pass_over(&mut self, _at: u64) {}

    fn has_fault(&self, _cut: u64) -> bool {
        false
    }

    ghost quiet = { λ plugin. record { no_lines = λ history packet labels. refl; no_summary = λ history. refl } };

    ghost never_agrees = { λ plugin history. refl };
}

// Writes a pattern from a place to the packet's end, where the place is in the packet.
fn write_from(packet: &mut Packet, at: u64, filled: &[u8; PAYLOAD_SIZE])
    requires after_header { 4 ≤ at }
    ensures { (pattern : List ℕ) → filled.now ≡ repeated pattern PAYLOAD_SIZE → packet.new ≡ patterned_from pattern at packet.old }
{
    if at < PACKET_SIZE as u64 {
        packet.put_payload(at as u8, &filled[..PACKET_SIZE - at as usize]);
    }
}
