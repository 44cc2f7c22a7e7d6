//! What is played, and where to.
ghost use Rattle.std.specs.Prelude.{◌≡◌, ◌≤◌, IfSome, unwrap_or};

use switch_args::{SwitchOutput, SwitchSettings};
use ts_outside::NameText;

/// How many packets a stage takes at a time. A batch that is handed on wakes the other stage; larger ones do not
/// stay in the processors' caches.
pub(crate) const BATCH: usize = 1024;

/// How many packets a ring has where the words do not say it: four batches, so that both stages have some to work on at
/// once. Each play takes a ring of its own, and two are there at once.
const DEFAULT_BUFFER: u64 = 4096;

/// What is played, and where to.
#[derive(Drop)]
pub struct SwitchPlan {
    /// How often the whole row of inputs is played, from 1 to 1,000.
    pub cycle: u64,
    /// How many packets each ring has, from 1 to 1,000,000.
    pub buffer: usize,
    /// Whether the packets of each input are found again in bytes with damage.
    pub resync: bool,
    /// The names of the inputs, from 1 to 32.
    pub inputs: Vec<NameText>,
    /// The output.
    pub output: SwitchOutput,
}

/// A number if it is given, else another one.
fn given_or(given: Option<u64>, other: u64, most: u64) -> u64
    requires given { IfSome given (λ n. (1 ≤ n) × (n ≤ most)) }
    requires other { (1 ≤ other) × (other ≤ most) }
    ensures value { result ≡ unwrap_or given other }
    ensures some { 1 ≤ result }
    ensures most { result ≤ most }
{
    match given {
        Some(given) => given,
        None => other,
    }
}

impl SwitchPlan {
    ghost use Rattle.std.specs.Prelude.{◌≤◌, ◌<◌, length};
    ghost use Rattle.switch_args.specs.Readings.{given_of_settings};
    ghost use Rattle.switch_args.specs.ValidSettings.{IsValid};
    ghost use Rattle.switch_top.specs.SwitchPlans.{IsPlanOf};

    /// The plan of settings: where they do not say it, the row is played once, over rings of the program's own size.
    pub(crate) fn of(settings: SwitchSettings) -> SwitchPlan
        requires { IsValid (given_of_settings settings) }
        ensures plan { IsPlanOf (given_of_settings settings) result }
        ensures some { 0 < length result.inputs.items }
        ensures few { length result.inputs.items ≤ 32 }
        ensures cycle { result.cycle ≤ 1000 }
        ensures buffer { (1 ≤ result.buffer) × (result.buffer ≤ 1000000) }
    {
        let SwitchSettings {
            cycle,
            buffer,
            resync,
            inputs,
            output,
        } = settings;
        SwitchPlan {
            cycle: given_or(cycle, 1, 1000),
            buffer: given_or(buffer, DEFAULT_BUFFER, 1_000_000) as usize,
            resync,
            inputs,
            output,
        }
    }
}
