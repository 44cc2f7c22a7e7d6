//! The services in force and their components, and which services have one on a PID.
ghost use Rattle.std.specs.Prelude.{◌≡◌, ◌<◌, ℕ, List, map, count_by, option_map};
ghost use Rattle.std.specs.List.{filter_map, list_any};
ghost use Rattle.std.specs.Option.{option_copied};
ghost use Rattle.std.specs.Prelude.{◌≤◌, cond};
ghost use Rattle.ts_psi.specs.PatTables.{service_item};
ghost use Rattle.plug_psi.specs.InForce.{pat_of, service_in, services_in};
ghost use Rattle.plug_psi.specs.ForceStands.{StandsFor as IsFed};
ghost use Rattle.ts_psi.specs.PsiTables.{component_item, pmt_held};
ghost use Rattle.plug_info.specs.InfoRule.{has_component, users_of};
ghost use Rattle.plug_info.specs.Components.{has_item};
ghost use Rattle.named_services.specs.SdtInForce.{items_in};

use plug_psi::{InForce, number_and_pid};
use ts_psi::{Component, PatService, Pmt};

/// Whether one of the components has the PID.
fn has_item(components: &[Component], pid: u16) -> bool
    ensures { result ≡ has_item (map component_item components.now) pid }
{
    for component in components {
        if component.pid == pid {
            return true;
        }
    }
    false
}

/// Whether a component of a PMT has the PID.
pub fn has_component(pmt: Option<&Pmt>, pid: u16) -> bool
    ensures { result ≡ has_component (option_map pmt_held (option_copied pmt.entry)) pid }
{
    match pmt {
        Some(pmt) => has_item(pmt.components.as_slice(), pid),
        None => false,
    }
}

/// The components of a PMT, in its order; none without one.
pub fn components_of(pmt: Option<&Pmt>) -> &[Component]
    ensures { map component_item result.now ≡ items_in (option_map pmt_held (option_copied pmt.entry)) }
{
    match pmt {
        Some(pmt) => pmt.components.as_slice(),
        None => &[],
    }
}

/// The services of the PAT in force, in its order; none without one.
#[tactic(auto, using(crate::proofs::LineLemmas::services_are))]
pub fn services_of(force: &InForce) -> &[PatService]
    ensures { (fed : List (List ℕ)) → IsFed force.now fed
        → filter_map service_in (map service_item result.now) ≡ services_in (pat_of fed) }
{
    match force.pat() {
        Some(pat) => pat.services.as_slice(),
        None => &[],
    }
}

/// How many services of the PAT in force have a component on the PID.
pub fn users_of(force: &InForce, pid: u16) -> u64
    ensures { (fed : List (List ℕ)) → IsFed force.now fed → result ≡ users_of fed pid }
{
    let entries = services_of(force);
    let mut users = 0;
    for service in entries {
        let (id, _) = number_and_pid(service);
        users += one_if(has_component(force.pmt(id), pid));
    }
    users
}

// 1 if it is counted, else 0.
fn one_if(is_one: bool) -> u64
    ensures is { result ≡ cond is_one 1 0 }
    ensures most { result ≤ 1 }
{
    if is_one { 1 } else { 0 }
}
