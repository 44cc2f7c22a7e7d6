//! What the PAT in force says of a service.

ghost use Rattle.std.specs.Prelude.{◌≡◌, ◌==◌, ℕ, List, None, false, map, option_map};
ghost use Rattle.std.specs.List.{filter_map, list_any};
ghost use Rattle.std.specs.Option.{option_copied};
ghost use Rattle.ts_psi.specs.PatTables.{pat_held, service_item};
ghost use Rattle.plug_psi.specs.ForceStands.{StandsFor as Forced};
ghost use Rattle.plug_psi.specs.InForce.{pat_of, service_in};
ghost use Rattle.plug_rename.specs.RenameActions;
ghost use Rattle.plug_rename.specs.RenameState.{IsPlace};
ghost use Rattle.plug_rename.specs.declared.rename_conf.RenameConf.{RenameConf};

use crate::rename_conf::RenameConf;
use plug_psi::{InForce, number_and_pid, pid_of_service};
use ts_psi::{Pat, PatService};

/// What the PAT in force says of a service. It is looked up when a table came, and not at each packet.
#[derive(Clone, Copy)]
pub(crate) struct Place {
    /// The PID of its first entry, if it has one.
    pub(crate) own: Option<u16>,
    /// Whether its new number is that of another service.
    pub(crate) collides: bool,
}

impl Place {
    /// While no PAT is in force.
    pub(crate) fn none() -> Place
        ensures { (conf : RenameConf) → IsPlace conf result None }
    {
        Place {
            own: None,
            collides: false,
        }
    }

    /// By a PAT, if there is one.
    fn of(conf: &RenameConf, pat: Option<&Pat>) -> Place
        ensures { IsPlace conf.now result (option_map pat_held (option_copied pat.entry)) }
    {
        Place {
            own: pid_of_service(pat, conf.service),
            collides: collides(conf, pat),
        }
    }
}

/// The place by the tables in force after a packet; if none came with it, it is the place of before.
#[inline]
pub(crate) fn place_where(came: bool, place: Place, conf: &RenameConf, force: &InForce) -> Place
    ensures { (before after : List (List ℕ)) → Forced force.now after → (came ≡ false → pat_of after ≡ pat_of before)
        → IsPlace conf.now place (pat_of before) → IsPlace conf.now result (pat_of after) }
{
    if !came {
        return place;
    }
    Place::of(conf, force.pat())
}

/// Whether the new number is that of another service of a PAT.
fn collides(conf: &RenameConf, pat: Option<&Pat>) -> bool
    ensures { result ≡ RenameActions.collides conf.now.service conf.now.id (option_map pat_held (option_copied pat.entry)) }
{
    let Some(id) = conf.id else {
        return false;
    };
    let Some(pat) = pat else {
        return false;
    };
    id != conf.service && names_service(pat.services.as_slice(), id)
}

/// Whether an entry of a PAT has a number.
fn names_service(entries: &[PatService], id: u16) -> bool
    ensures { result ≡ list_any (λ entry. entry.0 == id) (filter_map service_in (map service_item entries.now)) }
{
    for entry in entries {
        let (number, _) = number_and_pid(entry);
        if number == id {
            return true;
        }
    }
    false
}
