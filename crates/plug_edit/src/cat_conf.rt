//! The settings of `cat`.

ghost use Rattle.std.specs.Prelude.{◌≡◌, IfOk};

use plugin_options::{NumberSet, PairList};
use std::alloc::{AllocError, Global};

/// Settings of `cat`, which edits the CAT on PID 1.
#[derive(Drop)]
pub struct EditCatConf {
    /// CA descriptors that are added, each a CA_system_id, 0 to 65535, and a CA_PID, without private bytes.
    pub add_ca: PairList,
    /// CA systems whose CA descriptors are removed.
    pub remove_casid: NumberSet,
    /// CA_PIDs whose CA descriptors are removed.
    pub remove_pid: NumberSet,
    /// The new version, 0 to 31.
    pub new_version: Option<u64>,
    /// Whether the version is incremented; after 31 comes 0.
    pub increment_version: bool,
}

impl EditCatConf {
    /// A copy of the settings.
    pub fn copy(&self, alloc: Global) -> Result<EditCatConf, AllocError>
        ensures { IfOk result (λ conf. conf ≡ self.now) }
    {
        Ok(EditCatConf {
            add_ca: PairList::of(Vec::from_slice(alloc, self.add_ca.as_slice())?),
            remove_casid: NumberSet::of(Vec::from_slice(alloc, self.remove_casid.as_slice())?),
            remove_pid: NumberSet::of(Vec::from_slice(alloc, self.remove_pid.as_slice())?),
            new_version: self.new_version,
            increment_version: self.increment_version,
        })
    }
}
