//! The settings of `pat`.

ghost use Rattle.std.specs.Prelude.{◌≡◌, IfOk};

use plugin_options::{NumberSet, PairList};
use std::alloc::{AllocError, Global};

/// Settings of `pat`, which edits the PAT on PID 0.
#[derive(Drop)]
pub struct EditPatConf {
    /// Services that are added one after another, each from 1 to 65535 with the PID of its PMT.
    pub add_service: PairList,
    /// Services that are removed.
    pub remove_service: NumberSet,
    /// The new transport_stream_id, 0 to 65535.
    pub ts_id: Option<u64>,
    /// The new network PID, 0 to 8191.
    pub nit: Option<u64>,
    /// The new version, 0 to 31.
    pub new_version: Option<u64>,
    /// Whether the version is incremented; after 31 comes 0.
    pub increment_version: bool,
}

impl EditPatConf {
    /// A copy of the settings.
    pub fn copy(&self, alloc: Global) -> Result<EditPatConf, AllocError>
        ensures { IfOk result (λ conf. conf ≡ self.now) }
    {
        Ok(EditPatConf {
            add_service: PairList::of(Vec::from_slice(alloc, self.add_service.as_slice())?),
            remove_service: NumberSet::of(Vec::from_slice(alloc, self.remove_service.as_slice())?),
            ts_id: self.ts_id,
            nit: self.nit,
            new_version: self.new_version,
            increment_version: self.increment_version,
        })
    }
}
