//! The settings of `nit`.

ghost use Rattle.std.specs.Prelude.{◌≡◌, IfOk};

use crate::texts::copy_of_text;
use plugin_options::NumberSet;
use std::alloc::{AllocError, Global};
use ts_outside::NameText;

/// Settings of `nit`, which edits the NIT of the actual network on PID 16.
#[derive(Drop)]
pub struct EditNitConf {
    /// Transport streams that are removed.
    pub remove_ts: NumberSet,
    /// The new network_id, 0 to 65535.
    pub network_id: Option<u64>,
    /// The new name of the network.
    pub network_name: Option<NameText>,
    /// The new version, 0 to 31.
    pub new_version: Option<u64>,
    /// Whether the version is incremented; after 31 comes 0.
    pub increment_version: bool,
}

impl EditNitConf {
    /// A copy of the settings.
    pub fn copy(&self, alloc: Global) -> Result<EditNitConf, AllocError>
        ensures { IfOk result (λ conf. conf ≡ self.now) }
    {
        Ok(EditNitConf {
            remove_ts: NumberSet::of(Vec::from_slice(alloc, self.remove_ts.as_slice())?),
            network_id: self.network_id,
            network_name: copy_of_text(&self.network_name)?,
            new_version: self.new_version,
            increment_version: self.increment_version,
        })
    }
}
