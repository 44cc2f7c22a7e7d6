//! The settings of `sdt`.

ghost use Rattle.std.specs.Prelude.{◌≡◌, IfOk};
ghost use Rattle.plug_edit.specs.SdtSettings.{changes_service, sdt_together};

use crate::texts::copy_of_text;
use crate::versions::versions_agree;
use plugin_options::NumberSet;
use std::alloc::{AllocError, Global};
use ts_outside::NameText;

/// Settings of `sdt`, which edits the SDT of the actual transport stream on PID 17.
#[derive(Drop)]
pub struct EditSdtConf {
    /// Services that are removed.
    pub remove_service: NumberSet,
    /// The service that the next five options change, 0 to 65535.
    pub service: Option<u64>,
    /// Its new name.
    pub name: Option<NameText>,
    /// The new name of its provider.
    pub provider: Option<NameText>,
    /// Its new service_type, 0 to 255.
    pub service_type: Option<u64>,
    /// Its new running_status, 0 to 7.
    pub running_status: Option<u64>,
    /// Its new free_CA_mode, 0 or 1.
    pub free_ca_mode: Option<u64>,
    /// The new version, 0 to 31.
    pub new_version: Option<u64>,
    /// Whether the version is incremented; after 31 comes 0.
    pub increment_version: bool,
}

impl EditSdtConf {
    /// A copy of the settings.
    pub fn copy(&self, alloc: Global) -> Result<EditSdtConf, AllocError>
        ensures { IfOk result (λ conf. conf ≡ self.now) }
    {
        Ok(EditSdtConf {
            remove_service: NumberSet::of(Vec::from_slice(alloc, self.remove_service.as_slice())?),
            service: self.service,
            name: copy_of_text(&self.name)?,
            provider: copy_of_text(&self.provider)?,
            service_type: self.service_type,
            running_status: self.running_status,
            free_ca_mode: self.free_ca_mode,
            new_version: self.new_version,
            increment_version: self.increment_version,
        })
    }
    /// Whether something of a service is changed.
    fn changes_service(&self) -> bool
        ensures { result ≡ changes_service self.now }
    {
        self.name.is_some()
            || self.provider.is_some()
            || self.service_type.is_some()
            || self.running_status.is_some()
            || self.free_ca_mode.is_some()
    }

    /// Whether a service is named if something of it is changed, and at most one option of the version is given.
    pub fn goes_together(&self) -> bool
        ensures { result ≡ sdt_together self.now }
    {
        let wants_service = self.changes_service() && self.service.is_none();
        !wants_service && versions_agree(self.new_version, self.increment_version)
    }
}
