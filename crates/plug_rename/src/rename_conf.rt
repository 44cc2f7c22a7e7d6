//! The settings of `svrename`.

ghost use Rattle.std.specs.Prelude.{◌≡◌, IfOk};

use plug_edit::EditSdtConf;
use std::alloc::{AllocError, Global};

/// Settings of `svrename`.
#[derive(Drop)]
pub struct RenameConf {
    /// The number of the service, 1 to 65535.
    pub service: u16,
    /// Its new number, 1 to 65535.
    pub id: Option<u16>,
    /// The settings of an `sdt` that gives the service its new texts.
    pub texts: EditSdtConf,
}

impl RenameConf {
    /// A copy of the settings.
    pub(crate) fn copy(&self, alloc: Global) -> Result<RenameConf, AllocError>
        ensures { IfOk result (λ conf. conf ≡ self.now) }
    {
        let texts = self.texts.copy(alloc)?;
        Ok(RenameConf {
            service: self.service,
            id: self.id,
            texts,
        })
    }
}
