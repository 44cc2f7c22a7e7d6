//! The settings of `eit`.

ghost use Rattle.std.specs.Prelude.{◌≡◌, IfOk};
ghost use Rattle.plug_eit.specs.EitSettings.{changes_events, eit_together};

use followed_services::ServiceWord;
use std::alloc::AllocError;
use ts_outside::NameText;

/// Settings of `eit`, which edits the EIT sections of a service as they pass.
#[derive(Drop)]
pub struct EitConf {
    /// The number of the service, or its name.
    pub service: ServiceWord,
    /// The event_id of the events that are edited, 0 to 65,535; without it all are.
    pub event: Option<u64>,
    /// Their new name.
    pub name: Option<NameText>,
    /// The new text about them.
    pub text: Option<NameText>,
    /// By how many seconds they start later, and earlier where it is below 0; -10,000,000 to 10,000,000.
    pub shift: Option<i64>,
    /// Their new running_status, 0 to 7.
    pub running_status: Option<u64>,
    /// Their new free_CA_mode, 0 or 1.
    pub free_ca_mode: Option<u64>,
    /// Whether they are removed; without `event` the sections are.
    pub remove: bool,
}

impl EitConf {
    /// A copy of the settings.
    pub fn copy(&self) -> Result<EitConf, AllocError>
        ensures { IfOk result (λ conf. conf ≡ self.now) }
    {
        Ok(EitConf {
            service: self.service.copy()?,
            event: self.event,
            name: copy_of_text(&self.name)?,
            text: copy_of_text(&self.text)?,
            shift: self.shift,
            running_status: self.running_status,
            free_ca_mode: self.free_ca_mode,
            remove: self.remove,
        })
    }

    /// Whether something of an event is changed.
    fn changes_events(&self) -> bool
        ensures { result ≡ changes_events self.now }
    {
        self.name.is_some()
            || self.text.is_some()
            || self.shift.is_some()
            || self.running_status.is_some()
            || self.free_ca_mode.is_some()
    }

    /// Whether events are not both changed and removed.
    pub(crate) fn goes_together(&self) -> bool
        ensures { result ≡ eit_together self.now }
    {
        !(self.remove && self.changes_events())
    }
}

// A copy of a text, if there is one.
fn copy_of_text(text: &Option<NameText>) -> Result<Option<NameText>, AllocError>
    ensures { IfOk result (λ copied. copied ≡ text.now) }
{
    match text {
        Some(text) => Ok(Some(text.copy()?)),
        None => Ok(None),
    }
}
