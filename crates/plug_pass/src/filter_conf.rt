//! The settings of `filter`.

ghost use Rattle.std.specs.Prelude.{◌≡◌};
ghost use Rattle.plug_pass.specs.FilterSettings.{filter_together, sets_labels};

use plugin_options::NumberSet;

/// Settings of `filter`, which selects the packets that meet one of its conditions.
///
/// At least one of the five conditions is given. Without labels to be set the selected packets pass, and the others
/// do not; with them every packet passes, and the selected ones get these labels.
#[derive(Drop)]
pub struct FilterConf {
    /// The PID is one of these; none where it is no condition.
    pub pid: NumberSet,
    /// The packet has a PCR.
    pub pcr: bool,
    /// The packet has its payload unit start indicator set.
    pub unit_start: bool,
    /// The scrambling control is not 0.
    pub scrambled: bool,
    /// The packet has one of these labels, 0 to 31; none where it is no condition.
    pub label: NumberSet,
    /// The packets that meet none are selected instead of those that meet one.
    pub negate: bool,
    /// A packet that does not pass becomes a null packet instead of being dropped. It excludes labels to be set.
    pub stuffing: bool,
    /// The labels, 0 to 31, that selected packets get besides their own; none where no labels are set.
    pub set_label: NumberSet,
}

impl FilterConf {
    /// Whether there are labels to be set.
    pub fn sets_labels(&self) -> bool
        ensures { result ≡ sets_labels self.now }
    {
        !self.set_label.is_empty()
    }

    /// Whether labels to be set and stuffing are not both given.
    pub fn goes_together(&self) -> bool
        ensures { result ≡ filter_together self.now }
    {
        !(self.sets_labels() && self.stuffing)
    }
}
