//! The errors of a packet, noted until they are written.
ghost use Rattle.std.specs.Prelude.{◌≡◌, option_to_list};
ghost use Rattle.plug_monitor.specs.ErrorNotes.{note_of};

use monitor_lines::MonitorError;
use plugin_notes::PacketNote;
use std::marker::Model;

/// Errors, in their order.
#[derive(Drop)]
pub(crate) struct Errors {
    items: Vec<MonitorError>,
}

impl Model for Errors {
    ghost use Rattle.std.specs.Prelude.{List};
    ghost use Rattle.monitor_lines.specs.declared.monitor_error.MonitorError.{MonitorError as GivenError};

    ghost Value = { List GivenError };

    ghost view = { λ e. e.items.items };
}

impl Errors {
    /// These errors.
    fn of(items: Vec<MonitorError>) -> Errors
        ensures { result ≡ items.items }
    {
        Errors { items }
    }

    /// The errors.
    pub(crate) fn as_slice(&self) -> &[MonitorError]
        ensures { result.now ≡ self.now }
    {
        self.items.as_slice()
    }
}

/// The errors that are known with the packet at a position.
#[derive(Drop)]
pub(crate) struct ErrorNote {
    /// The position.
    pub(crate) at: u64,
    /// The errors.
    pub(crate) errors: Errors,
}

impl ErrorNote {
    ghost use Rattle.std.specs.Prelude.{◌≡◌, option_to_list};
    ghost use Rattle.plug_monitor.specs.ErrorNotes.{note_of};

    /// The note of these errors, where there are some.
    pub(crate) fn of(at: u64, errors: Vec<MonitorError>) -> Option<ErrorNote>
        ensures { option_to_list result ≡ note_of at errors.items }
    {
        if errors.is_empty() {
            return None;
        }
        Some(ErrorNote {
            at,
            errors: Errors::of(errors),
        })
    }
}

impl PacketNote for ErrorNote {
    ghost use Rattle.plug_monitor.specs.ErrorNotes.{place_of};

    ghost place = { place_of };

    fn at(&self) -> u64 {
        self.at
    }
}
