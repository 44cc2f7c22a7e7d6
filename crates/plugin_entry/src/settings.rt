//! The settings of a plugin, which say all that there is to say of it.

use crate::plugin_help::PluginHelp;
use plugin_options::{OptionRow, ParsedOptions, Refusal};
use std::alloc::Global;

/// The settings of a plugin. Their type says of the plugin what the layers above need to know before they make it.
pub trait PluginSettings: Sized {
    ghost use Rattle.std.specs.Prelude.{◌≡◌, IfOk, true, option_map};
    ghost use Rattle.clap.specs.Faults.{is_simple_and_free};
    ghost use Rattle.plugin_options.specs.Options.{command_of};
    ghost use Rattle.plugin_options.specs.OptionWords.{rows_of_options};
    ghost use Rattle.plugin_options.specs.Refusal.{ReadsParsed};
    ghost use Rattle.plugin_entry.specs.PluginEntry.{PluginEntry};

    /// What is said of the plugin.
    ghost entry: { PluginEntry Self };

    /// Its name on the command line and in the reports.
    fn name() -> &'static str
        ensures { result.now ≡ entry.name };

    /// Its options with what is said of them, but for `--only-label`, which every plugin has.
    fn options() -> &'static [OptionRow<'static>]
        ensures { rows_of_options result.now ≡ entry.options.rows };

    /// What is said of it beside its options.
    fn help() -> PluginHelp;

    /// Reads the settings from what the command of the options found.
    fn read(alloc: Global, found: &ParsedOptions) -> Result<Self, Refusal>
        ensures reads { ReadsParsed entry.options found.now result }
        ensures valid { IfOk result entry.is_valid };

    /// The file whose sections the plugin takes; `None` where it takes none. The empty name is standard input.
    fn table_file(&self) -> Option<&str>
        ensures { option_map (λ name. name.now) result ≡ entry.table_file self.now };

    /// Whether the plugin uses joint termination.
    fn uses_joint_termination(&self) -> bool
        ensures { result ≡ entry.joint self.now };

    /// `clap` reads the options by its simple rules.
    ghost simple: { is_simple_and_free (command_of entry.options.rows) ≡ true };
}
