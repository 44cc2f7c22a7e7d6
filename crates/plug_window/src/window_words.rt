//! The options of `compact` and `rmorphan`.
ghost use Rattle.std.specs.Prelude.{◌≡◌, IfOk};
ghost use Rattle.plug_window.specs.WindowSettings.{IsValidWindow};
ghost use Rattle.plug_window.specs.WindowWords.{window};
ghost use Rattle.plugin_options.specs.Refusal.{ReadsParsed};

use crate::window_conf::WindowConf;
use plugin_options::{MOST_WINDOW, ParsedOptions, Refusal, WordsRule};

/// Reads the settings of `compact` or of `rmorphan` from the options that their command found.
pub(crate) fn window_settings(found: &ParsedOptions) -> Result<WindowConf, Refusal>
    ensures reads { ReadsParsed window found.now result }
    ensures valid { IfOk result IsValidWindow }
{
    if !found.has_value("window") {
        return Err(Refusal::Broken(WordsRule::Missing));
    }
    let window = found.number_or("window", 1, MOST_WINDOW, 1)?;
    Ok(WindowConf {
        window,
        stuffing: found.has_flag("stuffing"),
    })
}
