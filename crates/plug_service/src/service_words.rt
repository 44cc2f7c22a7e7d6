//! The options of `zap` and `svremove`, which have the same ones, and their settings from the values.

ghost use Rattle.std.specs.Prelude.{IfOk};
ghost use Rattle.plugin_options.specs.Refusal.{ReadsParsed};
ghost use Rattle.plug_service.specs.ServiceSettings.{IsValidService};
ghost use Rattle.plug_service.specs.ServiceWords.{service_options};

use crate::limits::MOST_SERVICES;
use crate::service_conf::ServiceConf;
use named_services::read_services;
use plugin_options::{ParsedOptions, Refusal, WordsRule};
use std::alloc::Global;

/// Reads the settings of either plugin from what its command found in the words.
pub(crate) fn service_settings(alloc: Global, found: &ParsedOptions) -> Result<ServiceConf, Refusal>
    ensures reads { ReadsParsed service_options found.now result }
    ensures valid { IfOk result IsValidService }
{
    if !found.has_values("operand") {
        return Err(Refusal::Broken(WordsRule::Missing));
    }
    let services = read_services(alloc, found.texts("operand"))?;
    if services.len() > MOST_SERVICES {
        return Err(Refusal::Broken(WordsRule::Conflict));
    }
    Ok(ServiceConf {
        services,
        stuffing: found.has_flag("stuffing"),
    })
}
