//! The options of `zap`, and its settings from their values.

ghost use Rattle.std.specs.Prelude.{IfOk};
ghost use Rattle.plugin_options.specs.Refusal.{ReadsParsed};
ghost use Rattle.plug_service.specs.ServiceSettings.{IsValidService};
ghost use Rattle.plug_service.specs.ZapWords.{zap_options};

use crate::kept_words::read_kept;
use crate::service_words::service_settings;
use crate::zap_conf::ZapConf;
use plugin_entry::{PluginHelp, PluginSettings};
use plugin_options::{
    Beside, Need, OptionRow, OptionText, OptionWord, ParsedOptions, Refusal, Takes, WordsRule,
};
use std::alloc::Global;

// The options of `zap`.
static ZAP: [OptionRow; 3] = [
    services_row!(),
    OptionRow {
        word: OptionWord::Value("keep", Takes::Words(&["nit", "bat", "eit", "time"])),
        text: OptionText {
            value: "WORD,..",
            meaning: "nit, bat, eit, time, joined by commas: keep these too. nit: PID 16 passes; bat: the BATs on PID 17 stay; eit: PID 18 has the services' EIT sections of this stream and no others, each as soon as it is complete, and null packets between; time: PID 20 passes, with TDT and TOT",
            need: Need::Free,
            beside: Beside::Any,
        },
    },
    stuffing_row!(),
];

impl PluginSettings for ZapConf {
    ghost use Rattle.std.specs.Prelude.{refl};
    ghost use Rattle.plug_service.specs.ZapEntry.{zap_entry};

    ghost entry = { zap_entry };

    fn name() -> &'static str {
        "zap"
    }

    fn options() -> &'static [OptionRow<'static>] {
        &ZAP
    }

    fn help() -> PluginHelp {
        PluginHelp {
            usage: "-P zap [--keep WORD,..] [--stuffing] S ..",
            rule: "The PAT and the SDT have the services alone, their PMTs stay, and so do the PIDs of their components, of their PCRs and of their ECMs; all else is dropped, NIT, EIT and TDT too where they are not kept, also before the first PAT and PMT are complete. It is driven by the tables in force, so it follows a service whose PIDs change under a new version. Where the PAT has none of the services, an empty PAT and SDT are left. A service is given by its number, or by its name as info shows it: the first of that name in the SDT in force, at each packet. Until an SDT has come, a zap with a name carries no PAT and no SDT. Up to 62 services may be given, and one that is given twice counts once.",
        }
    }

    fn read(alloc: Global, found: &ParsedOptions) -> Result<ZapConf, Refusal> {
        zap_settings(alloc, found)
    }

    fn table_file(&self) -> Option<&str> {
        None
    }

    fn uses_joint_termination(&self) -> bool {
        false
    }

    ghost simple = { refl };
}

/// Reads the settings from what the command found in the words.
fn zap_settings(alloc: Global, found: &ParsedOptions) -> Result<ZapConf, Refusal>
    ensures reads { ReadsParsed zap_options found.now result }
    ensures valid { IfOk result (λ conf. IsValidService conf.service) }
{
    if !found.has_values("operand") {
        return Err(Refusal::Broken(WordsRule::Missing));
    }
    let kept = read_kept(found)?;
    let service = service_settings(alloc, found)?;
    Ok(ZapConf { service, kept })
}
