//! The options of `svremove`, and its settings from their values.

use crate::service_words::service_settings;
use crate::svremove_conf::SvremoveConf;
use plugin_entry::{PluginHelp, PluginSettings};
use plugin_options::{
    Beside, Need, OptionRow, OptionText, OptionWord, ParsedOptions, Refusal, Takes,
};
use std::alloc::Global;

// The options of `svremove`.
static SVREMOVE: [OptionRow; 3] = [
    services_row!(),
    OptionRow {
        word: OptionWord::Flag("everywhere"),
        text: OptionText {
            value: "",
            meaning: "remove the services' EIT sections on PID 18 too, and their items in service_list and logical_channel descriptors (tags 65, 131, 136) of this transport stream, in the NIT of the actual network and in BATs; a descriptor that has no item then goes",
            need: Need::Free,
            beside: Beside::Any,
        },
    },
    stuffing_row!(),
];

impl PluginSettings for SvremoveConf {
    ghost use Rattle.std.specs.Prelude.{refl};
    ghost use Rattle.plug_service.specs.SvremoveEntry.{svremove_entry};

    ghost entry = { svremove_entry };

    fn name() -> &'static str {
        "svremove"
    }

    fn options() -> &'static [OptionRow<'static>] {
        &SVREMOVE
    }

    fn help() -> PluginHelp {
        PluginHelp {
            usage: "-P svremove [--everywhere] [--stuffing] S ..",
            rule: "The PAT and the SDT lose the services, and their PMTs are dropped with those of their PIDs above 31 that no other service has; with --everywhere the guide and the lists of NIT and BATs lose them too; all else passes. It is driven by the tables in force, so it follows a service whose PIDs change under a new version. A service is given by its number, or by its name as info shows it: the first of that name in the SDT in force, at each packet. Up to 62 services may be given, and one that is given twice counts once.",
        }
    }

    fn read(alloc: Global, found: &ParsedOptions) -> Result<SvremoveConf, Refusal> {
        let service = service_settings(alloc, found)?;
        Ok(SvremoveConf {
            service,
            everywhere: found.has_flag("everywhere"),
        })
    }

    fn table_file(&self) -> Option<&str> {
        None
    }

    fn uses_joint_termination(&self) -> bool {
        false
    }

    ghost simple = { refl };
}
