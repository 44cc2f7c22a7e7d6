//! The options of `analyze`: there are none.

use crate::analyze_conf::AnalyzeConf;
use plugin_entry::{PluginHelp, PluginSettings};
use plugin_options::{OptionRow, ParsedOptions, Refusal};
use std::alloc::Global;

impl PluginSettings for AnalyzeConf {
    ghost use Rattle.std.specs.Prelude.{refl};
    ghost use Rattle.plug_analyze.specs.AnalyzeEntry.{analyze_entry};

    ghost entry = { analyze_entry };

    fn name() -> &'static str {
        "analyze"
    }

    fn options() -> &'static [OptionRow<'static>] {
        &[]
    }

    fn help() -> PluginHelp {
        PluginHelp {
            usage: "-P analyze",
            rule: "At the end there is a line for each PID, with its packets, those with a payload, those that are scrambled, its counter faults and its PCRs, and one for each service of the PAT, with its number, its PMT's PID and the number of its components. Every packet passes.",
        }
    }

    fn read(_alloc: Global, _found: &ParsedOptions) -> Result<AnalyzeConf, Refusal> {
        Ok(AnalyzeConf {})
    }

    fn table_file(&self) -> Option<&str> {
        None
    }

    fn uses_joint_termination(&self) -> bool {
        false
    }

    ghost simple = { refl };
}
