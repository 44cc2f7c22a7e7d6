//! The options of `tables`, and its settings from their values.

ghost use Rattle.std.specs.Prelude.{◌≡◌, IfOk};
ghost use Rattle.plug_tables.specs.TablesSettings.{IsValidTables};
ghost use Rattle.plug_tables.specs.TablesWords.{tables};
ghost use Rattle.plugin_options.specs.Refusal.{ReadsParsed};

use crate::limits::LAST_TABLE_ID;
use crate::tables_conf::TablesConf;
use plugin_entry::{PluginHelp, PluginSettings};
use plugin_options::{
    Beside, LAST_PID, Need, OptionRow, OptionText, OptionWord, ParsedOptions, Refusal, Takes,
};
use std::alloc::Global;

// The options of `tables`.
static TABLES: [OptionRow; 2] = [
    OptionRow {
        word: OptionWord::Value("pid", Takes::Ranges(LAST_PID)),
        text: OptionText {
            value: "LIST",
            meaning: "0 to 8191: the PIDs that are watched; without it, 0, 1, 16, 17, 18 and those of the PMTs",
            need: Need::Free,
            beside: Beside::Any,
        },
    },
    OptionRow {
        word: OptionWord::Value("tid", Takes::Ranges(LAST_TABLE_ID)),
        text: OptionText {
            value: "LIST",
            meaning: "0 to 255: only tables with these table_ids, as 66 for an SDT; without it, all",
            need: Need::Free,
            beside: Beside::Any,
        },
    },
];

// Reads the settings of `tables` from what its command found in the words.
fn tables_settings(alloc: Global, found: &ParsedOptions) -> Result<TablesConf, Refusal>
    ensures reads { ReadsParsed tables found.now result }
    ensures valid { IfOk result IsValidTables }
{
    Ok(TablesConf {
        pid: found.ranges(alloc, "pid", LAST_PID)?,
        tid: found.ranges(alloc, "tid", LAST_TABLE_ID)?,
    })
}

impl PluginSettings for TablesConf {
    ghost use Rattle.std.specs.Prelude.{refl};
    ghost use Rattle.plug_tables.specs.TablesEntry.{tables_entry};

    ghost entry = { tables_entry };

    fn name() -> &'static str {
        "tables"
    }

    fn options() -> &'static [OptionRow<'static>] {
        &TABLES
    }

    fn help() -> PluginHelp {
        PluginHelp {
            usage: "-P tables [--pid LIST] [--tid LIST]",
            rule: "A table has its line at the packet that completes it, with that packet's position and PID, and another one only after a change of its version or of its last section number, and none after a change of its contents alone; a section of an EIT, or one of the short form as a TDT, has a line each time it comes. Every packet passes. The table_id of a PAT is 0, of a CAT 1, a PMT 2, a NIT 64, an SDT 66, a BAT 74, and of EITs 78 and 80 to 95, where they are of this network and stream. A text for inject and tstabcomp is such tables, joined by commas, between {\"#name\":\"tsduck\",\"#nodes\":[ and ]}.",
        }
    }

    fn read(alloc: Global, found: &ParsedOptions) -> Result<TablesConf, Refusal> {
        tables_settings(alloc, found)
    }

    fn table_file(&self) -> Option<&str> {
        None
    }

    fn uses_joint_termination(&self) -> bool {
        false
    }

    ghost simple = { refl };
}
