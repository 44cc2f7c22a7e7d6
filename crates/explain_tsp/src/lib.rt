//! What is said of the command line of `tsp`: the tables of options that its words are read by come in, the table by which faults
//! of words are explained goes out. The layer above uses `tsp_help`; its texts are shown by `test_explain`.
#![tactic(auto)]

use chain_args::{general_help, input_helps, output_helps};
use explain_words::{HelpTable, SegmentRow};
use plugin_options::SegmentHelp;
use plugin_settings::{PluginKind, further_options};
use std::alloc::{AllocError, Global};

// A plugin, with the options that plugins share after its own.
fn plugin_row(alloc: Global, kind: PluginKind) -> Result<SegmentRow, AllocError> {
    let help = kind.help();
    let own = SegmentHelp {
        first: "-P",
        name: kind.name(),
        usage: help.usage,
        rule: help.rule,
        options: kind.options(),
    };
    SegmentRow::of(alloc, &own, further_options(kind.has_summary()))
}

// Appends segments without further options.
fn push_rows(
    alloc: Global,
    segments: &mut Vec<SegmentRow>,
    helps: &[SegmentHelp],
) -> Result<(), AllocError> {
    for help in helps {
        segments.push(SegmentRow::of(alloc, help, &[])?)?;
    }
    Ok(())
}

/// What is said of the words of `tsp`: its general options, inputs, outputs and plugins.
pub fn tsp_help(alloc: Global) -> Result<HelpTable, AllocError> {
    let mut segments = Vec::new(alloc);
    push_rows(alloc, &mut segments, &input_helps())?;
    push_rows(alloc, &mut segments, &output_helps())?;
    for kind in PluginKind::all() {
        segments.push(plugin_row(alloc, *kind)?)?;
    }
    Ok(HelpTable {
        general: SegmentRow::of(alloc, &general_help(), &[])?,
        segments,
    })
}
