//! The text of lines that plugins gave out.
ghost use Rattle.std.specs.Prelude.{◌≡◌, ◌≤◌, ◌++◌, ◌∷◌, [], List, length, OnOk};
ghost use Rattle.std.specs.String.{string_bytes};
ghost use Rattle.chain_live.specs.LiveReports.{LiveLine};
ghost use Rattle.chain_rounds.specs.Told.{shown};
ghost use Rattle.chain_tells.specs.Waiting.{waiting};
ghost use Rattle.stage_run.specs.InputStands as stage;
ghost use Rattle.tsp_top.specs.InputRounds.{round_text};
ghost use Rattle.tsp_top.specs.LeftOut.{position_of};
ghost use Rattle.tsp_top.specs.Printed.{live_line};
ghost use Rattle.tsp_top.specs.Printing.{name_at, told_text};

use crate::gap_places::is_after_place;
use crate::reporting::push_line;
use chain_rounds::ToldLine;
use chain_tells::{LineTexts, WaitingLines};
use plugin_settings::PluginItem;
use stage_run::Stuffing;
use std::alloc::{AllocError, Global};

/// The name of the plugin of this number, counted from 1.
fn name_of_number(items: &[PluginItem], number: usize) -> &str
    ensures { result.now ≡ name_at items.now number }
{
    match items.get(number.saturating_sub(1)) {
        Some(item) => item.conf.name(),
        None => "",
    }
}

/// Appends a line that a plugin gave out to the text, bare or with the plugin's number and name.
pub(crate) fn push_told(
    text: &mut String,
    bare: bool,
    items: &[PluginItem],
    told: &ToldLine,
) -> Result<(), AllocError>
    ensures { OnOk result (string_bytes text.new
        ≡ string_bytes text.old ++ live_line bare (shown (name_at items.now) told.now)) }
{
    let name = name_of_number(items, told.plugin);
    push_line(text, bare, told.plugin, name, told.line.text.as_str())
}

/// Appends the lines that wait to the text, one after another, until none is left.
pub(crate) fn push_waiting(
    text: &mut String,
    bare: bool,
    items: &[PluginItem],
    lines: &mut WaitingLines,
) -> Result<(), AllocError>
    ensures said { OnOk result (string_bytes text.new ≡ string_bytes text.old ++ told_text bare items.now (waiting lines.old)) }
    ensures rows { length lines.new.rows.items ≡ length lines.old.rows.items }
{
    while let Some(told) = lines.next() {
        push_told(text, bare, items, &told)?;
    }
    Ok(())
}

/// Writes the lines that wait and are at positions before that of the packet with this number.
pub(crate) fn push_before(
    text: &mut String,
    bare: bool,
    stuffing: &Stuffing,
    items: &[PluginItem],
    number: u64,
    lines: &mut WaitingLines,
) -> Result<(), AllocError>
    requires { 1 ≤ stuffing.now.every }
    ensures said { (line : LiveLine) (later : List LiveLine) → line.at ≡ position_of (stage.stuffing_of stuffing.now) number
        → OnOk result (string_bytes text.new ++ round_text bare items.now (line ∷ []) [] ++ round_text bare items.now later (waiting lines.new)
        ≡ string_bytes text.old ++ round_text bare items.now (line ∷ later) (waiting lines.old)) }
    ensures rows { length lines.new.rows.items ≡ length lines.old.rows.items }
{
    while let Some(at) = lines.next_at() {
        if !is_after_place(stuffing, at, number) {
            return Ok(());
        }
        let Some(told) = lines.next() else {
            return Ok(());
        };
        push_told(text, bare, items, &told)?;
    }
    Ok(())
}

/// Lets go of the lines that wait.
pub(crate) fn let_go(lines: &mut WaitingLines)
    ensures all { waiting lines.new ≡ [] }
    ensures rows { length lines.new.rows.items ≡ length lines.old.rows.items }
{
    while let Some(_told) = lines.next() {}
}

/// Writes the lines of a run, with the numbers and names of their plugins or bare.
#[derive(Drop)]
pub(crate) struct PluginTexts<'a> {
    /// Whether lines go without the number and the name of their plugin.
    pub(crate) bare: bool,
    /// The plugins of the run.
    pub(crate) items: &'a [PluginItem],
}

impl<'a> LineTexts for PluginTexts<'a> {
    ghost text_of = { λ texts lines. told_text texts.bare texts.items.now lines };

    fn take_text(&self, alloc: Global, lines: &mut WaitingLines) -> Result<String, AllocError> {
        let mut text = String::new(alloc);
        let pushed = push_waiting(&mut text, self.bare, self.items, lines);
        let_go(lines);
        pushed?;
        Ok(text)
    }
}
