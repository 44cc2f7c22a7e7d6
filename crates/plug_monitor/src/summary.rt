//! The summary of `monitor`.
ghost use Rattle.std.specs.Prelude.{◌≡◌, ◌++◌, ◌∷◌, [], IfOk, OnOk};
ghost use Rattle.plugin_trait.specs.PlacedLines.{placed_at};
ghost use Rattle.monitor_lines.specs.ErrorTexts as counts_of;
ghost use Rattle.plug_monitor.specs.Counting.{counted};
ghost use Rattle.plug_monitor.specs.MonitorTexts as texts;

use crate::counts::Counts;
use crate::monitor_conf::MonitorConf;
use monitor_lines::Indicator;
use plugin_notes::push_line;
use plugin_trait::{Line, LineText};
use std::alloc::{AllocError, Global};

/// Appends the summary: the count of each indicator that is asked for, and that of all errors.
pub(crate) fn push_summary(
    lines: &mut Vec<Line>,
    cut: u64,
    conf: &MonitorConf,
    counts: &Counts,
) -> Result<(), AllocError>
    ensures { OnOk result (lines.new.items ≡ lines.old.items
        ++ placed_at cut (texts.summary_texts conf.now (counted counts.now) counts.now.all)) }
{
    push_first(lines, cut, conf, counts)?;
    push_second(lines, cut, conf, counts)?;
    push_third(lines, cut, conf, counts)?;
    let text = all_text(*lines.allocator(), counts.all())?;
    push_line(lines, cut, text)?;
    Ok(())
}

// Appends the counts of priority 1.
fn push_first(
    lines: &mut Vec<Line>,
    cut: u64,
    conf: &MonitorConf,
    counts: &Counts,
) -> Result<(), AllocError>
    ensures { OnOk result (lines.new.items ≡ lines.old.items ++ placed_at cut (texts.counts_in conf.now (counted counts.now) texts.first_indicators)) }
{
    push_count(lines, cut, conf, counts, Indicator::Pat)?;
    push_count(lines, cut, conf, counts, Indicator::Counter)?;
    push_count(lines, cut, conf, counts, Indicator::Pmt)?;
    push_count(lines, cut, conf, counts, Indicator::Pid)?;
    Ok(())
}

// Those of priority 2.
fn push_second(
    lines: &mut Vec<Line>,
    cut: u64,
    conf: &MonitorConf,
    counts: &Counts,
) -> Result<(), AllocError>
    ensures { OnOk result (lines.new.items ≡ lines.old.items ++ placed_at cut (texts.counts_in conf.now (counted counts.now) texts.second_indicators)) }
{
    push_count(lines, cut, conf, counts, Indicator::Transport)?;
    push_count(lines, cut, conf, counts, Indicator::Crc)?;
    push_count(lines, cut, conf, counts, Indicator::Pcr)?;
    push_count(lines, cut, conf, counts, Indicator::Accuracy)?;
    push_count(lines, cut, conf, counts, Indicator::Pts)?;
    push_count(lines, cut, conf, counts, Indicator::Cat)?;
    Ok(())
}

// Those of priority 3.
fn push_third(
    lines: &mut Vec<Line>,
    cut: u64,
    conf: &MonitorConf,
    counts: &Counts,
) -> Result<(), AllocError>
    ensures { OnOk result (lines.new.items ≡ lines.old.items ++ placed_at cut (texts.counts_in conf.now (counted counts.now) texts.third_indicators)) }
{
    push_count(lines, cut, conf, counts, Indicator::Nit)?;
    push_count(lines, cut, conf, counts, Indicator::Unreferenced)?;
    push_count(lines, cut, conf, counts, Indicator::Sdt)?;
    push_count(lines, cut, conf, counts, Indicator::Eit)?;
    push_count(lines, cut, conf, counts, Indicator::Rst)?;
    push_count(lines, cut, conf, counts, Indicator::Tdt)?;
    Ok(())
}

// Appends the count of an indicator, where it is asked for.
fn push_count(
    lines: &mut Vec<Line>,
    cut: u64,
    conf: &MonitorConf,
    counts: &Counts,
    indicator: Indicator,
) -> Result<(), AllocError>
    ensures { OnOk result (lines.new.items ≡ lines.old.items ++ placed_at cut (texts.count_if conf.now (counted counts.now) indicator)) }
{
    if !is_asked(conf, indicator) {
        return Ok(());
    }
    let text = count_text(*lines.allocator(), indicator.title(), counts.of(indicator))?;
    push_line(lines, cut, text)?;
    Ok(())
}

// Whether an indicator is asked for.
fn is_asked(conf: &MonitorConf, indicator: Indicator) -> bool
    ensures { result ≡ texts.is_asked conf.now indicator }
{
    if indicator == Indicator::Accuracy && conf.bitrate.is_none() {
        return false;
    }
    u64::from(indicator.priority()) <= conf.priority
}

// The text of a count.
fn count_text(alloc: Global, title: &str, count: u128) -> Result<LineText, AllocError>
    ensures { IfOk result (λ text. text ≡ counts_of.count_text title.now count) }
{
    let text = format!(in alloc; "{title} {count}")?;
    Ok(LineText::of(text))
}

// The text of the count of all errors.
fn all_text(alloc: Global, count: u128) -> Result<LineText, AllocError>
    ensures { IfOk result (λ text. text ≡ texts.all_text count) }
{
    let text = format!(in alloc; "errors {count}")?;
    Ok(LineText::of(text))
}
