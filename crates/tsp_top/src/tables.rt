//! The tables of a plan: each file that the settings of a plugin name is read, in the order of the plugins.
ghost use Rattle.std.specs.Prelude.{◌≡◌, ◌+◌, ◌<◌, ◌^◌, ◌++◌, [], ◌∷◌, List, Ok, Some, length, map, IfOk, IfSome, MatchResult};
ghost use Rattle.std.specs.Fmt.{decimal};
ghost use Rattle.std.specs.String.{string_bytes};
ghost use Rattle.chain_args.specs.ValidPlan.{IsValidPlan};
ghost use Rattle.plugin_settings.specs.Plugins.{table_file_of};
ghost use Rattle.plugin_settings.specs.declared.plugin_item.PluginItem.{PluginItem as GivenItem};
ghost use Rattle.ts_outside.specs.Desk.{DeskView, content};
ghost use Rattle.tsp_top.specs.PlannedTables.{HasSections, IsTable, ReadsTables, files_asked, name_if_any};
ghost use Rattle.tsp_top.specs.TableEnds.{IsOverAtPlugin, IsOverAtTable, IsOverAtTables, RefusesTable};

use crate::status::Status;
use chain_args::Plan;
use plugin_settings::PluginItem;
use std::alloc::{AllocError, Global};
use tabcomp_core::{MOST_BYTES, NoTables, TableFileFault, table_sections};
use ts_outside::{Desk, FileFault, say};
use ts_section::Section;

/// A line about the file of the plugin of this number.
fn table_line_text(alloc: Global, said: &str, plugin: u32) -> Result<String, AllocError>
    ensures { IfOk result (λ text. string_bytes text ≡ said.now ++ (decimal plugin ++ 10 ∷ [])) }
{
    format!(in alloc; "{said}{plugin}\n")
}

/// Reports that the file of a plugin has no tables, and returns its status.
fn refuse_table<D: Desk>(alloc: Global, desk: &mut D, plugin: u32, fault: TableFileFault) -> Status
    ensures { RefusesTable plugin fault (D.seen desk.old) (D.seen desk.new) result }
{
    match table_line_text(alloc, "tsp: no tables in file of plugin ", plugin) {
        Ok(line) => {
            say(desk, line.as_str());
            Status::TableFile { plugin, fault }
        }
        Err(AllocError) => Status::NoMemory,
    }
}

/// The sections of a file of which these bytes were read, or the status where it has none.
fn convert_table<D: Desk>(
    alloc: Global,
    desk: &mut D,
    name: &str,
    bytes: &[u8],
    plugin: u32,
) -> Result<Vec<Section>, Status>
    ensures { (old : DeskView) → D.seen desk.old ≡ files_asked old (name.now ∷ [])
        → IfSome (content old name.now) (λ file. bytes.now ≡ file)
        → MatchResult result
        (λ table. HasSections old name.now (Ok table.items)
        × (D.seen desk.new ≡ files_asked old (name.now ∷ [])))
        (λ status. IsOverAtTable plugin name.now old (D.seen desk.new) status) }
{
    match table_sections(alloc, name, bytes) {
        Ok(table) => Ok(table),
        Err(NoTables::Refused(fault)) => Err(refuse_table(alloc, desk, plugin, fault)),
        Err(NoTables::NoMemory) => Err(Status::NoMemory),
    }
}

/// The sections of the file of this name, or the status where it was not read or has none.
///
/// The line of a failed reading is made first, so that it can be reported whatever memory is left then.
fn read_table<D: Desk>(
    alloc: Global,
    desk: &mut D,
    name: &str,
    plugin: u32,
) -> Result<Vec<Section>, Status>
    ensures { MatchResult result
        (λ table. HasSections (D.seen desk.old) name.now (Ok table.items)
        × (D.seen desk.new ≡ files_asked (D.seen desk.old) (name.now ∷ [])))
        (λ status. IsOverAtTable plugin name.now (D.seen desk.old) (D.seen desk.new) status) }
{
    let Ok(unread) = table_line_text(alloc, "tsp: cannot read table file of plugin ", plugin) else {
        return Err(Status::NoMemory);
    };
    match desk.read_file(Some(name), MOST_BYTES) {
        Ok(bytes) => convert_table(alloc, desk, name, bytes.as_slice(), plugin),
        Err(FileFault::TooMany) => {
            Err(refuse_table(alloc, desk, plugin, TableFileFault::TooMany))
        }
        Err(FileFault::Failed) => {
            say(desk, unread.as_str());
            Err(Status::ReadFault)
        }
        Err(FileFault::NoMemory) => Err(Status::NoMemory),
    }
}

/// The sections that a plugin is given: those of the file that its settings name, and none where they name none.
fn read_if_named<D: Desk>(
    alloc: Global,
    desk: &mut D,
    item: &PluginItem,
    plugin: u32,
) -> Result<Vec<Section>, Status>
    ensures { MatchResult result
        (λ table. IsTable (D.seen desk.old) (table_file_of item.now.conf) table.items
        × (D.seen desk.new ≡ files_asked (D.seen desk.old) (name_if_any (table_file_of item.now.conf))))
        (λ status. IsOverAtPlugin plugin item.now (D.seen desk.old) (D.seen desk.new) status) }
{
    match item.conf.table_file() {
        Some(name) => read_table(alloc, desk, name, plugin),
        None => Ok(Vec::new(alloc)),
    }
}

/// Appends the tables of these plugins, the first of which has this number, to those of the plugins before them.
fn read_after<D: Desk>(
    alloc: Global,
    desk: &mut D,
    tables: &mut Vec<Vec<Section>>,
    items: &[PluginItem],
    plugin: u32,
) -> Result<(), Status>
    requires { plugin + length items.now < 2 ^ 32 }
    ensures { (before : List GivenItem) (old : DeskView) → plugin ≡ length before + 1
        → ReadsTables before (map (λ table. table.items) tables.old.items) old (D.seen desk.old)
        → MatchResult result
        (λ _. ReadsTables (before ++ items.now) (map (λ table. table.items) tables.new.items) old (D.seen desk.new))
        (λ status. IsOverAtTables (before ++ items.now) old (D.seen desk.new) status) }
{
    let Some((item, rest)) = items.split_first() else {
        return Ok(());
    };
    let table = read_if_named(alloc, desk, item, plugin)?;
    let Ok(()) = tables.push(table) else {
        return Err(Status::NoMemory);
    };
    read_after(alloc, desk, tables, rest, plugin + 1)
}

/// Reads the files of all plugins of a plan, and returns the tables of each.
pub(crate) fn read_tables<D: Desk>(
    alloc: Global,
    desk: &mut D,
    plan: &Plan,
) -> Result<Vec<Vec<Section>>, Status>
    requires { IsValidPlan plan.now }
    ensures { MatchResult result
        (λ tables. ReadsTables plan.now.plugins (map (λ table. table.items) tables.items)
        (D.seen desk.old) (D.seen desk.new))
        (λ status. IsOverAtTables plan.now.plugins (D.seen desk.old) (D.seen desk.new) status) }
{
    let mut tables = Vec::new(alloc);
    read_after(alloc, desk, &mut tables, plan.plugins.as_slice(), 1)?;
    Ok(tables)
}
