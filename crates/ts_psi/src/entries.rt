//! The entries of a PAT as items of its table.

ghost use Rattle.std.specs.Prelude.{◌≡◌, ◌<◌, map, filter, find, not, true, option_to_list, IfOk};
ghost use Rattle.std.specs.List.{list_all};
ghost use Rattle.std.specs.Option.{ForSome};
ghost use Rattle.ts_table_rows.specs.TableFitting.{item_fits};
ghost use Rattle.ts_table_rows.specs.TableValues.{item_held};
ghost use Rattle.ts_table_pages.specs.PsiPages.{entry_page};
ghost use Rattle.ts_psi.specs.PatTables;
ghost use Rattle.ts_psi.specs.PatTables.{entry_item, network_items, service_item};

use crate::pat::PatServiceList;
use std::alloc::{AllocError, Global};
use ts_bits::DescriptorList;
use ts_fields::FieldValue;
use ts_table_rows::{TableHead, TableItem};

/// The values that a PAT keeps of the heads of its sections.
pub fn pat_head(stream_id: u16, version: u8, current: bool) -> TableHead
    ensures head { result ≡ record {
      table_id = 0x00;
      extension = stream_id;
      version = version;
      current = current;
      numbers = None;
    } }
    ensures in_range { stream_id < 65536 }
{
    TableHead {
        table_id: 0x00,
        extension: stream_id,
        version,
        current,
        numbers: None,
    }
}

/// The program_number and the PID of an entry.
#[tactic(auto, using(ts_table_rows::proofs::ListLemmas::none_held), unfolding(ts_fields::specs::Fitting::fits))]
pub fn entry_of(item: &TableItem) -> (u16, u16)
    requires { item_fits entry_page (item_held item.now) ≡ true }
    ensures held { item_held item.now ≡ entry_item result.0 result.1 }
    ensures in_range { result.1 < 8192 }
{
    let [FieldValue::Number(id), FieldValue::Number(pid)] = item.values.as_slice() else {
        return (0, 0);
    };
    (*id as u16, *pid as u16)
}

/// Whether an entry has program_number 0.
fn is_network(item: &TableItem) -> bool
    ensures { result ≡ PatTables.is_network (item_held item.now) }
{
    match item.values.as_slice() {
        [FieldValue::Number(id), ..] => *id == 0,
        _ => false,
    }
}

/// The PID of the network entry, if there is one.
pub fn network_of(items: &[TableItem]) -> Option<u16>
    requires { list_all (item_fits entry_page) (map item_held items.now) ≡ true }
    ensures network { network_items result ≡ option_to_list (find PatTables.is_network (map item_held items.now)) }
    ensures in_range { ForSome result (λ pid. pid < 8192) }
{
    for item in items {
        let (id, pid) = entry_of(item);
        if id == 0 {
            return Some(pid);
        }
    }
    None
}

/// The entries that are services, as structs.
pub fn services_of(alloc: Global, items: Vec<TableItem>) -> Result<PatServiceList, AllocError>
    requires { list_all (item_fits entry_page) (map item_held items.items) ≡ true }
    ensures { IfOk result (λ l. map service_item l
        ≡ filter (λ x. not (PatTables.is_network x)) (map item_held items.items)) }
{
    let mut services = items;
    services.retain(|item| !is_network(item));
    let services = PatServiceList::read(alloc, services)?;
    Ok(services)
}

/// An entry as an item.
pub fn entry(alloc: Global, id: u16, pid: u16) -> Result<TableItem, AllocError>
    ensures { IfOk result (λ i. item_held i ≡ entry_item id pid) }
{
    let values = vec![in alloc;
        FieldValue::Number(u64::from(id)),
        FieldValue::Number(u64::from(pid)),
    ]?;
    Ok(TableItem {
        values,
        descriptors: DescriptorList::of(Vec::new(alloc)),
    })
}

/// The network entry, if there is one, as a list of items.
pub fn network_rows(alloc: Global, network: Option<u16>) -> Result<Vec<TableItem>, AllocError>
    ensures { IfOk result (λ v. map item_held v.items ≡ network_items network) }
{
    let mut items = Vec::new(alloc);
    match network {
        Some(pid) => {
            let item = entry(alloc, 0, pid)?;
            items.push(item)?;
            Ok(items)
        }
        None => Ok(items),
    }
}
