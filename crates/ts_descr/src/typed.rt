//! Descriptors whose bodies are only fields or only items, as structs.

ghost use Rattle.std.specs.Prelude.{◌≡◌, List, [], nat_eq, map, option_map, true, Some, None, IfOk, IsTrue};
ghost use Rattle.std.specs.List.{find, list_all};
ghost use Rattle.ts_fields.specs.Bits.{bits_of};
ghost use Rattle.ts_fields.specs.Bodies.{Page, page, page_sound, page_exact, read_page, item_held};
ghost use Rattle.ts_fields.specs.Fitting.{fits, fits_uncounted};
ghost use Rattle.ts_descr.specs.Descriptors.{Writes, IsReadBack, fields_alone, items_alone, typed_fields, typed_items, read_typed};

use crate::by_page::{read_by_page, write_by_page};
use crate::fields::Fields;
use crate::refusal::DescrRefusal;
use std::alloc::{AllocError, Global};
use ts_bits::Descriptor;
use ts_fields::{Body, Item, Layout, fit_page_is_shaped};

/// Reads a descriptor by a page of fields only; `None` where its body is not of that page.
pub fn read_fields<T: Fields + Drop>(
    alloc: Global,
    layout: &Layout,
    from: &Descriptor,
) -> Result<Option<T>, AllocError>
    requires sound { IsTrue (page_sound (page layout.now)) }
    requires rows { (page layout.now).head ≡ T.rows }
    requires alone { (page layout.now).items ≡ None }
    ensures { (pages : List Page) → find (λ p. nat_eq from.now.tag p.tag) pages ≡ Some (page layout.now)
        → IfOk result (λ o. option_map (λ x. typed_fields (page layout.now) (T.fields x)) o
        ≡ read_typed pages from.now) }
{
    let value = fields_by_page(alloc, layout, from)?;
    Ok(value)
}

/// The same, for any tag of the descriptor.
fn fields_by_page<T: Fields + Drop>(
    alloc: Global,
    layout: &Layout,
    from: &Descriptor,
) -> Result<Option<T>, AllocError>
    requires sound { IsTrue (page_sound (page layout.now)) }
    requires rows { (page layout.now).head ≡ T.rows }
    requires alone { (page layout.now).items ≡ None }
    ensures { IfOk result (λ o. option_map (λ x. fields_alone (T.fields x)) o
        ≡ read_page (page layout.now) (bits_of from.now.body)) }
{
    let Some(body) = read_by_page(alloc, layout, from)? else {
        return Ok(None);
    };
    T::of(alloc, &body.head)
}

/// The descriptor of a page of fields only with these values. Where it is the first page of its tag in a list of
/// pages, and has no free bits, reading by this list gives the values back, for this descriptor and no other.
pub fn write_fields<T: Fields>(
    alloc: Global,
    layout: &Layout,
    value: &T,
) -> Result<Descriptor, DescrRefusal>
    requires sound { IsTrue (page_sound (page layout.now)) }
    requires rows { (page layout.now).head ≡ T.rows }
    requires alone { (page layout.now).items ≡ None }
    ensures written { Writes (page layout.now) (fields_alone (T.fields value.now)) result }
    ensures back { (pages : List Page)
        → find (λ p. nat_eq (page layout.now).tag p.tag) pages ≡ Some (page layout.now)
        → page_exact (page layout.now) ≡ true
        → IfOk result (λ d. IsReadBack pages (typed_fields (page layout.now) (T.fields value.now)) d) }
{
    // It runs nothing: the proof cites it.
    fit_page_is_shaped();
    let body = Body {
        head: value.values(alloc)?,
        items: Vec::new(alloc),
    };
    write_by_page(alloc, layout, &body)
}

/// Reads the items of a descriptor by a page of items only; `None` where its body is not of that page.
pub fn read_items<T: Fields + Drop>(
    alloc: Global,
    layout: &Layout,
    from: &Descriptor,
) -> Result<Option<Vec<T>>, AllocError>
    requires sound { IsTrue (page_sound (page layout.now)) }
    requires alone { (page layout.now).head ≡ [] }
    requires rows { option_map (λ i. i.1) (page layout.now).items ≡ Some T.rows }
    ensures { (pages : List Page) → find (λ p. nat_eq from.now.tag p.tag) pages ≡ Some (page layout.now)
        → IfOk result (λ o. option_map (λ v. typed_items (page layout.now) (map T.fields v.items)) o
        ≡ read_typed pages from.now) }
{
    let values = items_by_page(alloc, layout, from)?;
    Ok(values)
}

/// The same, for any tag of the descriptor.
fn items_by_page<T: Fields + Drop>(
    alloc: Global,
    layout: &Layout,
    from: &Descriptor,
) -> Result<Option<Vec<T>>, AllocError>
    requires sound { IsTrue (page_sound (page layout.now)) }
    requires alone { (page layout.now).head ≡ [] }
    requires rows { option_map (λ i. i.1) (page layout.now).items ≡ Some T.rows }
    ensures { IfOk result (λ o. option_map (λ v. items_alone (map T.fields v.items)) o
        ≡ read_page (page layout.now) (bits_of from.now.body)) }
{
    let Some(body) = read_by_page(alloc, layout, from)? else {
        return Ok(None);
    };
    let values = values_of(alloc, &body.items)?;
    Ok(values)
}

/// The structs of items; it is never `None`.
fn values_of<T: Fields + Drop>(alloc: Global, items: &[Item]) -> Result<Option<Vec<T>>, AllocError>
    requires { list_all (fits T.rows) (map item_held items.now) ≡ true }
    ensures { IfOk result (λ o. option_map (λ v. map T.fields v.items) o ≡ Some (map item_held items.now)) }
{
    let mut values = Vec::new(alloc);
    for item in items {
        let Some(value) = T::of(alloc, &item.values)? else {
            return Ok(None);
        };
        values.push(value)?;
    }
    Ok(Some(values))
}

/// The items of structs.
fn items_of<T: Fields>(alloc: Global, values: &[T]) -> Result<Vec<Item>, AllocError>
    ensures held { IfOk result (λ v. map item_held v.items ≡ map T.fields values.now) }
    ensures fit { IfOk result (λ v. list_all (fits_uncounted T.rows) (map item_held v.items) ≡ true) }
{
    let mut items = Vec::new(alloc);
    for value in values {
        let values = value.values(alloc)?;
        items.push(Item { values })?;
    }
    Ok(items)
}

/// The descriptor of a page of items only with these items. Where it is the first page of its tag in a list of pages,
/// and has no free bits, reading by this list gives the items back, for this descriptor and no other.
pub fn write_items<T: Fields>(
    alloc: Global,
    layout: &Layout,
    items: &[T],
) -> Result<Descriptor, DescrRefusal>
    requires sound { IsTrue (page_sound (page layout.now)) }
    requires alone { (page layout.now).head ≡ [] }
    requires rows { option_map (λ i. i.1) (page layout.now).items ≡ Some T.rows }
    ensures written { Writes (page layout.now) (items_alone (map T.fields items.now)) result }
    ensures back { (pages : List Page)
        → find (λ p. nat_eq (page layout.now).tag p.tag) pages ≡ Some (page layout.now)
        → page_exact (page layout.now) ≡ true
        → IfOk result (λ d. IsReadBack pages (typed_items (page layout.now) (map T.fields items.now)) d) }
{
    // It runs nothing: the proof cites it.
    fit_page_is_shaped();
    let items = items_of(alloc, items)?;
    let body = Body {
        head: Vec::new(alloc),
        items,
    };
    write_by_page(alloc, layout, &body)
}
