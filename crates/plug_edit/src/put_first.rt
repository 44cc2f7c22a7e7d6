//! A thing that replaces the first of a list that passes a test, or comes last.

ghost use Rattle.std.specs.Prelude.{◌≡◌, ◌<◌, Bool, IfSome, OnOk, length};
ghost use Rattle.std.specs.List.{position};
ghost use Rattle.plug_edit.specs.Changing.{changed_first};

use std::alloc::AllocError;

/// Puts a thing in place of the first that passes a test, or last if none does. `place` is the index of that first one.
pub fn put_first<T: Drop>(
    list: &mut Vec<T>,
    place: Option<usize>,
    thing: T,
) -> Result<(), AllocError>
    requires { IfSome place (λ i. i < length list.old.items) }
    ensures { (test : T → Bool) → place ≡ position test list.old.items
        → OnOk result (list.new.items ≡ changed_first test (λ _. thing) thing list.old.items) }
{
    match place {
        Some(place) => {
            list[place] = thing;
            Ok(())
        }
        None => {
            list.push(thing)?;
            Ok(())
        }
    }
}
