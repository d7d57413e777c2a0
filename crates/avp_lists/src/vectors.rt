//! Room at the end of vectors, and what is cut off there.
ghost use Rattle.std.specs.Prelude.{◌≡◌, ◌≤◌, ◌<◌, ◌++◌, OnOk, IsOk, length, take, vec_capacity};
ghost use Rattle.std.specs.Option.{option_to_list};

use std::alloc::AllocError;

// Makes room for one more after the first `end`.
pub(crate) fn make_room<T: Drop>(items: &mut Vec<T>, end: usize) -> Result<(), AllocError>
    requires { end ≤ length items.old.items }
    ensures ok { OnOk result (end < vec_capacity items.new) }
    ensures enough { end < vec_capacity items.old → IsOk result }
    ensures items { items.new.items ≡ items.old.items }
    ensures kept { vec_capacity items.old ≤ vec_capacity items.new }
{
    if end == items.len() {
        items.reserve(1)?;
    }
    Ok(())
}

// Cuts off the items from `end` on, and adds one, if there is one.
pub(crate) fn cut_and_add<T: Drop>(items: &mut Vec<T>, end: usize, item: Option<T>)
    requires within { end ≤ length items.old.items }
    requires room { end < vec_capacity items.old }
    ensures { items.new.items ≡ take end items.old.items ++ option_to_list item }
{
    items.truncate(end);
    if let Some(item) = item {
        items.push(item).unwrap();
    }
}
