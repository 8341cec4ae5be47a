//! Arrays are put in the place of others.

ghost use Rattle.std.specs.Prelude.{◌≡◌, ℕ, List};
ghost use Rattle.std.specs.Map.{keys_of};
ghost use Rattle.std.specs.List.Sorted.{IsStrictlySortedBy};
ghost use Rattle.std.specs.Cmp.Lexicographic.{slice_cmp};
ghost use Rattle.std.specs.Ordering.{nat_cmp};
ghost use Rattle.wb_book.specs.Kept.{array_in};
ghost use Rattle.wb_book.specs.Moved.{put_over, only};

use std::collections::BTreeMap;
use wb_cells::Name;
use wb_elements::Elements;

/// Puts arrays in the place of those of the same names.
pub(crate) fn put_in(arrays: &mut BTreeMap<Name, Elements>, moved: Vec<(Name, Elements)>)
    requires { IsStrictlySortedBy (slice_cmp nat_cmp) (keys_of moved.items) }
    ensures arrays { (b : List ℕ) → array_in arrays.new.entries b ≡ put_over (array_in arrays.old.entries b) (array_in moved.items b) }
    ensures names { keys_of arrays.new.entries ≡ keys_of arrays.old.entries }
{
    for (name, fresh) in moved {
        put_one(arrays, &name, fresh);
    }
}

fn put_one(arrays: &mut BTreeMap<Name, Elements>, name: &Name, fresh: Elements)
    ensures arrays { (b : List ℕ) → array_in arrays.new.entries b ≡ put_over (array_in arrays.old.entries b) (only name.now fresh b) }
    ensures names { keys_of arrays.new.entries ≡ keys_of arrays.old.entries }
{
    match arrays.get_mut(name) {
        Some(elements) => {
            *elements = fresh;
        }
        None => {}
    }
}
