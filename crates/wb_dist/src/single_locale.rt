//! All on one locale.
ghost use Rattle.std.specs.Prelude.{◌≡◌};

use std::marker::PhantomData;
use wb_range::{Key, Mapping};

/// The mapping of every domain that has no other, as the associative ones: one locale, and each index lies there.
#[derive(Clone, Copy)]
pub struct SingleLocale<K> {
    keys: PhantomData<K>,
}

impl<K: Key> SingleLocale<K> {
    /// All on locale 0. There is no other value of this type.
    pub fn new() -> SingleLocale<K>
        ensures { (other : _) → other ≡ result }
    {
        SingleLocale { keys: PhantomData }
    }
}

impl<K: Key> Mapping for SingleLocale<K> {
    type Index = K;

    ghost locale = { λ m i. 0 };

    ghost locale_count = { λ m. 1 };

    fn locales(&self) -> usize {
        1
    }

    fn locale_of(&self, _i: K) -> usize {
        0
    }
}
