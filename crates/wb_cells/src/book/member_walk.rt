//! The members of a domain, told one after another. No list is made of them.

ghost use Rattle.std.specs.Prelude.{◌≡◌, [], map};
ghost use Rattle.std.specs.Map.Iter.{TakesFirst};
ghost use Rattle.wb_cells.specs.MemberWalks.{left};

use crate::values::index::AnyIndex;
use crate::values::key::AsIndex;
use std::collections::btree_set::Iter;
use std::marker::Model;
use wb_sets::{Label, ShortLabel};

/// The indices that are left, by their form.
#[derive(Drop)]
pub(crate) enum WalkForm<'a> {
    /// None.
    Nothing,
    /// Integers.
    Rank1(Iter<'a, [i64; 1]>),
    /// Pairs.
    Rank2(Iter<'a, [i64; 2]>),
    /// Triples.
    Rank3(Iter<'a, [i64; 3]>),
    /// Texts of at most 23 bytes.
    Short(Iter<'a, ShortLabel>),
    /// Texts.
    Text(Iter<'a, Label>),
    /// Indices of more than one form.
    Mixed(Iter<'a, AnyIndex>),
}

/// A walk over the members of a domain, ascending. Contracts see the list of those that are left.
#[derive(Drop)]
pub struct MemberWalk<'a> {
    pub(crate) form: WalkForm<'a>,
}

impl<'a> Model for MemberWalk<'a> {
    ghost use Rattle.std.specs.Prelude.{List};
    ghost use Rattle.wb_cells.specs.declared.values.index.Index.{Index};
    ghost use Rattle.wb_cells.specs.MemberWalks.{left};

    ghost Value = { List Index };

    ghost view = { λ a. left a.form };
}

// The next index of one form.
fn next_in<K: AsIndex>(keys: &mut Iter<'_, K>) -> Option<AnyIndex>
    ensures { TakesFirst (λ i. i) (map K.as_index keys.old) result (map K.as_index keys.new) }
{
    match keys.next() {
        Some(key) => Some(key.any()),
        None => None,
    }
}

impl<'a> MemberWalk<'a> {
    /// No members.
    pub(crate) fn nothing() -> MemberWalk<'a>
        ensures { result ≡ [] }
    {
        MemberWalk {
            form: WalkForm::Nothing,
        }
    }

    /// The least member that is left. It takes no memory.
    pub fn next(&mut self) -> Option<AnyIndex>
        ensures { TakesFirst (λ i. i) self.old result self.new }
    {
        match &mut self.form {
            WalkForm::Nothing => None,
            WalkForm::Rank1(keys) => next_in(keys),
            WalkForm::Rank2(keys) => next_in(keys),
            WalkForm::Rank3(keys) => next_in(keys),
            WalkForm::Short(keys) => next_in(keys),
            WalkForm::Text(keys) => next_in(keys),
            WalkForm::Mixed(keys) => next_in(keys),
        }
    }
}
