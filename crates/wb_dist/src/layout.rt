//! The mapping of a domain, whichever it is.
ghost use Rattle.std.specs.Prelude.{◌≡◌, ◌↔◌, ◌≤◌, ◌<◌, IsTrue};
ghost use Rattle.std.specs.Cmp.{partial_equiv_from_equiv};
ghost use Rattle.wb_dist.specs.Maps.{is_layout, locale_of, locale_count_of};
ghost use Rattle.wb_dist.specs.Same.{same_layout, same_layout-exact, equivalence_from_exact};

use crate::block::Block;
use crate::block_cyclic::BlockCyclic;
use crate::cyclic::Cyclic;
use std::marker::Model;
use wb_range::Mapping;

/// How the indices of a domain of rank `R` are dealt out.
#[derive(Clone, Copy)]
pub enum Distribution<const R: usize> {
    /// All on one locale.
    Whole,
    /// A box cut into blocks.
    Block(Block<R>),
    /// One by one.
    Cyclic(Cyclic<R>),
    /// In blocks of a size.
    BlockCyclic(BlockCyclic<R>),
}

/// The mapping of a domain of rank `R`: a standard distribution, or all on one locale. Two are equal where they are
/// of one kind and were made of the same values.
#[derive(Clone, Copy)]
pub struct Layout<const R: usize> {
    distribution: Distribution<R>,
}

impl<const R: usize> Model for Layout<R> {
    ghost use Rattle.std.specs.Prelude.{IsTrue};
    ghost use Rattle.wb_dist.specs.Maps.{LayoutMap, is_rank};
    ghost use Rattle.wb_dist.specs.Layouts.{map_of, distribution_of};

    ghost Value = { LayoutMap };

    ghost view = { λ l. map_of R l.distribution };

    ghost invariant = { λ l. IsTrue (is_rank R) };

    ghost inverse = { λ m. record { distribution = distribution_of R m } };

    ghost use Rattle.wb_dist.specs.LayoutInverse.{layout_fields};

    ghost inverse_ok = { λ l h. layout_fields R l };
}

impl<const R: usize> Layout<R> {
    ghost use Rattle.wb_dist.specs.Layouts.{map_of};

    /// The mapping that deals the indices out so. `R` is 1, 2 or 3.
    pub fn new(distribution: Distribution<R>) -> Layout<R>
        requires low { 1 ≤ R }
        requires high { R ≤ 3 }
        ensures { result ≡ map_of R distribution.entry }
    {
        Layout { distribution }
    }

    /// How the indices are dealt out.
    pub fn distribution(&self) -> Distribution<R>
        ensures { map_of R result ≡ self.now }
    {
        self.distribution
    }

    // Whether both are the same mapping.
    fn is_same(&self, other: &Layout<R>) -> bool
        ensures { result ≡ same_layout self.now other.now }
    {
        match (&self.distribution, &other.distribution) {
            (Distribution::Whole, Distribution::Whole) => true,
            (Distribution::Block(mine), Distribution::Block(theirs)) => mine == theirs,
            (Distribution::Cyclic(mine), Distribution::Cyclic(theirs)) => mine == theirs,
            (Distribution::BlockCyclic(mine), Distribution::BlockCyclic(theirs)) => mine == theirs,
            _ => false,
        }
    }
}

impl<const R: usize> PartialEq for Layout<R> {
    ghost eq = { same_layout };

    ghost laws = { partial_equiv_from_equiv (equivalence_from_exact same_layout same_layout-exact) };

    fn eq(&self, other: &Layout<R>) -> bool
        ensures value { result ≡ same_layout self.now other.now }
        ensures exact { IsTrue result ↔ (self.now ≡ other.now) }
    {
        self.is_same(other)
    }
}

impl<const R: usize> Eq for Layout<R> {
    ghost laws = { equivalence_from_exact same_layout same_layout-exact };
}

impl<const R: usize> Mapping for Layout<R> {
    type Index = [i64; R];

    ghost locale = { λ m i. locale_of m i };

    ghost locale_count = { λ m. locale_count_of m };

    fn locales(&self) -> usize
        ensures count { result ≡ locale_count_of self.now }
        ensures some { 0 < result }
        ensures good { IsTrue (is_layout R self.now) }
    {
        match &self.distribution {
            Distribution::Whole => 1,
            Distribution::Block(block) => block.locales(),
            Distribution::Cyclic(cyclic) => cyclic.locales(),
            Distribution::BlockCyclic(block_cyclic) => block_cyclic.locales(),
        }
    }

    fn locale_of(&self, i: [i64; R]) -> usize {
        match &self.distribution {
            Distribution::Whole => 0,
            Distribution::Block(block) => block.locale_of(i),
            Distribution::Cyclic(cyclic) => cyclic.locale_of(i),
            Distribution::BlockCyclic(block_cyclic) => block_cyclic.locale_of(i),
        }
    }
}
