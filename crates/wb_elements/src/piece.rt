//! The pieces of the elements of an array, lent.

ghost use Rattle.std.specs.Prelude.{◌≡◌, true, option_map};
ghost use Rattle.wb_cells.specs.Kinds.{is_point, is_text};
ghost use Rattle.wb_cells.specs.Layouts.{is_of_rank};
ghost use Rattle.wb_cells.specs.declared.values.index.Index.TheVariants.{Point as point_index, Text as text_index};
ghost use Rattle.wb_dist.specs.Maps.{whole};
ghost use Rattle.wb_elements.specs.Piecewise.Indexed.{indexed, AllOf};
ghost use Rattle.wb_elements.specs.Piecewise.Lent.{piece_in};

use wb_arrays::Pieces;
use wb_dist::{Layout, SingleLocale};
use wb_range::Mapping;
use wb_rect::Rect;
use wb_sets::{Assoc, Label};

/// The elements of one locale, each after its index, ascending, lent by the form of their indices.
#[derive(Clone, Copy, Drop)]
pub enum Pairs<'a> {
    /// Integers.
    Rank1(&'a [([i64; 1], i64)]),
    /// Pairs.
    Rank2(&'a [([i64; 2], i64)]),
    /// Triples.
    Rank3(&'a [([i64; 3], i64)]),
    /// Texts.
    Text(&'a [(Label, i64)]),
}

// Computes nothing. Callers learn that a mapping is for its rank.
fn rank_validity<const R: usize>(mapping: &Layout<R>)
    ensures { is_of_rank R mapping.now ≡ true }
{
    // For the proof: the mapping is one for the rank R.
    let _good = mapping.locales();
}

/// The pairs of a locale at indices that are points.
pub(crate) fn points_on<const R: usize>(
    pieces: &Pieces<Rect<R>, Layout<R>>,
    locale: usize,
) -> Option<&[([i64; R], i64)]>
    requires { AllOf point_index (is_point R) pieces.now.0 }
    ensures { option_map (λ s. indexed point_index s.now) result ≡ piece_in pieces.now.1 (indexed point_index pieces.now.0) locale }
{
    // For the proof: the mapping is one for the rank of the indices.
    rank_validity(&pieces.mapping());
    pieces.pairs(locale)
}

/// The pairs of a locale at indices that are texts.
pub(crate) fn texts_on(
    pieces: &Pieces<Assoc<Label>, SingleLocale<Label>>,
    locale: usize,
) -> Option<&[(Label, i64)]>
    requires { AllOf text_index is_text pieces.now.0 }
    ensures { option_map (λ s. indexed text_index s.now) result ≡ piece_in whole (indexed text_index pieces.now.0) locale }
{
    pieces.pairs(locale)
}
