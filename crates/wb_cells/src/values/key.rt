//! Keys that stand for indices.

ghost use Rattle.std.specs.Prelude.{◌≡◌, Bool, true, false, IfSome, None, refl};
ghost use Rattle.wb_cells.specs.Cells.{index_cmp, index_cmp-IsAntisymmetric};
ghost use Rattle.wb_cells.specs.Kinds.{is_point, is_short_text, is_text};
ghost use Rattle.wb_cells.specs.declared.values.index.Index.{Index as any_index};
ghost use Rattle.wb_cells.specs.declared.values.index.Index.TheVariants.{Point as point_index, Text as text_index};

use crate::values::index::{AnyIndex, Index, coordinates_of};
use crate::values::point::Point;
use wb_range::Key;
use wb_sets::{Label, ShortLabel};

/// Two indices that compare equal are one.
impl Key for AnyIndex {
    ghost exact = { index_cmp-IsAntisymmetric };
}

/// A key that stands for an index of the workbook.
pub trait AsIndex: Key {
    ghost as_index: { Self → any_index };

    /// Whether an index is one of these, by its form.
    ghost is_of: { any_index → Bool };

    /// The index.
    fn any(self) -> AnyIndex
        ensures { result ≡ as_index self };

    /// The key that stands for the index, if it has the form.
    fn of(index: &AnyIndex) -> Option<Self>
        ensures value { IfSome result (λ k. as_index k ≡ index.now) }
        ensures formed { IfSome result (λ k. is_of index.now ≡ true) }
        ensures none { result ≡ None → is_of index.now ≡ false };

    ghost alike: { (x y : Self) → index_cmp (as_index x) (as_index y) ≡ Self.cmp x y };
}

impl AsIndex for [i64; 1] {
    ghost as_index = { λ k. point_index k };

    ghost is_of = { is_point 1 };

    ghost alike = { λ x y. refl };

    fn any(self) -> AnyIndex {
        AnyIndex::new(Index::Point(Point::single(self[0])))
    }

    fn of(index: &AnyIndex) -> Option<[i64; 1]> {
        coordinates_of(index)
    }
}

impl AsIndex for [i64; 2] {
    ghost as_index = { λ k. point_index k };

    ghost is_of = { is_point 2 };

    ghost alike = { λ x y. refl };

    fn any(self) -> AnyIndex {
        AnyIndex::new(Index::Point(Point::pair(self[0], self[1])))
    }

    fn of(index: &AnyIndex) -> Option<[i64; 2]> {
        coordinates_of(index)
    }
}

impl AsIndex for [i64; 3] {
    ghost as_index = { λ k. point_index k };

    ghost is_of = { is_point 3 };

    ghost alike = { λ x y. refl };

    fn any(self) -> AnyIndex {
        AnyIndex::new(Index::Point(Point::triple(self[0], self[1], self[2])))
    }

    fn of(index: &AnyIndex) -> Option<[i64; 3]> {
        coordinates_of(index)
    }
}

impl AsIndex for Label {
    ghost as_index = { λ k. text_index k };

    ghost is_of = { is_text };

    ghost alike = { λ x y. refl };

    fn any(self) -> AnyIndex {
        AnyIndex::new(Index::Text(self))
    }

    fn of(index: &AnyIndex) -> Option<Label> {
        match index.index() {
            Index::Text(label) => Some(label),
            Index::Point(_) => None,
        }
    }
}

impl AsIndex for ShortLabel {
    ghost as_index = { λ k. text_index k };

    ghost is_of = { is_short_text };

    ghost alike = { λ x y. refl };

    fn any(self) -> AnyIndex {
        AnyIndex::new(Index::Text(self.label()))
    }

    fn of(index: &AnyIndex) -> Option<ShortLabel> {
        match index.index() {
            Index::Text(label) => ShortLabel::of(&label),
            Index::Point(_) => None,
        }
    }
}

impl AsIndex for AnyIndex {
    ghost as_index = { λ k. k };

    ghost is_of = { λ i. true };

    ghost alike = { λ x y. refl };

    fn any(self) -> AnyIndex {
        self
    }

    fn of(index: &AnyIndex) -> Option<AnyIndex> {
        Some(*index)
    }
}
