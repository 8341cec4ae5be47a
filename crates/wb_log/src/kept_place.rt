//! The index of a record, in little room.

ghost use Rattle.std.specs.Prelude.{◌≡◌, IfOk, IfSome};
ghost use Rattle.wb_cells.specs.declared.values.index.Index.TheVariants as index_of;

use std::alloc::Global;
use std::marker::Model;
use wb_cells::{AnyIndex, AsIndex, Index};
use wb_range::NoMemory;
use wb_sets::ShortLabel;

/// How an index is kept.
#[derive(Drop)]
pub(crate) enum PlaceForm {
    /// An integer.
    Line([i64; 1]),
    /// A pair.
    Plane([i64; 2]),
    /// A triple.
    Solid([i64; 3]),
    /// A text of at most 23 bytes.
    Short(ShortLabel),
    /// A longer text, apart.
    Apart(Box<AnyIndex>),
}

/// An index in the room of a triple: few records of a history have a text of more than 23 bytes, and room for one in each would be
/// twice as much. Contracts see the index.
#[derive(Drop)]
pub(crate) struct KeptPlace {
    form: PlaceForm,
}

impl Model for KeptPlace {
    ghost use Rattle.wb_cells.specs.declared.values.index.Index.{Index};
    ghost use Rattle.wb_log.specs.Places.{place_of};

    ghost Value = { Index };

    ghost view = { λ a. place_of a.form };
}

impl KeptPlace {
    /// The index, to be kept; `NoMemory` where none is left for a text of more than 23 bytes.
    pub(crate) fn new(alloc: Global, index: &AnyIndex) -> Result<KeptPlace, NoMemory>
        ensures { IfOk result (λ p. p ≡ index.now) }
    {
        if let Some(line) = <[i64; 1]>::of(index) {
            return Ok(KeptPlace {
                form: PlaceForm::Line(line),
            });
        }
        if let Some(plane) = <[i64; 2]>::of(index) {
            return Ok(KeptPlace {
                form: PlaceForm::Plane(plane),
            });
        }
        if let Some(solid) = <[i64; 3]>::of(index) {
            return Ok(KeptPlace {
                form: PlaceForm::Solid(solid),
            });
        }
        if let Some(short) = short_text(index) {
            return Ok(KeptPlace {
                form: PlaceForm::Short(short),
            });
        }
        Ok(KeptPlace {
            form: PlaceForm::Apart(Box::new(alloc, *index)?),
        })
    }

    /// The index.
    pub(crate) fn index(&self) -> AnyIndex
        ensures { result ≡ self.now }
    {
        match &self.form {
            PlaceForm::Line(line) => line.any(),
            PlaceForm::Plane(plane) => plane.any(),
            PlaceForm::Solid(solid) => solid.any(),
            PlaceForm::Short(short) => AnyIndex::new(Index::Text(short.label())),
            PlaceForm::Apart(index) => **index,
        }
    }
}

// The index as a short text, if it is one.
fn short_text(index: &AnyIndex) -> Option<ShortLabel>
    ensures { IfSome result (λ t. index.now ≡ index_of.Text t) }
{
    match index.index() {
        Index::Text(label) => ShortLabel::of(&label),
        Index::Point(_) => None,
    }
}
