//! Elements at keys of one form, read and set one after another.

ghost use Rattle.std.specs.Prelude.{◌≡◌, IfOk};
ghost use Rattle.std.specs.List.{list_all};
ghost use Rattle.wb_elements.specs.Entries.{element_at, sets_one, with_one, with_all, read_one, read_at};
ghost use Rattle.wb_elements.specs.Piecewise.Indexed.{indexed, AllOf};
ghost use Rattle.wb_elements.specs.Piecewise.Seen.{seen_of, IsKept};
ghost use Rattle.wb_cells.specs.declared.values.index.Index.TheVariants.{Point as point_index};

use crate::elements::{Elements, ElementsForm, set_in};
use std::alloc::Global;
use wb_arrays::Pieces;
use wb_cells::AsIndex;
use wb_range::{Domain, Mapping, NoMemory};

/// A key by which an array keeps its elements, where its indices have the key's form.
pub trait PieceKey: AsIndex {
    /// Whether each change sets an element that is there.
    fn are_set(elements: &Elements, changes: &[(Self, Option<i64>)]) -> bool
        ensures { result ≡ list_all (sets_one Self.as_index (element_at elements.now.0)) changes.now };

    /// Replaces the elements that are there and that the changes set.
    fn set_all(elements: &mut Elements, changes: &[(Self, Option<i64>)])
        ensures elements { elements.new.0 ≡ with_all Self.as_index elements.old.0 changes.now }
        ensures mapping { elements.new.1 ≡ elements.old.1 };

    /// The elements at the keys of the changes.
    fn read_all(
        alloc: Global,
        elements: &Elements,
        changes: &[(Self, Option<i64>)],
    ) -> Result<Vec<(Self, Option<i64>)>, NoMemory>
        ensures { IfOk result (λ v. v.items ≡ read_at Self.as_index (element_at elements.now.0) changes.now) };
}

impl PieceKey for [i64; 1] {
    fn are_set(elements: &Elements, changes: &[([i64; 1], Option<i64>)]) -> bool {
        match &elements.form {
            ElementsForm::Rank1(pieces) => are_set_in(pieces, changes),
            ElementsForm::Rank2(_) | ElementsForm::Rank3(_) | ElementsForm::Text(_) => are_set_by(
                elements, changes,
            ),
        }
    }

    fn set_all(elements: &mut Elements, changes: &[([i64; 1], Option<i64>)]) {
        set_line(&mut elements.form, changes)
    }

    fn read_all(
        alloc: Global,
        elements: &Elements,
        changes: &[([i64; 1], Option<i64>)],
    ) -> Result<Vec<([i64; 1], Option<i64>)>, NoMemory> {
        match &elements.form {
            ElementsForm::Rank1(pieces) => read_all_in(alloc, pieces, changes),
            ElementsForm::Rank2(_) | ElementsForm::Rank3(_) | ElementsForm::Text(_) => read_all_by(
                alloc, elements, changes,
            ),
        }
    }
}

impl PieceKey for [i64; 2] {
    fn are_set(elements: &Elements, changes: &[([i64; 2], Option<i64>)]) -> bool {
        match &elements.form {
            ElementsForm::Rank2(pieces) => are_set_in(pieces, changes),
            ElementsForm::Rank1(_) | ElementsForm::Rank3(_) | ElementsForm::Text(_) => are_set_by(
                elements, changes,
            ),
        }
    }

    fn set_all(elements: &mut Elements, changes: &[([i64; 2], Option<i64>)]) {
        set_plane(&mut elements.form, changes)
    }

    fn read_all(
        alloc: Global,
        elements: &Elements,
        changes: &[([i64; 2], Option<i64>)],
    ) -> Result<Vec<([i64; 2], Option<i64>)>, NoMemory> {
        match &elements.form {
            ElementsForm::Rank2(pieces) => read_all_in(alloc, pieces, changes),
            ElementsForm::Rank1(_) | ElementsForm::Rank3(_) | ElementsForm::Text(_) => read_all_by(
                alloc, elements, changes,
            ),
        }
    }
}

impl PieceKey for [i64; 3] {
    fn are_set(elements: &Elements, changes: &[([i64; 3], Option<i64>)]) -> bool {
        match &elements.form {
            ElementsForm::Rank3(pieces) => are_set_in(pieces, changes),
            ElementsForm::Rank1(_) | ElementsForm::Rank2(_) | ElementsForm::Text(_) => are_set_by(
                elements, changes,
            ),
        }
    }

    fn set_all(elements: &mut Elements, changes: &[([i64; 3], Option<i64>)]) {
        set_solid(&mut elements.form, changes)
    }

    fn read_all(
        alloc: Global,
        elements: &Elements,
        changes: &[([i64; 3], Option<i64>)],
    ) -> Result<Vec<([i64; 3], Option<i64>)>, NoMemory> {
        match &elements.form {
            ElementsForm::Rank3(pieces) => read_all_in(alloc, pieces, changes),
            ElementsForm::Rank1(_) | ElementsForm::Rank2(_) | ElementsForm::Text(_) => read_all_by(
                alloc, elements, changes,
            ),
        }
    }
}

fn set_line(form: &mut ElementsForm, changes: &[([i64; 1], Option<i64>)])
    requires { IsKept form.old }
    ensures elements { (seen_of form.new).0 ≡ with_all point_index (seen_of form.old).0 changes.now }
    ensures mapping { (seen_of form.new).1 ≡ (seen_of form.old).1 }
    ensures kept { IsKept form.new }
{
    match form {
        ElementsForm::Rank1(pieces) => set_all_in(pieces, changes),
        ElementsForm::Rank2(pieces) => set_others_in(pieces, changes),
        ElementsForm::Rank3(pieces) => set_others_in(pieces, changes),
        ElementsForm::Text(pieces) => set_others_in(pieces, changes),
    }
}

fn set_plane(form: &mut ElementsForm, changes: &[([i64; 2], Option<i64>)])
    requires { IsKept form.old }
    ensures elements { (seen_of form.new).0 ≡ with_all point_index (seen_of form.old).0 changes.now }
    ensures mapping { (seen_of form.new).1 ≡ (seen_of form.old).1 }
    ensures kept { IsKept form.new }
{
    match form {
        ElementsForm::Rank1(pieces) => set_others_in(pieces, changes),
        ElementsForm::Rank2(pieces) => set_all_in(pieces, changes),
        ElementsForm::Rank3(pieces) => set_others_in(pieces, changes),
        ElementsForm::Text(pieces) => set_others_in(pieces, changes),
    }
}

fn set_solid(form: &mut ElementsForm, changes: &[([i64; 3], Option<i64>)])
    requires { IsKept form.old }
    ensures elements { (seen_of form.new).0 ≡ with_all point_index (seen_of form.old).0 changes.now }
    ensures mapping { (seen_of form.new).1 ≡ (seen_of form.old).1 }
    ensures kept { IsKept form.new }
{
    match form {
        ElementsForm::Rank1(pieces) => set_others_in(pieces, changes),
        ElementsForm::Rank2(pieces) => set_others_in(pieces, changes),
        ElementsForm::Rank3(pieces) => set_all_in(pieces, changes),
        ElementsForm::Text(pieces) => set_others_in(pieces, changes),
    }
}

// Whether a change sets an element that is there, and the place to pass for the change after it.
fn sets_near<D: Domain, M: Mapping<Index = D::Index>>(
    pieces: &Pieces<D, M>,
    change: &(D::Index, Option<i64>),
    near: usize,
) -> (bool, usize)
where
    D::Index: AsIndex,
    ensures { result.0 ≡ sets_one D.Index.as_index (element_at (indexed D.Index.as_index pieces.now.0)) change.now }
{
    match change.1 {
        Some(_) => {
            let (found, place) = pieces.get_from(change.0, near);
            (found.is_some(), place)
        }
        None => (false, near),
    }
}

fn are_set_in<D: Domain, M: Mapping<Index = D::Index>>(
    pieces: &Pieces<D, M>,
    changes: &[(D::Index, Option<i64>)],
) -> bool
where
    D::Index: AsIndex,
    ensures { result ≡ list_all (sets_one D.Index.as_index (element_at (indexed D.Index.as_index pieces.now.0))) changes.now }
{
    let mut near = 0;
    for change in changes {
        let (sets, place) = sets_near(pieces, change, near);
        if !sets {
            return false;
        }
        near = place;
    }
    true
}

// Whether each change sets an element that is there, where the elements are kept by keys of another form.
fn are_set_by<I: AsIndex>(elements: &Elements, changes: &[(I, Option<i64>)]) -> bool
    ensures { result ≡ list_all (sets_one I.as_index (element_at elements.now.0)) changes.now }
{
    for change in changes {
        if !sets_by(elements, change) {
            return false;
        }
    }
    true
}

fn sets_by<I: AsIndex>(elements: &Elements, change: &(I, Option<i64>)) -> bool
    ensures { result ≡ sets_one I.as_index (element_at elements.now.0) change.now }
{
    let (found, _) = elements.get_from(&change.0.any(), 0);
    change.1.is_some() && found.is_some()
}

// Makes a change of an element, if it is there and a number is given, and gives the place to pass for the change after it.
fn set_near<D: Domain, M: Mapping<Index = D::Index>>(
    pieces: &mut Pieces<D, M>,
    change: &(D::Index, Option<i64>),
    near: usize,
) -> usize
where
    D::Index: AsIndex,
    requires { AllOf D.Index.as_index D.Index.is_of pieces.old.0 }
    ensures elements { indexed D.Index.as_index pieces.new.0 ≡ with_one (indexed D.Index.as_index pieces.old.0) (D.Index.as_index change.now.0) change.now.1 }
    ensures mapping { pieces.new.1 ≡ pieces.old.1 }
    ensures kept { AllOf D.Index.as_index D.Index.is_of pieces.new.0 }
{
    match change.1 {
        Some(value) => pieces.set_near(change.0, value, near),
        None => near,
    }
}

fn set_all_in<D: Domain, M: Mapping<Index = D::Index>>(
    pieces: &mut Pieces<D, M>,
    changes: &[(D::Index, Option<i64>)],
)
where
    D::Index: AsIndex,
    requires { AllOf D.Index.as_index D.Index.is_of pieces.old.0 }
    ensures elements { indexed D.Index.as_index pieces.new.0 ≡ with_all D.Index.as_index (indexed D.Index.as_index pieces.old.0) changes.now }
    ensures mapping { pieces.new.1 ≡ pieces.old.1 }
    ensures kept { AllOf D.Index.as_index D.Index.is_of pieces.new.0 }
{
    let mut near = 0;
    for change in changes {
        near = set_near(pieces, change, near);
    }
}

// Makes each change of an element, if it is there and a number is given, where the elements are kept by keys of another form.
fn set_others_in<D: Domain, M: Mapping<Index = D::Index>, I: AsIndex>(
    pieces: &mut Pieces<D, M>,
    changes: &[(I, Option<i64>)],
)
where
    D::Index: AsIndex,
    requires { AllOf D.Index.as_index D.Index.is_of pieces.old.0 }
    ensures elements { indexed D.Index.as_index pieces.new.0 ≡ with_all I.as_index (indexed D.Index.as_index pieces.old.0) changes.now }
    ensures mapping { pieces.new.1 ≡ pieces.old.1 }
    ensures kept { AllOf D.Index.as_index D.Index.is_of pieces.new.0 }
{
    for change in changes {
        set_other(pieces, change);
    }
}

fn set_other<D: Domain, M: Mapping<Index = D::Index>, I: AsIndex>(
    pieces: &mut Pieces<D, M>,
    change: &(I, Option<i64>),
)
where
    D::Index: AsIndex,
    requires { AllOf D.Index.as_index D.Index.is_of pieces.old.0 }
    ensures elements { indexed D.Index.as_index pieces.new.0 ≡ with_one (indexed D.Index.as_index pieces.old.0) (I.as_index change.now.0) change.now.1 }
    ensures mapping { pieces.new.1 ≡ pieces.old.1 }
    ensures kept { AllOf D.Index.as_index D.Index.is_of pieces.new.0 }
{
    match change.1 {
        Some(value) => {
            set_in(pieces, &change.0.any(), value, 0);
        }
        None => {}
    }
}

// The key of a change with the element there, and the place to pass for the change after it.
fn read_near<D: Domain, M: Mapping<Index = D::Index>>(
    pieces: &Pieces<D, M>,
    change: &(D::Index, Option<i64>),
    near: usize,
) -> ((D::Index, Option<i64>), usize)
where
    D::Index: AsIndex,
    ensures { result.0 ≡ read_one D.Index.as_index (element_at (indexed D.Index.as_index pieces.now.0)) change.now }
{
    let (found, place) = pieces.get_from(change.0, near);
    ((change.0, found), place)
}

fn read_all_in<D: Domain, M: Mapping<Index = D::Index>>(
    alloc: Global,
    pieces: &Pieces<D, M>,
    changes: &[(D::Index, Option<i64>)],
) -> Result<Vec<(D::Index, Option<i64>)>, NoMemory>
where
    D::Index: AsIndex,
    ensures { IfOk result (λ v. v.items ≡ read_at D.Index.as_index (element_at (indexed D.Index.as_index pieces.now.0)) changes.now) }
{
    let mut found = Vec::with_capacity(alloc, changes.len())?;
    let mut near = 0;
    for change in changes {
        let (read, place) = read_near(pieces, change, near);
        if found.push(read).is_err() {
            return Err(NoMemory);
        }
        near = place;
    }
    Ok(found)
}

// The keys of changes with the elements there, where these are kept by keys of another form.
fn read_all_by<I: AsIndex>(
    alloc: Global,
    elements: &Elements,
    changes: &[(I, Option<i64>)],
) -> Result<Vec<(I, Option<i64>)>, NoMemory>
    ensures { IfOk result (λ v. v.items ≡ read_at I.as_index (element_at elements.now.0) changes.now) }
{
    let mut found = Vec::with_capacity(alloc, changes.len())?;
    for change in changes {
        if found.push(read_by(elements, change)).is_err() {
            return Err(NoMemory);
        }
    }
    Ok(found)
}

fn read_by<I: AsIndex>(elements: &Elements, change: &(I, Option<i64>)) -> (I, Option<i64>)
    ensures { result ≡ read_one I.as_index (element_at elements.now.0) change.now }
{
    let (number, _) = elements.get_from(&change.0.any(), 0);
    (change.0, number)
}
