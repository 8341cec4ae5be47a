//! Keys by which the members of a domain are kept, one form each.

ghost use Rattle.std.specs.Prelude.{◌≡◌, ℕ, List, true, false, map, IfOk, IfSome, None};
ghost use Rattle.std.specs.List.{list_all};
ghost use Rattle.wb_sets.specs.Labels.{IsLabel};
ghost use Rattle.wb_cells.specs.declared.changes.row.IndexedRow.TheVariants.{Members as members_row};
ghost use Rattle.wb_cells.specs.declared.values.index.Index.{Index as any_index};
ghost use Rattle.wb_cells.specs.declared.values.index.Index.TheVariants.{Point as point_index, Text as text_index};
ghost use Rattle.wb_cells.specs.Kinds.{is_point, is_short_text, is_text};
ghost use Rattle.wb_cells.specs.MemberRuns.{members_to, key_found, keyed_changes};
ghost use Rattle.wb_cells.specs.MemberSets.{listed, IsKept};
ghost use Rattle.wb_cells.specs.WellFormed.{has};

use crate::book::key_runs::{clears_keys, keys_found, set_of};
use crate::book::member_set::MemberForm;
use crate::values::key::AsIndex;
use std::alloc::Global;
use wb_range::NoMemory;
use wb_sets::{Label, ShortLabel};

/// A key of one form. The methods take forms and lists, and no set: where one names `BTreeSet<Self>`, calls of generic functions
/// at such a key get no proof.
pub(crate) trait MemberKey: AsIndex {
    /// Computes nothing. Callers learn that the index of the key has its form.
    fn formed(&self)
        ensures { Self.is_of (Self.as_index self.now) ≡ true };

    /// The keys of changes, each with a number if its index is one of these; `None` where they have keys of another form.
    fn found_in(
        alloc: Global,
        form: &MemberForm,
        changes: &[(Self, Option<i64>)],
    ) -> Result<Option<Vec<(Self, Option<i64>)>>, NoMemory>
        ensures { IfOk result (λ o. IfSome o (λ v. v.items ≡ map (key_found Self.as_index (listed form.now)) changes.now)) };

    /// Whether changes clear these as members, one after another, and nothing else. False where they have keys of another form.
    fn clear_all(form: &MemberForm, changes: &[(Self, Option<i64>)]) -> bool
        ensures { result ≡ true → (d : List ℕ) → keyed_changes Self.as_index (members_row d) changes.now ≡ members_to d None (listed form.now) };

    /// The form of the set of keys, which may stand in any order.
    fn form_of(alloc: Global, keys: Vec<Self>) -> Result<MemberForm, NoMemory>
        requires { list_all Self.is_of (map Self.as_index keys.items) ≡ true }
        ensures same { IfOk result (λ f. (j : any_index) → has (listed f) j ≡ has (map Self.as_index keys.items) j) }
        ensures kept { IfOk result IsKept };
}

impl MemberKey for [i64; 1] {
    fn formed(&self) {}

    fn found_in(
        alloc: Global,
        form: &MemberForm,
        changes: &[([i64; 1], Option<i64>)],
    ) -> Result<Option<Vec<([i64; 1], Option<i64>)>>, NoMemory> {
        match form {
            MemberForm::Rank1(keys) => Ok(Some(keys_found(alloc, keys, changes)?)),
            _ => Ok(None),
        }
    }

    fn clear_all(form: &MemberForm, changes: &[([i64; 1], Option<i64>)]) -> bool {
        match form {
            MemberForm::Rank1(keys) => clears_keys(keys, changes),
            _ => false,
        }
    }

    fn form_of(alloc: Global, keys: Vec<[i64; 1]>) -> Result<MemberForm, NoMemory>
        requires { list_all (is_point 1) (map point_index keys.items) ≡ true }
        ensures same { IfOk result (λ f. (j : any_index) → has (listed f) j ≡ has (map point_index keys.items) j) }
        ensures kept { IfOk result IsKept }
    {
        Ok(MemberForm::Rank1(set_of(alloc, keys)?))
    }
}

impl MemberKey for [i64; 2] {
    fn formed(&self) {}

    fn found_in(
        alloc: Global,
        form: &MemberForm,
        changes: &[([i64; 2], Option<i64>)],
    ) -> Result<Option<Vec<([i64; 2], Option<i64>)>>, NoMemory> {
        match form {
            MemberForm::Rank2(keys) => Ok(Some(keys_found(alloc, keys, changes)?)),
            _ => Ok(None),
        }
    }

    fn clear_all(form: &MemberForm, changes: &[([i64; 2], Option<i64>)]) -> bool {
        match form {
            MemberForm::Rank2(keys) => clears_keys(keys, changes),
            _ => false,
        }
    }

    fn form_of(alloc: Global, keys: Vec<[i64; 2]>) -> Result<MemberForm, NoMemory>
        requires { list_all (is_point 2) (map point_index keys.items) ≡ true }
        ensures same { IfOk result (λ f. (j : any_index) → has (listed f) j ≡ has (map point_index keys.items) j) }
        ensures kept { IfOk result IsKept }
    {
        Ok(MemberForm::Rank2(set_of(alloc, keys)?))
    }
}

impl MemberKey for [i64; 3] {
    fn formed(&self) {}

    fn found_in(
        alloc: Global,
        form: &MemberForm,
        changes: &[([i64; 3], Option<i64>)],
    ) -> Result<Option<Vec<([i64; 3], Option<i64>)>>, NoMemory> {
        match form {
            MemberForm::Rank3(keys) => Ok(Some(keys_found(alloc, keys, changes)?)),
            _ => Ok(None),
        }
    }

    fn clear_all(form: &MemberForm, changes: &[([i64; 3], Option<i64>)]) -> bool {
        match form {
            MemberForm::Rank3(keys) => clears_keys(keys, changes),
            _ => false,
        }
    }

    fn form_of(alloc: Global, keys: Vec<[i64; 3]>) -> Result<MemberForm, NoMemory>
        requires { list_all (is_point 3) (map point_index keys.items) ≡ true }
        ensures same { IfOk result (λ f. (j : any_index) → has (listed f) j ≡ has (map point_index keys.items) j) }
        ensures kept { IfOk result IsKept }
    {
        Ok(MemberForm::Rank3(set_of(alloc, keys)?))
    }
}

impl MemberKey for ShortLabel {
    fn formed(&self) {
        // For the proof: the text has at most 23 bytes.
        let _text = self.as_bytes();
    }

    fn found_in(
        alloc: Global,
        form: &MemberForm,
        changes: &[(ShortLabel, Option<i64>)],
    ) -> Result<Option<Vec<(ShortLabel, Option<i64>)>>, NoMemory> {
        match form {
            MemberForm::Short(keys) => Ok(Some(keys_found(alloc, keys, changes)?)),
            _ => Ok(None),
        }
    }

    fn clear_all(form: &MemberForm, changes: &[(ShortLabel, Option<i64>)]) -> bool {
        match form {
            MemberForm::Short(keys) => clears_keys(keys, changes),
            _ => false,
        }
    }

    fn form_of(alloc: Global, keys: Vec<ShortLabel>) -> Result<MemberForm, NoMemory>
        requires { list_all is_short_text (map text_index keys.items) ≡ true }
        ensures same { IfOk result (λ f. (j : any_index) → has (listed f) j ≡ has (map text_index keys.items) j) }
        ensures kept { IfOk result IsKept }
    {
        Ok(MemberForm::Short(set_of(alloc, keys)?))
    }
}

impl MemberKey for Label {
    fn formed(&self) {}

    fn found_in(
        alloc: Global,
        form: &MemberForm,
        changes: &[(Label, Option<i64>)],
    ) -> Result<Option<Vec<(Label, Option<i64>)>>, NoMemory> {
        match form {
            MemberForm::Text(keys) => Ok(Some(keys_found(alloc, keys, changes)?)),
            _ => Ok(None),
        }
    }

    fn clear_all(form: &MemberForm, changes: &[(Label, Option<i64>)]) -> bool {
        match form {
            MemberForm::Text(keys) => clears_keys(keys, changes),
            _ => false,
        }
    }

    fn form_of(alloc: Global, keys: Vec<Label>) -> Result<MemberForm, NoMemory>
        requires { list_all is_text (map text_index keys.items) ≡ true }
        ensures same { IfOk result (λ f. (j : any_index) → has (listed f) j ≡ has (map text_index keys.items) j) }
        ensures kept { IfOk result IsKept }
    {
        Ok(MemberForm::Text(set_of(alloc, keys)?))
    }
}

/// A key that is a text.
pub(crate) trait TextKey: MemberKey {
    /// The bytes of the text.
    fn text(&self) -> &[u8]
        ensures text { Self.as_index self.now ≡ text_index result.now }
        ensures label { IsLabel result.now };

    /// The key of a label with these bytes, if it has the form.
    fn of_text(text: &[u8]) -> Option<Self>
        requires { IsLabel text.now }
        ensures value { IfSome result (λ k. Self.as_index k ≡ text_index text.now) }
        ensures none { result ≡ None → Self.is_of (text_index text.now) ≡ false };
}

impl TextKey for ShortLabel {
    fn text(&self) -> &[u8] {
        self.as_bytes()
    }

    fn of_text(text: &[u8]) -> Option<ShortLabel> {
        ShortLabel::of_bytes(text)
    }
}

impl TextKey for Label {
    fn text(&self) -> &[u8] {
        self.as_bytes()
    }

    fn of_text(text: &[u8]) -> Option<Label> {
        Some(Label::of_bytes(text))
    }
}
