//! Elements made at the indices of a rectangle.

ghost use Rattle.std.specs.Prelude.{◌≡◌, ◌<◌, [], ◌∷◌, ◌++◌, Some, true, length, get_or, IfOk, IfSome};
ghost use Rattle.std.specs.List.Sorted.{IsStrictlySortedBy};
ghost use Rattle.std.specs.Map.{keys_of};
ghost use Rattle.std.specs.declared.cmp.Ordering.TheVariants.{Less};
ghost use Rattle.wb_cells.specs.declared.values.index.Index.TheVariants.{Point as point_index};
ghost use Rattle.wb_elements.specs.Piecewise.Changed.{all_set};
ghost use Rattle.wb_elements.specs.Piecewise.Indexed.{indexed, AllOf};
ghost use Rattle.wb_elements.specs.Piecewise.Marked.{as_changes};

use crate::block::ChangeBlock;
use std::alloc::Global;
use std::cmp::Ordering;
use wb_arrays::Pieces;
use wb_cells::AsIndex;
use wb_range::{Domain, Key, Mapping, NoMemory};

/// Elements by a mapping, at each index of a rectangle the number that is set there; `None` where the indices don't ascend,
/// are of another form, or have no number.
pub(crate) fn filled<D: Domain, M: Mapping<Index = D::Index>, B: ChangeBlock>(
    alloc: Global,
    block: &B,
    mapping: &M,
) -> Result<Option<Pieces<D, M>>, NoMemory>
where
    D::Index: AsIndex,
    ensures elements { IfOk result (λ o. IfSome o (λ p. all_set (indexed D.Index.as_index p.0) ≡ as_changes point_index (B.entries block.now))) }
    ensures mapping { IfOk result (λ o. IfSome o (λ p. p.1 ≡ mapping.now)) }
    ensures kept { IfOk result (λ o. IfSome o (λ p. AllOf D.Index.as_index D.Index.is_of p.0)) }
{
    match filled_pairs(alloc, block) {
        Ok(Some(pairs)) => match Pieces::of_pairs(alloc, mapping, pairs.as_slice()) {
            Ok(pieces) => Ok(Some(pieces)),
            Err(why) => Err(why),
        },
        Ok(None) => Ok(None),
        Err(why) => Err(why),
    }
}

// The numbers after their keys, if these ascend.
fn filled_pairs<I: AsIndex, B: ChangeBlock>(
    alloc: Global,
    block: &B,
) -> Result<Option<Vec<(I, i64)>>, NoMemory>
    ensures elements { IfOk result (λ o. IfSome o (λ v. all_set (indexed I.as_index v.items) ≡ as_changes point_index (B.entries block.now))) }
    ensures kept { IfOk result (λ o. IfSome o (λ v. AllOf I.as_index I.is_of v.items)) }
    ensures ascending { IfOk result (λ o. IfSome o (λ v. IsStrictlySortedBy I.cmp (keys_of v.items))) }
{
    let count = block.many();
    let Ok(mut pairs) = Vec::with_capacity(alloc, count) else {
        return Err(NoMemory);
    };
    for at in 0..count {
        let Some(pair) = pair_at(block, at) else {
            return Ok(None);
        };
        if !goes_behind(&pairs, &pair) {
            return Ok(None);
        }
        if pairs.push(pair).is_err() {
            return Err(NoMemory);
        }
    }
    Ok(Some(pairs))
}

// The number at a place after its key, if there is one and the index has the form.
fn pair_at<I: AsIndex, B: ChangeBlock>(block: &B, at: usize) -> Option<(I, i64)>
    requires { at < length (B.entries block.now) }
    ensures value { IfSome result (λ p. (I.as_index p.0, Some p.1) ≡ get_or (as_changes point_index (B.entries block.now)) at (I.as_index p.0, Some p.1)) }
    ensures formed { IfSome result (λ p. I.is_of (I.as_index p.0) ≡ true) }
{
    let (index, number) = block.entry(at);
    match number {
        Some(number) => match I::of(&index) {
            Some(key) => Some((key, number)),
            None => None,
        },
        None => None,
    }
}

// Whether a pair goes behind others in the order of the keys.
fn goes_behind<I: Key>(pairs: &[(I, i64)], pair: &(I, i64)) -> bool
    requires { IsStrictlySortedBy I.cmp (keys_of pairs.now) }
    ensures { result ≡ true → IsStrictlySortedBy I.cmp (keys_of (pairs.now ++ pair.now ∷ [])) }
{
    let count = pairs.len();
    if count == 0 {
        return true;
    }
    let last = count - 1;
    is_above(&pairs[last], &pair.0)
}

fn is_above<I: Key>(pair: &(I, i64), key: &I) -> bool
    ensures { result ≡ true → I.cmp pair.now.0 key.now ≡ Less }
{
    match pair.0.cmp(key) {
        Ordering::Less => true,
        Ordering::Equal | Ordering::Greater => false,
    }
}
