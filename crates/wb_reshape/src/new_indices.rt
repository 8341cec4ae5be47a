ghost use Rattle.std.specs.Prelude.{◌≡◌, IfOk};
ghost use Rattle.std.specs.Bool.{Decides};

use crate::operand::Operand;
use std::alloc::Global;
use wb_cells::Point;
use wb_range::NoMemory;

/// What two sets make (Chapel Language Specification, Domains: set operations on associative domains).
#[derive(Clone, Copy, Debug)]
pub enum SetOperation {
    /// The indices of either set.
    Union,
    /// The indices of both sets.
    Intersection,
    /// The indices that the given set doesn't have.
    Difference,
    /// The indices of exactly one of the sets.
    SymmetricDifference,
}

impl SetOperation {
    /// Whether the operations are equal.
    pub fn is_same(self, other: SetOperation) -> bool
        ensures { Decides result (self ≡ other) }
    {
        match (self, other) {
            (SetOperation::Union, SetOperation::Union) => true,
            (SetOperation::Intersection, SetOperation::Intersection) => true,
            (SetOperation::Difference, SetOperation::Difference) => true,
            (SetOperation::SymmetricDifference, SetOperation::SymmetricDifference) => true,
            _ => false,
        }
    }
}

/// How ranges move by offsets (Chapel Language Specification, Domains: translate, expand).
#[derive(Clone, Copy, Debug)]
pub enum Displacement {
    /// Both bounds upward by the offset.
    Translate,
    /// Both bounds outward by the offset.
    Expand,
}

impl Displacement {
    /// Whether the displacements are equal.
    pub fn is_same(self, other: Displacement) -> bool
        ensures { Decides result (self ≡ other) }
    {
        match (self, other) {
            (Displacement::Translate, Displacement::Translate) => true,
            (Displacement::Expand, Displacement::Expand) => true,
            _ => false,
        }
    }
}

/// Where the new value of a domain comes from.
#[derive(Drop)]
pub enum NewIndices {
    /// What is given takes the place of the value.
    To(Operand),
    /// The slice of a rectangular domain by what is given.
    Slice(Operand),
    /// The ranges of a rectangular domain, displaced by an offset for each dimension.
    Displace(Displacement, Point),
    /// The set that the indices of the domain and those that are given make.
    Combine(SetOperation, Operand),
}

impl NewIndices {
    /// An equal source, or `NoMemory` where none is left for what is given.
    pub fn copy(&self, alloc: Global) -> Result<NewIndices, NoMemory>
        ensures { IfOk result (λ s. s ≡ self.now) }
    {
        match self {
            NewIndices::To(given) => Ok(NewIndices::To(given.copy(alloc)?)),
            NewIndices::Slice(given) => Ok(NewIndices::Slice(given.copy(alloc)?)),
            NewIndices::Displace(how, offsets) => Ok(NewIndices::Displace(*how, *offsets)),
            NewIndices::Combine(how, given) => Ok(NewIndices::Combine(*how, given.copy(alloc)?)),
        }
    }

    /// Whether the sources are equal.
    pub fn is_same(&self, other: &NewIndices) -> bool
        ensures { Decides result (self.now ≡ other.now) }
    {
        match (self, other) {
            (NewIndices::To(given), NewIndices::To(by)) => given.is_same(by),
            (NewIndices::Slice(given), NewIndices::Slice(by)) => given.is_same(by),
            (NewIndices::Displace(how, offsets), NewIndices::Displace(by, others)) => {
                displace_alike(*how, offsets, *by, others)
            }
            (NewIndices::Combine(how, given), NewIndices::Combine(by, others)) => {
                combine_alike(*how, given, *by, others)
            }
            _ => false,
        }
    }
}

fn displace_alike(how: Displacement, offsets: &Point, by: Displacement, others: &Point) -> bool
    ensures { Decides result ((how ≡ by) × (offsets.now ≡ others.now)) }
{
    if !how.is_same(by) {
        return false;
    }
    offsets.is_same(others)
}

fn combine_alike(how: SetOperation, given: &Operand, by: SetOperation, others: &Operand) -> bool
    ensures { Decides result ((how ≡ by) × (given.now ≡ others.now)) }
{
    if !how.is_same(by) {
        return false;
    }
    given.is_same(others)
}
