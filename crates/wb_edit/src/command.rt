ghost use Rattle.std.specs.Prelude.{◌≡◌, IfOk};
ghost use Rattle.wb_edit.specs.Valid.{IsAsked, IsAskedOnce, IsValidCommand, CommandListsOnce};
ghost use Rattle.wb_edit.specs.ValidNumbers.{AreAskedNumbers, AreAskedOnce};
ghost use Rattle.wb_edit.specs.ValidSources.{IsOperand, IsOperandOnce, AreNewIndices, AreNewIndicesOnce};

use crate::asked_numbers::AskedNumbers;
use crate::asked_rectangle::AskedRectangle;
use crate::operation::Operation;
use std::alloc::Global;
use wb_cells::{
    AnyIndex, AnyLayout, KeyType, Name, index_validity, indices_validity, numbers_validity,
};
use wb_range::{Domain, NoMemory};
use wb_reshape::{NewIndices, Operand};

/// A command that changes a workbook, as it is asked for.
///
/// What it tests, reads and writes is its `command_meaning` in `specs/Commands.antt`.
pub enum Command {
    /// A new rectangular domain of this name, with the ranges that are asked for and this mapping
    /// (Chapel Language Specification, Domains and Domain Maps).
    Domain(Name, AskedRectangle, AnyLayout),
    /// A new mapping of the rectangular domain of this name.
    Remap(Name, AnyLayout),
    /// A new sparse domain of the first name, with no index yet, in the rectangular domain of the second one
    /// (Chapel Language Specification, Domains).
    Sparse(Name, Name),
    /// A new associative domain with indices of a type, none yet (Chapel Language Specification, Domains).
    Assoc(Name, KeyType),
    /// A new array of the first name, over the domain of the second one; its elements are 0
    /// (Chapel Language Specification, Arrays).
    Array(Name, Name),
    /// A new value for the element of an array at an index.
    Set(Name, AnyIndex, i64),
    /// A new implicit value for an array over a sparse domain.
    Irv(Name, i64),
    /// An element, the first name and index, becomes another one, the second name and index, plus a number.
    Copy(Name, AnyIndex, Name, AnyIndex, i64),
    /// One number as the elements of an array at the indices of a rectangle.
    Fill(Name, AskedRectangle, i64),
    /// A number for each index of a rectangle, as the elements of an array there.
    Put(Name, AskedNumbers),
    /// One number as every element of an array.
    FillAll(Name, i64),
    /// The end of an array: it, and its elements, are no more.
    DropArray(Name),
    /// Each element of the first array becomes what it and the second array's element at the same index make.
    All(Name, Operation, Name),
    /// A new index of the sparse or associative domain of this name
    /// (Chapel Language Specification, Domains: adding and removing indices).
    Add(Name, AnyIndex),
    /// The end of an index of the sparse or associative domain of this name
    /// (Chapel Language Specification, Domains: adding and removing indices).
    Remove(Name, AnyIndex),
    /// The end of a domain to which nothing is bound.
    DropDomain(Name),
    /// A new value of the domain of this name, from a source of its kind (Chapel Language Specification, Domains: assignment,
    /// slicing, translate, expand, and set operations on associative domains).
    Reshape(Name, NewIndices),
}

// In a function of its own, so that a crate above need not prove anew how each field is let go.
impl Drop for Command {
    fn drop(self) {
        match self {
            Command::Domain(_, _, _)
            | Command::Remap(_, _)
            | Command::Sparse(_, _)
            | Command::Assoc(_, _)
            | Command::Array(_, _)
            | Command::Set(_, _, _)
            | Command::Irv(_, _)
            | Command::Copy(_, _, _, _, _)
            | Command::Fill(_, _, _)
            | Command::Put(_, _)
            | Command::FillAll(_, _)
            | Command::DropArray(_)
            | Command::All(_, _, _)
            | Command::Add(_, _)
            | Command::Remove(_, _)
            | Command::DropDomain(_)
            | Command::Reshape(_, _) => {}
        }
    }
}

impl Command {
    /// An equal command, or `NoMemory` where none is left for a set of indices or for numbers in it. All else is of a fixed size and takes none.
    pub fn copy(&self, alloc: Global) -> Result<Command, NoMemory>
        ensures { IfOk result (λ c. c ≡ self.now) }
    {
        match self {
            Command::Domain(domain, asked, mapping) => Ok(Command::Domain(
                *domain, *asked, *mapping,
            )),
            Command::Remap(domain, mapping) => Ok(Command::Remap(*domain, *mapping)),
            Command::Sparse(domain, parent) => Ok(Command::Sparse(*domain, *parent)),
            Command::Assoc(domain, key) => Ok(Command::Assoc(*domain, *key)),
            Command::Array(array, domain) => Ok(Command::Array(*array, *domain)),
            Command::Set(array, index, value) => Ok(Command::Set(*array, *index, *value)),
            Command::Irv(array, value) => Ok(Command::Irv(*array, *value)),
            Command::Copy(array, index, source, place, more) => {
                Ok(Command::Copy(*array, *index, *source, *place, *more))
            }
            Command::Fill(array, on, value) => Ok(Command::Fill(*array, *on, *value)),
            Command::Put(array, asked) => Ok(Command::Put(*array, asked.copy(alloc)?)),
            Command::FillAll(array, value) => Ok(Command::FillAll(*array, *value)),
            Command::DropArray(array) => Ok(Command::DropArray(*array)),
            Command::All(array, how, other) => Ok(Command::All(*array, *how, *other)),
            Command::Add(domain, index) => Ok(Command::Add(*domain, *index)),
            Command::Remove(domain, index) => Ok(Command::Remove(*domain, *index)),
            Command::DropDomain(domain) => Ok(Command::DropDomain(*domain)),
            Command::Reshape(domain, source) => Ok(Command::Reshape(*domain, source.copy(alloc)?)),
        }
    }

    /// Computes nothing. Callers learn what every command is: its new name is a name, its ranges and mapping are within the limits,
    /// its numbers are of 64 bits and as many as the indices that they are for, and its indices are made of such numbers or of texts of labels.
    pub fn validity(&self)
        ensures { IsValidCommand self.now }
    {
        match self {
            Command::Domain(domain, asked, mapping) => {
                // For the proof: the bytes are those of a name.
                let _name = domain.as_bytes();
                asked_validity(asked);
                // For the proof: the mapping is within the limits.
                let _fits = mapping.is_of_rank(1);
            }
            Command::Remap(_, mapping) => {
                // For the proof: the mapping is within the limits.
                let _fits = mapping.is_of_rank(1);
            }
            Command::Sparse(domain, _) => {
                // For the proof: the bytes are those of a name.
                let _name = domain.as_bytes();
            }
            Command::Assoc(domain, _) => {
                // For the proof: the bytes are those of a name.
                let _name = domain.as_bytes();
            }
            Command::Array(array, _) => {
                // For the proof: the bytes are those of a name.
                let _name = array.as_bytes();
            }
            Command::Set(_, _, value) => {
                // For the proof: the number is one of 64 bits.
                let _value = *value;
            }
            Command::Irv(_, value) => {
                // For the proof: the number is one of 64 bits.
                let _value = *value;
            }
            Command::Copy(_, _, _, _, more) => {
                // For the proof: the number is one of 64 bits.
                let _more = *more;
            }
            Command::Fill(_, _, value) => {
                // For the proof: the number is one of 64 bits.
                let _value = *value;
            }
            Command::Put(_, asked) => numbers_asked_validity(asked),
            Command::FillAll(_, value) => {
                // For the proof: the number is one of 64 bits.
                let _value = *value;
            }
            Command::DropArray(_) => {}
            Command::All(_, _, _) => {}
            Command::Add(_, index) => index_validity(index),
            Command::Remove(_, _) => {}
            Command::DropDomain(_) => {}
            Command::Reshape(_, source) => source_validity(source),
        }
    }

    /// Computes nothing. Callers learn that the indices that a command carries are listed once each.
    pub fn listing(&self)
        ensures { CommandListsOnce self.now }
    {
        match self {
            Command::Fill(_, on, _) => asked_listing(on),
            Command::Put(_, asked) => numbers_asked_listing(asked),
            Command::Reshape(_, source) => source_listing(source),
            Command::Domain(_, _, _) => {}
            Command::Remap(_, _) => {}
            Command::Sparse(_, _) => {}
            Command::Assoc(_, _) => {}
            Command::Array(_, _) => {}
            Command::Set(_, _, _) => {}
            Command::Irv(_, _) => {}
            Command::Copy(_, _, _, _, _) => {}
            Command::FillAll(_, _) => {}
            Command::DropArray(_) => {}
            Command::All(_, _, _) => {}
            Command::Add(_, _) => {}
            Command::Remove(_, _) => {}
            Command::DropDomain(_) => {}
        }
    }
}

// Computes nothing. Callers learn that the rectangle that is asked for has each index once.
fn asked_listing(asked: &AskedRectangle)
    ensures { IsAskedOnce asked.now }
{
    match asked {
        AskedRectangle::Ranges(ranges) => {
            // For the proof: each index of the ranges is listed once.
            let _once = ranges.size();
        }
        AskedRectangle::Indices => {}
    }
}

// Computes nothing. Callers learn that the rectangle of the numbers has each index once.
fn numbers_asked_listing(asked: &AskedNumbers)
    ensures { AreAskedOnce asked.now }
{
    match asked {
        AskedNumbers::Rectangle(numbered) => {
            // For the proof: each index of the ranges is listed once.
            let _once = numbered.ranges().size();
        }
        AskedNumbers::Indices => {}
    }
}

// Computes nothing. Callers learn what the numbers are that are asked for, and that they are as many as the indices.
fn numbers_asked_validity(asked: &AskedNumbers)
    ensures { AreAskedNumbers asked.now }
{
    match asked {
        AskedNumbers::Rectangle(numbered) => numbers_validity(numbered.numbers()),
        AskedNumbers::Indices => {}
    }
}

// Computes nothing. Callers learn that a set in the source has each index once.
fn source_listing(source: &NewIndices)
    ensures { AreNewIndicesOnce source.now }
{
    match source {
        NewIndices::To(given) => given_listing(given),
        NewIndices::Slice(given) => given_listing(given),
        NewIndices::Displace(_, _) => {}
        NewIndices::Combine(_, given) => given_listing(given),
    }
}

// Computes nothing. Callers learn that a set that is given has each index once.
fn given_listing(given: &Operand)
    ensures { IsOperandOnce given.now }
{
    match given {
        Operand::Rectangle(_) => {}
        Operand::Items(items) => {
            // For the proof: each index of the set is listed once.
            let _once = items.size();
        }
        Operand::Named(_) => {}
    }
}

// Computes nothing. Callers learn what the ranges of the rectangle are that is asked for.
fn asked_validity(asked: &AskedRectangle)
    ensures { IsAsked asked.now }
{
    match asked {
        AskedRectangle::Ranges(ranges) => {
            // For the proof: the ranges are those of a rectangle.
            let _rank = ranges.rank();
        }
        AskedRectangle::Indices => {}
    }
}

// Computes nothing. Callers learn what the source of a domain's new value is made of.
fn source_validity(source: &NewIndices)
    ensures { AreNewIndices source.now }
{
    match source {
        NewIndices::To(given) => given_validity(given),
        NewIndices::Slice(given) => given_validity(given),
        NewIndices::Displace(_, _) => {}
        NewIndices::Combine(_, given) => given_validity(given),
    }
}

// Computes nothing. Callers learn what is given.
fn given_validity(given: &Operand)
    ensures { IsOperand given.now }
{
    match given {
        Operand::Rectangle(ranges) => {
            // For the proof: the ranges are those of a rectangle.
            let _rank = ranges.rank();
        }
        Operand::Items(items) => indices_validity(items.as_slice()),
        Operand::Named(_) => {}
    }
}
