ghost use Rattle.std.specs.Prelude.{◌≡◌};

use crate::cells::kind::{AnyDomain, Kind};
use crate::values::layout::AnyLayout;
use crate::values::name::Name;
use crate::values::rectangle::AnyRect;
use std::marker::Model;

/// How an object is bound to a domain.
#[derive(Clone, Copy, Debug, PartialEq, Eq)]
pub enum Binding {
    /// An array over it.
    Array,
    /// A sparse domain in it.
    Sparse,
}

/// What stands in a cell.
#[derive(Clone, Copy)]
pub enum Value {
    /// A domain of a kind.
    Domain(AnyDomain),
    /// An array over the domain of a name, which is of a kind.
    Array(Name, Kind),
    /// The ranges of a rectangular domain.
    Ranges(AnyRect),
    /// The mapping of a rectangular domain.
    Mapping(AnyLayout),
    /// That an index is there.
    Present,
    /// What an object is to a domain.
    Bound(Binding),
    /// An element, or an implicit value.
    Number(i64),
}

/// What stands in a cell, in a form that `Option` may hold. Contracts see it as its `Value`.
#[derive(Clone, Copy)]
pub struct AnyValue {
    value: Value,
}

impl Model for AnyValue {
    ghost use Rattle.wb_cells.specs.declared.cells.value.Value as held;

    ghost Value = { held.Value };

    ghost view = { λ a. a.value };

    ghost inverse = { λ v. record { value = v } };
}

impl AnyValue {
    /// The value, to be held by another one.
    pub fn new(value: Value) -> AnyValue
        ensures { result ≡ value }
    {
        AnyValue { value }
    }

    /// The value, without a copy of it.
    pub fn as_value(&self) -> &Value
        ensures { result.now ≡ self.now }
    {
        &self.value
    }

    /// The value.
    pub fn value(&self) -> Value
        ensures { result ≡ self.now }
    {
        self.value
    }
}
