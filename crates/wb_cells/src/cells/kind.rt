ghost use Rattle.std.specs.Prelude.{◌≡◌};
ghost use Rattle.std.specs.Bool.{Decides};
ghost use Rattle.wb_cells.specs.WellFormed.{index_cell};
ghost use Rattle.wb_cells.specs.Kinds.{kind_of, is_point, is_text, is_key};

use crate::cells::cell::Cell;
use crate::values::index::{AnyIndex, Index};
use crate::values::name::Name;
use std::marker::Model;

/// The type of an associative domain's indices (Chapel Language Specification, Domains).
#[derive(Clone, Copy, Debug, PartialEq, Eq)]
pub enum KeyType {
    /// Integers.
    Int,
    /// Texts.
    Text,
}

impl KeyType {
    /// Whether the types are equal.
    pub fn is_same(self, other: KeyType) -> bool
        ensures { Decides result (self ≡ other) }
    {
        match (self, other) {
            (KeyType::Int, KeyType::Int) => true,
            (KeyType::Text, KeyType::Text) => true,
            _ => false,
        }
    }
}

/// What an array knows of its domain: the kind, with the rank or the type of the indices.
#[derive(Clone, Copy, Debug, PartialEq, Eq)]
pub enum Kind {
    /// Rectangular, of a rank.
    Rectangular(u8),
    /// Sparse, of a rank.
    Sparse(u8),
    /// Associative, with indices of a type.
    Associative(KeyType),
}

/// What a domain is (Chapel Language Specification, Domains).
#[derive(Clone, Copy, Debug, PartialEq, Eq)]
pub enum DomainKind {
    /// Rectangular, of a rank.
    Rectangular(u8),
    /// Sparse, within the rectangular domain of a name, which has a rank.
    Sparse(Name, u8),
    /// Associative, with indices of a type.
    Associative(KeyType),
}

/// What a domain is, in a form that other enums may hold. Contracts see it as its `DomainKind`.
#[derive(Clone, Copy, Debug, PartialEq, Eq)]
pub struct AnyDomain {
    kind: DomainKind,
}

impl Model for AnyDomain {
    ghost use Rattle.wb_cells.specs.declared.cells.kind.DomainKind.{DomainKind};

    ghost Value = { DomainKind };

    ghost view = { λ a. a.kind };

    ghost inverse = { λ v. record { kind = v } };
}

impl AnyDomain {
    /// What a domain is, to be held by another value.
    pub fn new(kind: DomainKind) -> AnyDomain
        ensures { result ≡ kind }
    {
        AnyDomain { kind }
    }

    /// What the domain is.
    pub fn domain_kind(&self) -> DomainKind
        ensures { result ≡ self.now }
    {
        self.kind
    }

    /// What an array over the domain knows of it.
    pub fn kind(&self) -> Kind
        ensures { result ≡ kind_of self.now }
    {
        match self.kind {
            DomainKind::Rectangular(rank) => Kind::Rectangular(rank),
            DomainKind::Sparse(_, rank) => Kind::Sparse(rank),
            DomainKind::Associative(key) => Kind::Associative(key),
        }
    }
}

// Whether an index is a point of so many coordinates.
fn is_point(rank: usize, index: &Index) -> bool
    ensures { result ≡ is_point rank index.now }
{
    match index {
        Index::Point(point) => point.coordinates().len() == rank,
        Index::Text(_) => false,
    }
}

fn is_text(index: &Index) -> bool
    ensures { result ≡ is_text index.now }
{
    match index {
        Index::Point(_) => false,
        Index::Text(_) => true,
    }
}

impl Kind {
    /// Whether an index is of the rank, or of the type, of the indices of such a domain.
    pub fn is_key(&self, index: &Index) -> bool
        ensures { result ≡ is_key self.now index.now }
    {
        match self {
            Kind::Rectangular(rank) => is_point(*rank as usize, index),
            Kind::Sparse(rank) => is_point(*rank as usize, index),
            Kind::Associative(KeyType::Int) => is_point(1, index),
            Kind::Associative(KeyType::Text) => is_text(index),
        }
    }

    /// The cell that says whether an index is in a domain of this kind.
    pub fn index_cell(&self, domain: Name, index: AnyIndex) -> Cell
        ensures { result ≡ index_cell self.now domain index }
    {
        match self {
            Kind::Rectangular(_) => Cell::In(domain, index),
            Kind::Sparse(_) => Cell::Member(domain, index),
            Kind::Associative(_) => Cell::Member(domain, index),
        }
    }
}
