//! Tests on kinds of domains, which look at nothing.

ghost use Rattle.std.specs.Prelude.{◌≡◌};
ghost use Rattle.wb_edit.specs.Kinds.{rank_of, is_sparse};

use wb_cells::{AnyDomain, DomainKind, Kind, WhyRefused};

/// The rank of a rectangular domain; `WrongKind` for another one.
pub(crate) fn rank_of(kind: &AnyDomain) -> Result<u8, WhyRefused>
    ensures { result ≡ rank_of kind.now }
{
    match kind.domain_kind() {
        DomainKind::Rectangular(rank) => Ok(rank),
        DomainKind::Sparse(_, _) => Err(WhyRefused::WrongKind),
        DomainKind::Associative(_) => Err(WhyRefused::WrongKind),
    }
}

/// That an array is over a sparse domain; `WrongKind` where it is not.
pub(crate) fn is_sparse(kind: &Kind) -> Result<(), WhyRefused>
    ensures { result ≡ is_sparse kind.now }
{
    match kind {
        Kind::Rectangular(_) => Err(WhyRefused::WrongKind),
        Kind::Sparse(_) => Ok(()),
        Kind::Associative(_) => Err(WhyRefused::WrongKind),
    }
}
