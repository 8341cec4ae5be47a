// Literals of domains.
ghost use Rattle.std.specs.Prelude.{◌≡◌, ◌↔◌, Some, IfOk, option_map};
ghost use Rattle.wb_literals.specs.Domain.{Domain, domain_of};
ghost use Rattle.wb_literals.specs.Said.{domain};
ghost use Rattle.wb_literals.specs.Grammar.{IsDomain};

use crate::rectangle::{RectangleLiteral, read_rectangle};
use crate::set::{SetLiteral, read_set};
use std::alloc::{AllocError, Global};

/// A domain as it is spelled: `{}` and lists of indices or texts are sets, lists of ranges are rectangles.
#[derive(Drop)]
pub enum DomainLiteral {
    /// 1 to 3 ranges
    Rectangle(RectangleLiteral),
    /// Any number of indices of one rank, or of texts
    Set(SetLiteral),
}

// The domain that all of the text spells.
fn whole_domain(alloc: Global, text: &str) -> Result<Option<DomainLiteral>, AllocError>
    ensures { IfOk result (λ r. option_map domain r ≡ domain_of text.now) }
{
    if let Some(rectangle) = read_rectangle(text) {
        return Ok(Some(DomainLiteral::Rectangle(rectangle)));
    }
    match read_set(alloc, text)? {
        Some(set) => Ok(Some(DomainLiteral::Set(set))),
        None => Ok(None),
    }
}

/// The domain that a text spells: a rectangle or a set. A text is read just where the grammar spells
/// the domain by it.
pub fn read_domain(alloc: Global, text: &str) -> Result<Option<DomainLiteral>, AllocError>
    ensures value { IfOk result (λ r. option_map domain r ≡ domain_of text.now) }
    ensures spelling { IfOk result (λ r. (d : Domain) → (option_map domain r ≡ Some d) ↔ IsDomain text.now d) }
{
    whole_domain(alloc, text)
}
