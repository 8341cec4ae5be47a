// The literals of requests: what they spell, and what that stands for.
ghost use Rattle.std.specs.Prelude.{◌≡◌, option_map};
ghost use Rattle.std.specs.Result.{result_map_both};
ghost use Rattle.wb_literals.specs.Said.{domain};
ghost use Rattle.wb_edit.specs.Trees.{plain};
ghost use Rattle.wb_edit.specs.declared.refusal.Refusal.TheVariants.{Refused};
ghost use Rattle.wb_requests.specs.Answers.{IsAnswer};
ghost use Rattle.wb_requests.specs.Literals.{literal_domain, literal_mapping, optional_mapping, refusal_of_limit, domain_within, mapping_within};

use std::alloc::Global;
use wb_cells::{AnyLayout, AnyRect, EditRefusal};
use wb_edit::Refusal;
use wb_literals::limits::LimitErr;
use wb_literals::{DomainLiteral, MappingLiteral, RectangleLiteral, read_domain, read_mapping};

/// The rectangle or the set that a literal spells.
pub(crate) fn literal_domain(alloc: Global, text: &str) -> Result<DomainLiteral, Refusal>
    ensures { IsAnswer (literal_domain text.now) (result_map_both domain (λ e. e) result) }
{
    match read_domain(alloc, text) {
        Ok(Some(literal)) => Ok(literal),
        Ok(None) => Err(Refusal::BadLiteral),
        Err(_) => Err(Refusal::NoMemory),
    }
}

/// The mapping that a literal spells.
pub(crate) fn literal_mapping(text: &str) -> Result<MappingLiteral, Refusal>
    ensures { result ≡ literal_mapping text.now }
{
    match read_mapping(text) {
        Some(mapping) => Ok(mapping),
        None => Err(Refusal::BadLiteral),
    }
}

/// The mapping that a literal spells, and all on one locale where there is no literal.
pub(crate) fn optional_mapping(text: Option<&str>) -> Result<MappingLiteral, Refusal>
    ensures { result ≡ optional_mapping (option_map (λ s. s.now) text.entry) }
{
    match text {
        None => Ok(MappingLiteral::Whole),
        Some(text) => literal_mapping(text),
    }
}

/// The refusal of a request that is refused as an edit is.
pub(crate) fn of_edit(why: wb_cells::WhyRefused) -> Refusal
    ensures { result ≡ Refused (plain why) }
{
    Refusal::Refused(EditRefusal { why, at: None })
}

fn refusal_of_limit(why: LimitErr) -> Refusal
    ensures { result ≡ refusal_of_limit why }
{
    match why {
        LimitErr::TooLarge => of_edit(wb_cells::WhyRefused::TooLarge),
        LimitErr::BadMapping => of_edit(wb_cells::WhyRefused::BadMapping),
    }
}

/// The domain that a literal stands for, within all limits.
pub(crate) fn domain_within(literal: &RectangleLiteral) -> Result<AnyRect, Refusal>
    ensures { result ≡ domain_within literal.now }
{
    match wb_literals::limits::domain_within(literal) {
        Ok(domain) => Ok(domain),
        Err(why) => Err(refusal_of_limit(why)),
    }
}

/// The mapping that a literal stands for, within all limits.
pub(crate) fn mapping_within(literal: &MappingLiteral) -> Result<AnyLayout, Refusal>
    ensures { result ≡ mapping_within literal.now }
{
    match wb_literals::limits::mapping_within(literal) {
        Ok(mapping) => Ok(mapping),
        Err(why) => Err(refusal_of_limit(why)),
    }
}
