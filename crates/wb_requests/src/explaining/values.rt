// What is wrong with values, by what each has to spell.
ghost use Rattle.std.specs.Prelude.{◌≡◌, ◌≢◌, option_map, map, IfOk};
ghost use Rattle.serde_json.specs.View.{view};
ghost use Rattle.wb_requests.specs.Explained.{members_in, fault_of, value_explained, values_explained};
ghost use Rattle.wb_requests.specs.Said.{IsJudged, said_edit_fault, said_fault, said_kind};
ghost use Rattle.wb_requests.specs.Wire.Faults.{fault_told, plain, name, integer, number, index, integers, offsets, key_type, operation, reduction, any_text, note, several};
ghost use Rattle.wb_requests.specs.Wire.Faults as kinds;

use crate::explaining::explanation::{Explanation, least_of};
use crate::explaining::fault::Fault;
use crate::explaining::kinds::{Kind, kind_of};
use crate::explaining::members::{member, text_of};
use crate::explaining::rules::Rule;
use crate::requests::books::text_of_book;
use crate::requests::fields::{
    index_of, integers_of, key_type_of, name_of, note_in, operation_of, reduction_of, several_of,
};
use crate::requests::literals::{domain_within, literal_domain, literal_mapping, mapping_within};
use crate::requests::sources::{given_by, offsets_by};
use serde_json::Value;
use std::alloc::Global;
use wb_edit::Refusal;
use wb_literals::DomainLiteral;
use wb_range::NoMemory;

fn edit_fault(why: wb_cells::WhyRefused) -> Fault
    ensures { said_fault result ≡ said_edit_fault why }
{
    match why {
        wb_cells::WhyRefused::TooLarge => Fault::TooLarge,
        wb_cells::WhyRefused::BadMapping => Fault::BadMapping,
        wb_cells::WhyRefused::NameTaken
        | wb_cells::WhyRefused::NoSuchName
        | wb_cells::WhyRefused::WrongKind
        | wb_cells::WhyRefused::OutOfDomain
        | wb_cells::WhyRefused::OutOfParent
        | wb_cells::WhyRefused::InUse
        | wb_cells::WhyRefused::Overflow
        | wb_cells::WhyRefused::NotEmpty
        | wb_cells::WhyRefused::Empty => Fault::BadRequest,
    }
}

/// The fault that a refusal tells of, or `NoMemory` where it tells of none.
pub(crate) fn fault_told(why: Refusal) -> Result<Fault, NoMemory>
    ensures told { IfOk result (λ f. said_fault f ≡ fault_told why) }
    ensures memory { IfOk result (λ f. why ≢ Refusal.NoMemory) }
{
    match why {
        Refusal::BadLiteral => Ok(Fault::BadLiteral),
        Refusal::Refused(refused) => Ok(edit_fault(refused.why)),
        Refusal::NoMemory => Err(NoMemory),
        Refusal::BadRequest
        | Refusal::NoSuchEdit
        | Refusal::NotInForce
        | Refusal::InForce
        | Refusal::Blocked(_)
        | Refusal::RefusedInPlace(_)
        | Refusal::StrangePass => Ok(Fault::BadRequest),
    }
}

fn judge_name(value: &Value) -> Result<(), Refusal>
    ensures { IsJudged (fault_of (plain name) (view value.now)) result }
{
    let text = text_of(value)?;
    name_of(text)?;
    Ok(())
}

fn judge_integer(value: &Value) -> Result<(), Refusal>
    ensures { IsJudged (fault_of (plain integer) (view value.now)) result }
{
    match value.as_i64() {
        Some(_) => Ok(()),
        None => Err(Refusal::BadRequest),
    }
}

fn judge_number(value: &Value) -> Result<(), Refusal>
    ensures { IsJudged (fault_of (plain number) (view value.now)) result }
{
    match value.as_u64() {
        Some(_) => Ok(()),
        None => Err(Refusal::BadRequest),
    }
}

fn judge_index(value: &Value) -> Result<(), Refusal>
    ensures { IsJudged (fault_of (plain index) (view value.now)) result }
{
    match index_of(value) {
        Some(_) => Ok(()),
        None => Err(Refusal::BadRequest),
    }
}

fn judge_integers(alloc: Global, value: &Value) -> Result<(), Refusal>
    ensures { IsJudged (fault_of (plain integers) (view value.now)) result }
{
    integers_of(alloc, value)?;
    Ok(())
}

fn judge_offsets(value: &Value) -> Result<(), Refusal>
    ensures { IsJudged (fault_of (plain offsets) (view value.now)) result }
{
    offsets_by(value)?;
    Ok(())
}

fn judge_key_type(value: &Value) -> Result<(), Refusal>
    ensures { IsJudged (fault_of (plain key_type) (view value.now)) result }
{
    let text = text_of(value)?;
    key_type_of(text)?;
    Ok(())
}

fn judge_operation(value: &Value) -> Result<(), Refusal>
    ensures { IsJudged (fault_of (plain operation) (view value.now)) result }
{
    let text = text_of(value)?;
    operation_of(text)?;
    Ok(())
}

fn judge_reduction(value: &Value) -> Result<(), Refusal>
    ensures { IsJudged (fault_of (plain reduction) (view value.now)) result }
{
    let text = text_of(value)?;
    reduction_of(text)?;
    Ok(())
}

fn judge_text(value: &Value) -> Result<(), Refusal>
    ensures { IsJudged (fault_of (plain any_text) (view value.now)) result }
{
    text_of(value)?;
    Ok(())
}

fn judge_note(alloc: Global, value: &Value) -> Result<(), Refusal>
    ensures { IsJudged (fault_of (plain note) (view value.now)) result }
{
    let text = text_of(value)?;
    note_in(alloc, text)?;
    Ok(())
}

fn judge_several(value: &Value) -> Result<(), Refusal>
    ensures { IsJudged (fault_of (plain several) (view value.now)) result }
{
    match several_of(value) {
        Some(_) => Ok(()),
        None => Err(Refusal::BadRequest),
    }
}

fn judge_domain(alloc: Global, value: &Value) -> Result<(), Refusal>
    ensures { IsJudged (fault_of kinds.domain (view value.now)) result }
{
    let text = text_of(value)?;
    let literal = literal_domain(alloc, text)?;
    match &literal {
        DomainLiteral::Rectangle(rectangle) => {
            domain_within(rectangle)?;
            Ok(())
        }
        DomainLiteral::Set(_) => Ok(()),
    }
}

fn judge_mapping(value: &Value) -> Result<(), Refusal>
    ensures { IsJudged (fault_of kinds.mapping (view value.now)) result }
{
    let text = text_of(value)?;
    let literal = literal_mapping(text)?;
    mapping_within(&literal)?;
    Ok(())
}

fn judge_source(alloc: Global, value: &Value) -> Result<(), Refusal>
    ensures { IsJudged (fault_of kinds.source (view value.now)) result }
{
    given_by(alloc, value)?;
    Ok(())
}

fn judge_workbook(alloc: Global, value: &Value) -> Result<(), Refusal>
    ensures { IsJudged (fault_of kinds.workbook (view value.now)) result }
{
    let text = text_of(value)?;
    text_of_book(alloc, text)?;
    Ok(())
}

// Whether a value spells what its kind says, or how it is refused.
fn judge(alloc: Global, kind: Kind, value: &Value) -> Result<(), Refusal>
    ensures { IsJudged (fault_of (said_kind kind) (view value.now)) result }
{
    match kind {
        Kind::Name => judge_name(value),
        Kind::Integer => judge_integer(value),
        Kind::Number => judge_number(value),
        Kind::Index => judge_index(value),
        Kind::Integers => judge_integers(alloc, value),
        Kind::Offsets => judge_offsets(value),
        Kind::KeyType => judge_key_type(value),
        Kind::Operation => judge_operation(value),
        Kind::Reduction => judge_reduction(value),
        Kind::AnyText => judge_text(value),
        Kind::Note => judge_note(alloc, value),
        Kind::Several => judge_several(value),
        Kind::Domain => judge_domain(alloc, value),
        Kind::Mapping => judge_mapping(value),
        Kind::Source => judge_source(alloc, value),
        Kind::Workbook => judge_workbook(alloc, value),
    }
}

// Why a value is refused, if it is.
fn fault_of(alloc: Global, kind: Kind, value: &Value) -> Result<Option<Fault>, NoMemory>
    ensures { IfOk result (λ o. option_map said_fault o ≡ fault_of (said_kind kind) (view value.now)) }
{
    match judge(alloc, kind, value) {
        Ok(()) => Ok(None),
        Err(why) => Ok(Some(fault_told(why)?)),
    }
}

// What is wrong with the value of a key.
fn value_explained(
    alloc: Global,
    op: &str,
    value: &Value,
    key: &str,
) -> Result<Option<Explanation>, NoMemory>
    ensures { IfOk result (λ x. x ≡ value_explained op.now (members_in (view value.now)) key.now) }
{
    let kind = match kind_of(op, key) {
        Some(kind) => kind,
        None => return Ok(None),
    };
    let field = match member(value, key) {
        Some(field) => field,
        None => return Ok(None),
    };
    match fault_of(alloc, kind, field)? {
        Some(fault) => {
            let wrong = Explanation::at_field(alloc, fault, key, Rule::Spells(kind))?;
            Ok(Some(wrong))
        }
        None => Ok(None),
    }
}

/// What is wrong with the values of these keys: the first with the least code.
pub(crate) fn values_explained(
    alloc: Global,
    op: &str,
    value: &Value,
    keys: &[&str],
) -> Result<Option<Explanation>, NoMemory>
    ensures { IfOk result (λ x. x ≡ values_explained op.now (members_in (view value.now)) (map (λ k. k.now) keys.now)) }
{
    let mut wrong = None;
    let mut left = keys.len();
    while left > 0 {
        left -= 1;
        let one = value_explained(alloc, op, value, keys[left])?;
        wrong = least_of(one, wrong);
    }
    Ok(wrong)
}
