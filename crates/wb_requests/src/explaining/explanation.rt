ghost use Rattle.std.specs.Prelude.{◌≡◌, option_map, IfOk, Some};
ghost use Rattle.std.specs.Bool.{Decides};
ghost use Rattle.wb_requests.specs.Explained.{of_whole, at_field, at_place, rule_text, lesser, least_of};
ghost use Rattle.wb_requests.specs.Said.{said_fault, said_rule};
ghost use Rattle.wb_requests.specs.Wire.Faults.{code, refusal_of};

use crate::explaining::fault::Fault;
use crate::explaining::rules::Rule;
use std::alloc::Global;
use std::marker::Model;
use wb_edit::Refusal;
use wb_range::NoMemory;

/// What is wrong with a line: the code that it is refused by, the field, and the rule that this breaks, and of a command within a
/// transaction its place. Contracts see these four.
#[derive(Debug, Drop)]
pub struct Explanation {
    fault: Fault,
    field: Option<String>,
    rule: Rule,
    at: Option<usize>,
}

impl Model for Explanation {
    ghost use Rattle.std.specs.Prelude.{option_map, string_bytes};
    ghost use Rattle.wb_requests.specs.Explained as told;
    ghost use Rattle.wb_requests.specs.Said.{said_fault, said_rule};

    ghost Value = { told.Explanation };

    ghost view = { λ a. record { fault = said_fault a.fault; field = option_map string_bytes a.field; rule = said_rule a.rule; at = a.at } };
}

impl Explanation {
    /// What is wrong with the whole.
    pub(crate) fn of_whole(rule: Rule) -> Explanation
        ensures { result ≡ of_whole (said_rule rule) }
    {
        Explanation {
            fault: Fault::BadRequest,
            field: None,
            rule,
            at: None,
        }
    }

    /// What is wrong with a field, or `NoMemory`.
    pub(crate) fn at_field(
        alloc: Global,
        fault: Fault,
        key: &str,
        rule: Rule,
    ) -> Result<Explanation, NoMemory>
        ensures { IfOk result (λ x. x ≡ at_field (said_fault fault) key.now (said_rule rule)) }
    {
        let field = String::from_str(alloc, key)?;
        Ok(Explanation {
            fault,
            field: Some(field),
            rule,
            at: None,
        })
    }

    /// The explanation, told of the command at a place within a transaction.
    pub(crate) fn at_place(self, place: usize) -> Explanation
        ensures { result ≡ at_place place self }
    {
        Explanation {
            fault: self.fault,
            field: self.field,
            rule: self.rule,
            at: Some(place),
        }
    }

    /// The refusal of the line.
    pub fn refusal(&self) -> Refusal
        ensures { result ≡ refusal_of self.now.fault }
    {
        self.fault.refusal()
    }

    /// The field that is wrong, if it is one.
    pub fn field(&self) -> Option<&str>
        ensures { option_map (λ s. s.now) result ≡ self.now.field }
    {
        match &self.field {
            Some(field) => Some(field.as_str()),
            None => None,
        }
    }

    /// The place of the command that is wrong within a transaction, if it is one.
    pub fn at(&self) -> Option<usize>
        ensures { result ≡ self.now.at }
    {
        self.at
    }

    /// What is wanted.
    pub fn rule(&self) -> &'static str
        ensures { result.now ≡ rule_text self.now.rule self.now.fault }
    {
        self.rule.text(self.fault)
    }

    /// The number of its code.
    pub(crate) fn code(&self) -> u8
        ensures { result ≡ code self.now.fault }
    {
        self.fault.code()
    }

    /// An equal explanation, or `NoMemory`.
    pub fn copy(&self, alloc: Global) -> Result<Explanation, NoMemory>
        ensures { IfOk result (λ x. x ≡ self.now) }
    {
        let field = match &self.field {
            Some(field) => Some(String::from_str(alloc, field.as_str())?),
            None => None,
        };
        Ok(Explanation {
            fault: self.fault,
            field,
            rule: self.rule,
            at: self.at,
        })
    }

    /// Whether the explanations are equal.
    pub fn is_same(&self, other: &Explanation) -> bool
        ensures { Decides result (self.now ≡ other.now) }
    {
        if !self.fault.is_same(other.fault) {
            return false;
        }
        if !self.rule.is_same(other.rule) {
            return false;
        }
        if !is_same_place(self.at, other.at) {
            return false;
        }
        match (&self.field, &other.field) {
            (Some(field), Some(by)) => field.as_str() == by.as_str(),
            (None, None) => true,
            _ => false,
        }
    }
}

fn is_same_place(at: Option<usize>, by: Option<usize>) -> bool
    ensures { Decides result (at ≡ by) }
{
    match (at, by) {
        (Some(at), Some(by)) => at == by,
        (None, None) => true,
        _ => false,
    }
}

/// The first of two with the least code.
pub(crate) fn least_of(one: Option<Explanation>, more: Option<Explanation>) -> Option<Explanation>
    ensures { result ≡ least_of one more }
{
    match one {
        None => more,
        Some(one) => Some(lesser(one, more)),
    }
}

// The first with the least code.
fn lesser(one: Explanation, more: Option<Explanation>) -> Explanation
    ensures { Some result ≡ lesser one more }
{
    match more {
        None => one,
        Some(other) => {
            if other.code() < one.code() {
                return other;
            }
            one
        }
    }
}
