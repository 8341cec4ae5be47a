// Which form an object has, and what is wrong with one that has none.
ghost use Rattle.std.specs.Prelude.{◌≡◌, option_map, map, IfOk};
ghost use Rattle.std.specs.List.{list_all};
ghost use Rattle.serde_json.specs.View.{view, members_view};
ghost use Rattle.wb_requests.specs.Explained.{members_in, has, form_in, some_has, foreign_in, missing_in, formless_by};

use crate::explaining::explanation::Explanation;
use crate::explaining::fault::Fault;
use crate::explaining::members::{is_form, is_there};
use crate::explaining::rules::Rule;
use serde_json::{Map, Value};
use std::alloc::Global;
use wb_range::NoMemory;

// Whether a key is one of these.
fn has(keys: &[&str], key: &str) -> bool
    ensures { result ≡ has (map (λ k. k.now) keys.now) key.now }
{
    for known in keys {
        if *known == key {
            return true;
        }
    }
    false
}

// Whether some form has a key.
fn some_has(forms: &[&[&str]], key: &str) -> bool
    ensures { result ≡ some_has (map (λ f. map (λ k. k.now) f.now) forms.now) key.now }
{
    for keys in forms {
        if has(keys, key) {
            return true;
        }
    }
    false
}

// Whether each form has a key.
fn all_have(forms: &[&[&str]], key: &str) -> bool
    ensures { result ≡ list_all (λ f. has f key.now) (map (λ f. map (λ k. k.now) f.now) forms.now) }
{
    for keys in forms {
        if !has(keys, key) {
            return false;
        }
    }
    true
}

/// The form that an object has.
pub(crate) fn form_in(
    value: &Value,
    forms: &[&'static [&'static str]],
) -> Option<&'static [&'static str]>
    ensures { option_map (λ f. map (λ k. k.now) f.now) result ≡ form_in (members_in (view value.now)) (map (λ f. map (λ k. k.now) f.now) forms.now) }
{
    for keys in forms {
        if is_form(value, keys) {
            return Some(*keys);
        }
    }
    None
}

// The first member that no form has.
fn foreign_among<'a>(forms: &[&[&str]], members: &'a Map<String, Value>) -> Option<&'a str>
    ensures { option_map (λ s. s.now) result ≡ foreign_in (map (λ f. map (λ k. k.now) f.now) forms.now) (members_view members.now.entries) }
{
    for (key, _) in members.iter() {
        let key = key.as_str();
        if key != "op" && !some_has(forms, key) {
            return Some(key);
        }
    }
    None
}

// The first member that no form has.
fn foreign_in<'a>(forms: &[&[&str]], value: &'a Value) -> Option<&'a str>
    ensures { option_map (λ s. s.now) result ≡ foreign_in (map (λ f. map (λ k. k.now) f.now) forms.now) (members_in (view value.now)) }
{
    match value.as_object() {
        Some(members) => foreign_among(forms, members),
        None => None,
    }
}

// The first of these keys that each form has, and that isn't there.
fn missing_in(forms: &[&[&str]], value: &Value, keys: &[&'static str]) -> Option<&'static str>
    ensures { option_map (λ s. s.now) result ≡ missing_in (map (λ f. map (λ k. k.now) f.now) forms.now) (members_in (view value.now)) (map (λ k. k.now) keys.now) }
{
    for key in keys {
        if !is_there(value, key) && all_have(forms, key) {
            return Some(*key);
        }
    }
    None
}

/// What is wrong with an object that has none of the forms of its op, of which one is the first; or `NoMemory`.
pub(crate) fn formless(
    alloc: Global,
    value: &Value,
    first: &[&'static str],
    forms: &[&[&str]],
) -> Result<Explanation, NoMemory>
    ensures { IfOk result (λ x. x ≡ formless_by
        (foreign_in (map (λ f. map (λ k. k.now) f.now) forms.now) (members_in (view value.now)))
        (missing_in (map (λ f. map (λ k. k.now) f.now) forms.now) (members_in (view value.now)) (map (λ k. k.now) first.now))) }
{
    if let Some(key) = foreign_in(forms, value) {
        return Explanation::at_field(alloc, Fault::BadRequest, key, Rule::HasNoMore);
    }
    match missing_in(forms, value, first) {
        Some(key) => Explanation::at_field(alloc, Fault::BadRequest, key, Rule::HasAll),
        None => Ok(Explanation::of_whole(Rule::HasOneOf)),
    }
}
