// The members of a JSON object, whichever value it is.
ghost use Rattle.std.specs.Prelude.{◌≡◌, codes, option_map, option_and_then, map};
ghost use Rattle.std.specs.List.{list_all};
ghost use Rattle.std.specs.Result.{result_map_both};
ghost use Rattle.serde_json.specs.Find.{get_member, as_str};
ghost use Rattle.serde_json.specs.View.{view};
ghost use Rattle.wb_requests.specs.Explained.{members_in, is_there, is_form, text_in};

use crate::requests::fields::field_count;
use serde_json::Value;
use wb_edit::Refusal;

/// The member of a key.
#[tactic(auto, using(crate::proofs::Told::got))]
pub(crate) fn member<'a>(value: &'a Value, key: &str) -> Option<&'a Value>
    ensures { option_map (λ v. view v.now) result ≡ get_member key.now (members_in (view value.now)) }
{
    value.get(key)
}

/// The text of the member that names the op.
pub(crate) fn op_of(value: &Value) -> Option<&str>
    ensures { option_map (λ s. s.now) result ≡ option_and_then as_str (get_member (codes "op") (members_in (view value.now))) }
{
    member(value, "op").and_then(Value::as_str)
}

/// Whether a member of a key is there.
pub(crate) fn is_there(value: &Value, key: &str) -> bool
    ensures { result ≡ is_there (members_in (view value.now)) key.now }
{
    member(value, key).is_some()
}

// Whether a member of each key is there.
fn are_there(value: &Value, keys: &[&str]) -> bool
    ensures { result ≡ list_all (is_there (members_in (view value.now))) (map (λ k. k.now) keys.now) }
{
    for key in keys {
        if !is_there(value, key) {
            return false;
        }
    }
    true
}

/// Whether the members are those of the op and of these keys.
#[tactic(auto, using(crate::proofs::Told::counted_in))]
pub(crate) fn is_form(value: &Value, keys: &[&str]) -> bool
    ensures { result ≡ is_form (members_in (view value.now)) (map (λ k. k.now) keys.now) }
{
    if !are_there(value, keys) {
        return false;
    }
    field_count(value) == keys.len() + 1
}

/// The text that a value is.
pub(crate) fn text_of(value: &Value) -> Result<&str, Refusal>
    ensures { result_map_both (λ s. s.now) (λ e. e) result ≡ text_in (view value.now) }
{
    value.as_str().ok_or(Refusal::BadRequest)
}
