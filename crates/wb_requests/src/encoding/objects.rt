// Objects of edits' requests by the members that they have.
ghost use Rattle.std.specs.Prelude.{◌≡◌, [], ◌∷◌, codes, IfOk, string_bytes};
ghost use Rattle.serde_json.specs.Data.{object, string, member, no_members};
ghost use Rattle.serde_json.specs.View.{view};
ghost use Rattle.wb_requests.specs.Encoding.Values.{integer_data, index_data};

use crate::encoding::literals::index_value;
use serde_json::{Value, json};
use std::alloc::{AllocError, Global};
use wb_cells::{AnyIndex, Name};

/// The members `d`, `is`, `map` and `op`.
pub(crate) fn new_domain(alloc: Global, d: &Name, is: &str, map: &str) -> Result<Value, AllocError>
    ensures { IfOk result (λ v. view v ≡ object (member (codes "d") (string d.now)
        (member (codes "is") (string is.now) (member (codes "map") (string map.now) (member (codes "op") (string (codes "domain")) no_members))))) }
{
    json!(in alloc; {"d": d.as_str(), "is": is, "map": map, "op": "domain"})
}

/// The members `d`, `map` and `op`.
pub(crate) fn remapped(alloc: Global, d: &Name, map: &str) -> Result<Value, AllocError>
    ensures { IfOk result (λ v. view v ≡ object (member (codes "d") (string d.now)
        (member (codes "map") (string map.now) (member (codes "op") (string (codes "remap")) no_members)))) }
{
    json!(in alloc; {"d": d.as_str(), "map": map, "op": "remap"})
}

/// The members `d`, `of` and `op`.
pub(crate) fn domain_of(alloc: Global, op: &str, d: &Name, of: &str) -> Result<Value, AllocError>
    ensures { IfOk result (λ v. view v ≡ object (member (codes "d") (string d.now)
        (member (codes "of") (string of.now) (member (codes "op") (string op.now) no_members)))) }
{
    json!(in alloc; {"d": d.as_str(), "of": of, "op": op})
}

/// The members `d` and `op`.
pub fn of_domain(alloc: Global, op: &str, d: &Name) -> Result<Value, AllocError>
    ensures { IfOk result (λ v. view v ≡ object (member (codes "d") (string d.now) (member (codes "op") (string op.now) no_members))) }
{
    json!(in alloc; {"d": d.as_str(), "op": op})
}

/// The members `d`, `i` and `op`.
pub fn index_of_domain(alloc: Global, op: &str, d: &Name, i: &AnyIndex) -> Result<Value, AllocError>
    ensures { IfOk result (λ v. view v ≡ object (member (codes "d") (string d.now)
        (member (codes "i") (index_data i.now) (member (codes "op") (string op.now) no_members)))) }
{
    let i = index_value(alloc, i)?;
    json!(in alloc; {"d": d.as_str(), "i": &i, "op": op})
}

/// The members `a`, `d` and `op`.
pub(crate) fn new_array(alloc: Global, a: &Name, d: &Name) -> Result<Value, AllocError>
    ensures { IfOk result (λ v. view v ≡ object (member (codes "a") (string a.now)
        (member (codes "d") (string d.now) (member (codes "op") (string (codes "array")) no_members)))) }
{
    json!(in alloc; {"a": a.as_str(), "d": d.as_str(), "op": "array"})
}

/// The members `a` and `op`.
pub(crate) fn of_array(alloc: Global, op: &str, a: &Name) -> Result<Value, AllocError>
    ensures { IfOk result (λ v. view v ≡ object (member (codes "a") (string a.now) (member (codes "op") (string op.now) no_members))) }
{
    json!(in alloc; {"a": a.as_str(), "op": op})
}

/// The members `a`, `i`, `op` and `v`.
pub(crate) fn new_element(
    alloc: Global,
    a: &Name,
    i: &AnyIndex,
    v: i64,
) -> Result<Value, AllocError>
    ensures { IfOk result (λ x. view x ≡ object (member (codes "a") (string a.now)
        (member (codes "i") (index_data i.now) (member (codes "op") (string (codes "set")) (member (codes "v") (integer_data v) no_members))))) }
{
    let i = index_value(alloc, i)?;
    json!(in alloc; {"a": a.as_str(), "i": &i, "op": "set", "v": v})
}

/// The members `a`, `on`, `op` and `v`.
pub(crate) fn filled(alloc: Global, a: &Name, on: &str, v: i64) -> Result<Value, AllocError>
    ensures { IfOk result (λ x. view x ≡ object (member (codes "a") (string a.now)
        (member (codes "on") (string on.now) (member (codes "op") (string (codes "fill")) (member (codes "v") (integer_data v) no_members))))) }
{
    json!(in alloc; {"a": a.as_str(), "on": on, "op": "fill", "v": v})
}

/// The members `a`, `on`, `op` and `vs`.
pub(crate) fn numbered(alloc: Global, a: &Name, on: &str, vs: &Value) -> Result<Value, AllocError>
    ensures { IfOk result (λ x. view x ≡ object (member (codes "a") (string a.now)
        (member (codes "on") (string on.now) (member (codes "op") (string (codes "put")) (member (codes "vs") (view vs.now) no_members))))) }
{
    json!(in alloc; {"a": a.as_str(), "on": on, "op": "put", "vs": vs})
}

/// The members `a`, `op` and `v`.
pub(crate) fn array_with(alloc: Global, op: &str, a: &Name, v: i64) -> Result<Value, AllocError>
    ensures { IfOk result (λ x. view x ≡ object (member (codes "a") (string a.now)
        (member (codes "op") (string op.now) (member (codes "v") (integer_data v) no_members)))) }
{
    json!(in alloc; {"a": a.as_str(), "op": op, "v": v})
}

/// The members `a`, `b`, `c`, `i`, `j` and `op`.
pub(crate) fn copied(
    alloc: Global,
    a: &Name,
    i: &AnyIndex,
    b: &Name,
    j: &AnyIndex,
    c: i64,
) -> Result<Value, AllocError>
    ensures { IfOk result (λ v. view v ≡ object (member (codes "a") (string a.now)
        (member (codes "b") (string b.now) (member (codes "c") (integer_data c)
        (member (codes "i") (index_data i.now) (member (codes "j") (index_data j.now) (member (codes "op") (string (codes "copy")) no_members))))))) }
{
    let i = index_value(alloc, i)?;
    let j = index_value(alloc, j)?;
    json!(in alloc; {"a": a.as_str(), "b": b.as_str(), "c": c, "i": &i, "j": &j, "op": "copy"})
}

/// The members `a`, `b`, `how` and `op`.
pub(crate) fn combined(alloc: Global, a: &Name, how: &str, b: &Name) -> Result<Value, AllocError>
    ensures { IfOk result (λ v. view v ≡ object (member (codes "a") (string a.now)
        (member (codes "b") (string b.now) (member (codes "how") (string how.now) (member (codes "op") (string (codes "all")) no_members))))) }
{
    json!(in alloc; {"a": a.as_str(), "b": b.as_str(), "how": how, "op": "all"})
}

/// The members `op` and `text`.
pub(crate) fn loaded(alloc: Global, text: &str) -> Result<Value, AllocError>
    ensures { IfOk result (λ v. view v ≡ object (member (codes "op") (string (codes "load")) (member (codes "text") (string text.now) no_members))) }
{
    json!(in alloc; {"op": "load", "text": text})
}

/// The members `d`, `op` and `or`.
pub(crate) fn united(alloc: Global, d: &Name, other: &str) -> Result<Value, AllocError>
    ensures { IfOk result (λ v. view v ≡ object (member (codes "d") (string d.now)
        (member (codes "op") (string (codes "reshape")) (member (codes "or") (string other.now) no_members)))) }
{
    json!(in alloc; {"d": d.as_str(), "op": "reshape", "or": other})
}

/// The members `and`, `d` and `op`.
pub(crate) fn intersected(alloc: Global, d: &Name, other: &str) -> Result<Value, AllocError>
    ensures { IfOk result (λ v. view v ≡ object (member (codes "and") (string other.now)
        (member (codes "d") (string d.now) (member (codes "op") (string (codes "reshape")) no_members)))) }
{
    json!(in alloc; {"and": other, "d": d.as_str(), "op": "reshape"})
}

/// The members `d`, `minus` and `op`.
pub(crate) fn diminished(alloc: Global, d: &Name, other: &str) -> Result<Value, AllocError>
    ensures { IfOk result (λ v. view v ≡ object (member (codes "d") (string d.now)
        (member (codes "minus") (string other.now) (member (codes "op") (string (codes "reshape")) no_members)))) }
{
    json!(in alloc; {"d": d.as_str(), "minus": other, "op": "reshape"})
}

/// The members `d`, `op` and `xor`.
pub(crate) fn exchanged(alloc: Global, d: &Name, other: &str) -> Result<Value, AllocError>
    ensures { IfOk result (λ v. view v ≡ object (member (codes "d") (string d.now)
        (member (codes "op") (string (codes "reshape")) (member (codes "xor") (string other.now) no_members)))) }
{
    json!(in alloc; {"d": d.as_str(), "op": "reshape", "xor": other})
}

/// The members `edits`, `note` and `op`.
pub(crate) fn noted(alloc: Global, edits: &Value, note: &str) -> Result<Value, AllocError>
    ensures { IfOk result (λ v. view v ≡ object (member (codes "edits") (view edits.now)
        (member (codes "note") (string note.now) (member (codes "op") (string (codes "transaction")) no_members)))) }
{
    json!(in alloc; {"edits": edits, "note": note, "op": "transaction"})
}

/// The members `edits` and `op`.
pub(crate) fn unnoted(alloc: Global, edits: &Value) -> Result<Value, AllocError>
    ensures { IfOk result (λ v. view v ≡ object (member (codes "edits") (view edits.now) (member (codes "op") (string (codes "transaction")) no_members))) }
{
    json!(in alloc; {"edits": edits, "op": "transaction"})
}
