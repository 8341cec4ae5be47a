// Objects of requests that are no edits by the members that they have.
ghost use Rattle.std.specs.Prelude.{◌≡◌, [], ◌∷◌, codes, IfOk, string_bytes};
ghost use Rattle.serde_json.specs.Data.{object, number, unsigned, string, member, no_members};
ghost use Rattle.serde_json.specs.View.{view};
ghost use Rattle.wb_requests.specs.Encoding.Values.{index_data};

use crate::encoding::index_value;
use serde_json::{Value, json};
use std::alloc::{AllocError, Global};
use wb_cells::{AnyIndex, Name};

/// The members `a`, `i` and `op`.
pub(crate) fn element(alloc: Global, a: &Name, i: &AnyIndex) -> Result<Value, AllocError>
    ensures { IfOk result (λ v. view v ≡ object (member (codes "a") (string a.now)
        (member (codes "i") (index_data i.now) (member (codes "op") (string (codes "get")) no_members)))) }
{
    let i = index_value(alloc, i)?;
    json!(in alloc; {"a": a.as_str(), "i": &i, "op": "get"})
}

/// The members `k` and `op`.
pub(crate) fn by_number(alloc: Global, op: &str, k: u64) -> Result<Value, AllocError>
    ensures { IfOk result (λ v. view v ≡ object (member (codes "k") (number (unsigned k)) (member (codes "op") (string op.now) no_members))) }
{
    json!(in alloc; {"k": k, "op": op})
}

/// The members `from` and `op`.
pub(crate) fn from_number(alloc: Global, from: u64) -> Result<Value, AllocError>
    ensures { IfOk result (λ v. view v ≡ object (member (codes "from") (number (unsigned from)) (member (codes "op") (string (codes "history")) no_members))) }
{
    json!(in alloc; {"from": from, "op": "history"})
}

/// The members `line` and `op`.
pub(crate) fn of_line(alloc: Global, line: &str) -> Result<Value, AllocError>
    ensures { IfOk result (λ v. view v ≡ object (member (codes "line") (string line.now) (member (codes "op") (string (codes "explain")) no_members))) }
{
    json!(in alloc; {"line": line, "op": "explain"})
}

/// The members `a`, `l` and `op`.
pub(crate) fn piece(alloc: Global, a: &Name, l: u64) -> Result<Value, AllocError>
    ensures { IfOk result (λ v. view v ≡ object (member (codes "a") (string a.now)
        (member (codes "l") (number (unsigned l)) (member (codes "op") (string (codes "piece")) no_members)))) }
{
    json!(in alloc; {"a": a.as_str(), "l": l, "op": "piece"})
}

/// The members `a`, `how` and `op`.
pub(crate) fn reduction(alloc: Global, a: &Name, how: &str) -> Result<Value, AllocError>
    ensures { IfOk result (λ v. view v ≡ object (member (codes "a") (string a.now)
        (member (codes "how") (string how.now) (member (codes "op") (string (codes "reduce")) no_members)))) }
{
    json!(in alloc; {"a": a.as_str(), "how": how, "op": "reduce"})
}

/// The member `op` alone.
pub(crate) fn plain(alloc: Global, op: &str) -> Result<Value, AllocError>
    ensures { IfOk result (λ v. view v ≡ object (member (codes "op") (string op.now) no_members)) }
{
    json!(in alloc; {"op": op})
}
