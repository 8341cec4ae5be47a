// The forms of each op: the keys of the members that a request of it has beside the op.
ghost use Rattle.std.specs.Prelude.{◌≡◌, map, IfOk};
ghost use Rattle.wb_requests.specs.Explained.{forms_of};
ghost use Rattle.wb_requests.specs.Wire.Faults.{forms};

use std::alloc::Global;
use wb_range::NoMemory;

type Form = (&'static str, &'static [&'static str]);

static FORMS: [Form; 45] = [
    ("domain", &["d", "is"]),
    ("domain", &["d", "is", "map"]),
    ("sparse", &["d", "of"]),
    ("assoc", &["d", "of"]),
    ("drop_domain", &["d"]),
    ("reshape", &["d", "to"]),
    ("reshape", &["d", "slice"]),
    ("reshape", &["d", "translate"]),
    ("reshape", &["d", "expand"]),
    ("reshape", &["d", "or"]),
    ("reshape", &["d", "and"]),
    ("reshape", &["d", "minus"]),
    ("reshape", &["d", "xor"]),
    ("add", &["d", "i"]),
    ("remove", &["d", "i"]),
    ("remap", &["d", "map"]),
    ("array", &["a", "d"]),
    ("drop_array", &["a"]),
    ("set", &["a", "i", "v"]),
    ("fill", &["a", "on", "v"]),
    ("fill_all", &["a", "v"]),
    ("irv", &["a", "v"]),
    ("copy", &["a", "i", "b", "j", "c"]),
    ("all", &["a", "how", "b"]),
    ("undo", &[]),
    ("undo", &["k"]),
    ("redo", &["k"]),
    ("get", &["a", "i"]),
    ("where", &["d", "i"]),
    ("size", &["d"]),
    ("piece", &["a", "l"]),
    ("state", &["k"]),
    ("print", &[]),
    ("history", &[]),
    ("history", &["from"]),
    ("reduce", &["a", "how"]),
    ("load", &["text"]),
    ("cascade", &["k"]),
    ("dependents", &["k"]),
    ("edits", &[]),
    ("put", &["a", "on", "vs"]),
    ("explain", &["line"]),
    ("note", &["k"]),
    ("transaction", &["edits"]),
    ("transaction", &["edits", "note"]),
];

fn all_forms() -> &'static [Form]
    ensures { map (λ f. (f.0.now, map (λ k. k.now) f.1.now)) result.now ≡ forms }
{
    &FORMS
}

// Those of these forms that are an op's.
fn forms_in(
    alloc: Global,
    op: &str,
    known: &'static [Form],
) -> Result<Vec<&'static [&'static str]>, NoMemory>
    ensures { IfOk result (λ v. map (λ f. map (λ k. k.now) f.now) v.items
        ≡ forms_of op.now (map (λ f. (f.0.now, map (λ k. k.now) f.1.now)) known.now)) }
{
    let mut found = Vec::new(alloc);
    for form in known {
        if form.0 == op {
            found.push(form.1)?;
        }
    }
    Ok(found)
}

/// The forms of an op, or `NoMemory`.
pub(crate) fn forms_of(alloc: Global, op: &str) -> Result<Vec<&'static [&'static str]>, NoMemory>
    ensures { IfOk result (λ v. map (λ f. map (λ k. k.now) f.now) v.items ≡ forms_of op.now forms) }
{
    forms_in(alloc, op, all_forms())
}
