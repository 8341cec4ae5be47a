//! A count up to 200. The line `up` adds one, `twice` two, and any other asks for it.
ghost use Rattle.std.specs.Prelude.{◌≡◌, ◌++◌, ◌+◌, ◌<◌, ℕ, List, [], ◌∷◌, IfOk, OnOk, true, false};
ghost use Rattle.wb_kept_tests.specs.Tallies.{Grants, Answers, up, leads_to, one_state};

use std::alloc::{AllocError, Global};
use wb_kept::{Changes, Machine};

const UP: &[u8] = b"up";

const MOST: u8 = 200;

/// The machine.
pub struct Tally;

impl Machine<u8> for Tally {
    ghost start = { 0 };

    ghost grants = { Grants };

    ghost answers = { Answers };

    ghost leads = { leads_to };

    ghost one = { one_state };
}

/// Makes a change again.
pub fn make(state: &mut u8, change: &[u8]) -> Result<bool, AllocError>
    ensures granted { IfOk result (λ is. is ≡ true → Grants state.old change.now state.new) }
    ensures refused { IfOk result (λ is. is ≡ false → (next : ℕ) → Grants state.old change.now next → ⊥) }
{
    if change != UP || *state >= MOST {
        return Ok(false);
    }
    *state += 1;
    Ok(true)
}

/// Adds one, and the change that says so.
fn add_one(state: &mut u8, changes: &mut Changes) -> Result<(), AllocError>
    requires { state.old < 200 }
    ensures { OnOk result ((state.new ≡ state.old + 1) × (changes.new ≡ changes.old ++ up ∷ [])) }
{
    *state += 1;
    changes.push(UP)
}

/// Answers a line.
pub fn answer(
    alloc: Global,
    state: &mut u8,
    line: &[u8],
    changes: &mut Changes,
) -> Result<Vec<u8>, AllocError>
    ensures { IfOk result (λ reply. (made : List (List ℕ)) × Answers state.old line.now reply.items made state.new
        × (changes.new ≡ changes.old ++ made)) }
{
    if line == UP && *state < MOST {
        add_one(state, changes)?;
        return Vec::from_slice(alloc, b"ok");
    }
    if line == b"twice".as_slice() && *state < MOST - 1 {
        add_one(state, changes)?;
        add_one(state, changes)?;
        return Vec::from_slice(alloc, b"ok");
    }
    Vec::from_slice(alloc, &[b'a' + *state % 26])
}
