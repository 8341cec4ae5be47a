//! What is said of a machine whose changes are kept.
ghost use Rattle.std.specs.Prelude.{◌≡◌, ℕ, List};
ghost use Rattle.wb_kept.specs.Runs.{Leads};

/// A machine of states that lines change. It has no code: who opens a file hands in a function that makes a change again
/// (`GrantsBy`), and who serves lines one that answers a line (`AnswersBy`).
pub trait Machine<S> {
    /// The state before any change.
    ghost start: { S };

    /// From a state, a change that is granted leads to a state.
    ghost grants: { S → List ℕ → S → Type 0 };

    /// From a state, a line may get a reply, and make changes, which leads to a state.
    ghost answers: { S → List ℕ → List ℕ → List (List ℕ) → S → Type 0 };

    /// The changes that an answer made, granted again one after the other, lead where it led.
    ghost leads: { (s : S) (line reply : List ℕ) (made : List (List ℕ)) (t : S) → answers s line reply made t → Leads grants s made t };

    /// A change leads to one state.
    ghost one: { (s : S) (change : List ℕ) (t u : S) → grants s change t → grants s change u → t ≡ u };
}
