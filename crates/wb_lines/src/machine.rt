ghost use Rattle.std.specs.Prelude.{ℕ, List};

/// How a session ended, each with the number of lines that were answered whole.
#[derive(Clone, Copy, Debug, PartialEq, Eq)]
pub enum SessionEnd {
    /// The input ended, and every line was answered.
    Done(u64),
    /// A read failed. The line that was not finished is not answered.
    ReadFault(u64),
    /// The reader was read `READ_LIMIT` times. The line that was not finished is not answered.
    TooManyReads(u64),
    /// A write or a flush failed, or a write took nothing.
    WriteFault(u64),
    /// There was no memory for a line or for its reply.
    NoMemory(u64),
}

/// Why a turn of lines is not served whole. Only some turns can fail for another cause.
#[derive(Clone, Copy, Debug, PartialEq, Eq)]
pub enum Stop<E> {
    /// A write failed, or a write took nothing.
    WriteFault,
    /// There was no memory for a line or for its reply.
    NoMemory,
    /// What serves the turn failed.
    Other(E),
}

/// What may be answered to lines in states. It has no code: who serves lines hands in a function that answers so.
pub trait Machine<S> {
    // From a state a line may get a reply, which leads to a state.
    ghost answers: { S → List ℕ → List ℕ → S → Type 0 };
}

/// What a line may be read as, before it is answered in a state. It has no code either.
pub trait Asks<P> {
    ghost reads: { List ℕ → P → Type 0 };
}

/// What the text of a reply is, which is made after the line is answered. Nor has this.
pub trait Tells<Q> {
    ghost text: { Q → List ℕ };
}
