//! The book of all turns: a list that only clauses read, and beginnings of it that were seen.
ghost use Rattle.std.specs.Prelude.{◌≡◌, ◌+◌, ◌<◌, ◌≤◌, ◌++◌, [], ◌∷◌, length, MatchBool};
ghost use mathlib.Core.List.{IsPrefix};
ghost use Rattle.wb_kept_group.specs.Group.Books.{word_of};

use logbook::{Gain, Offer, Plain, Play, Rule, Seen, Start, Word};
use std::marker::{Brand, Model, PhantomData};
use std::sync::ledger::Ledger;

/// Which group of threads it is: its book, and its ledger. Each call of a program picks it.
pub trait Group: Ledger {
    ghost use Rattle.std.specs.Prelude.{ℕ};
    ghost use Rattle.logbook.specs.Pages.{Book};

    /// Its book.
    ghost book: { Book };

    /// All parts of its ledger.
    ghost all: { ℕ };
}

/// Whoever opens a book picks both.
impl Group for Brand {
    ghost book = { record { number = 0; log_name = 0; cells_name = 0 } };

    ghost all = { 1 };
}

/// The rule of the book: its word is the number of turns.
pub struct Counted;

impl<C> Rule<C, u64> for Counted {
    ghost use Rattle.std.specs.Prelude.{[]};
    ghost use base.Fml.{ftrue};
    ghost use Rattle.wb_kept_group.specs.Group.Books.{IsCounted};

    ghost holds = { λ cells turns. IsCounted cells turns };

    ghost first = { [] };

    ghost hinted = { λ n turns. Unit {0} };

    ghost shows = { λ turns. [] };

    ghost keeps = { λ names turns. ftrue };

    ghost moves = { λ ask before after answer. Unit {0} };
}

/// Threads trade nothing in the book.
pub struct Nothing;

impl<C> Gain<C, u64> for Nothing {
    ghost use base.Fml.{ftrue};

    ghost after = { λ names about answer. ftrue };
}

/// A step that adds a turn.
pub struct Adds;

impl<C> Play<C, u64> for Adds {
    ghost use Rattle.wb_kept_group.specs.Group.Books.{IsAdded};

    ghost then = { IsAdded };
}

impl<C> Plain<C, C, u64> for Adds {
    ghost use Rattle.std.specs.Prelude.{None};

    ghost ask = { λ turn. turn };

    ghost state = { λ turn. None };
}

/// The word of a book: how many turns it has.
#[derive(Drop)]
pub struct Count<G: Group, C> {
    word: Word<C, u64, Counted>,
    of: PhantomData<G>,
    ghost named: { word ≡ word_of G.book },
}

/// A beginning of the book that was seen. Contracts see it as its turns.
#[derive(Drop)]
pub struct Front<G: Group, C> {
    count: u64,
    seen: Seen<C, u64, Counted>,
    of: PhantomData<G>,
}

impl<G: Group, C> Model for Front<G, C> {
    ghost use Rattle.std.specs.Prelude.{◌≡◌, List, length};

    ghost Value = { List C };

    ghost view = { λ f. f.seen.log };

    ghost invariant = { λ f. (f.count ≡ length f.seen.log) × (f.seen.book ≡ G.book) };
}

/// A book without a turn, which no type stands for yet.
#[derive(Drop)]
pub struct Opened<C> {
    word: Word<C, u64, Counted>,
    seen: Seen<C, u64, Counted>,
    pub ghost empty: { seen.log ≡ [] },
    pub ghost named: { word ≡ word_of seen.book },
}

impl<C> Opened<C> {
    /// A new book.
    pub fn new() -> Opened<C> {
        let (seen, mut first, _second) = Seen::open(Start::alone(), 0, 0);
        Opened {
            word: Word::tracked(0, &mut first),
            seen,
        }
    }

    /// The word of the book, and the beginning that has no turn.
    pub(crate) fn of<G: Group>(self) -> (Count<G, C>, Front<G, C>)
        requires { self.seen.book ≡ G.book }
        ensures { result.1 ≡ [] }
    {
        let Opened { word, seen } = self;
        (
            Count {
                word,
                of: PhantomData,
            },
            Front {
                count: 0,
                seen,
                of: PhantomData,
            },
        )
    }
}

impl<G: Group, C> Front<G, C> {
    /// How many turns the beginning has.
    pub fn len(&self) -> u64
        ensures { result ≡ length self.now }
    {
        self.count
    }

    /// A copy of the beginning.
    pub fn again(&self) -> Front<G, C>
        ensures { result ≡ self.now }
    {
        Front {
            count: self.count,
            seen: self.seen.again(),
            of: PhantomData,
        }
    }

    /// Whether the other has all its turns. Of two beginnings of one book, one has all turns of the other.
    pub fn is_within(&self, other: &Front<G, C>) -> bool
        ensures { MatchBool result (IsPrefix self.now other.now) (length other.now < length self.now) }
    {
        let mut both = self.seen.again();
        both.learn(&other.seen);
        self.count <= other.count
    }

    /// Two beginnings of one length are the same.
    pub(crate) fn agrees(&self, other: &Front<G, C>)
        requires { length self.now ≡ length other.now }
        ensures { self.now ≡ other.now }
    {
        let mut both = self.seen.again();
        both.learn(&other.seen);
    }

    /// Adds a turn, and says whether it did. It did not where the book has other turns behind these, or no room.
    pub(crate) fn add(&mut self, count: &Count<G, C>, turn: &C) -> bool
        ensures { MatchBool result (self.new ≡ self.old ++ turn.now ∷ []) (IsPrefix self.old self.new) }
    {
        let old = self.count;
        let Some(new) = old.checked_add(1) else {
            return false;
        };
        let mut offer: Offer<C, u64, Counted, Nothing> = self.seen.plain::<Nothing, C, Adds>(turn);
        let mut pen = self.seen.no_pen();
        let mut seen = self.seen.again();
        let found = count
            .word
            .compare_exchange::<Adds, Nothing>(old, new, &mut seen, &mut offer, &mut pen);
        if found != old {
            return false;
        }
        self.seen = seen;
        self.count = new;
        true
    }
}
