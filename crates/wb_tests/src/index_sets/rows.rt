//! Rows of calls with their answers, which one function plays: a row costs the prover nothing, a line of code does.

use std::alloc::Global;
use std::fmt::Debug;
use std::process::Abort;
use std::str::{FromStr, SplitWhitespace};
use std::test::Fail;
use wb_range::{Domain, Key, NoMemory, listed};

/// The words of a row that aren't read yet, and whether one of those that are read was no number.
#[derive(Drop)]
pub struct Words<'a> {
    words: SplitWhitespace<'a>,
    is_bad: bool,
}

impl<'a> Words<'a> {
    /// All words of a text.
    pub fn of(text: &'a str) -> Words<'a> {
        Words {
            words: text.split_whitespace(),
            is_bad: false,
        }
    }

    /// The next word, which is empty at the end.
    pub fn word(&mut self) -> &'a str {
        self.words.next().unwrap_or("")
    }

    /// The next word as a number; where it is none, the row is bad.
    pub fn number<N: FromStr + Default>(&mut self) -> N
    where
        N::Err: Drop,
    {
        match self.word().parse() {
            Ok(number) => number,
            Err(_) => {
                self.is_bad = true;
                N::default()
            }
        }
    }

    /// The next words as an index.
    pub fn index<const R: usize>(&mut self) -> [i64; R] {
        let mut index = [0; R];
        for p in 0..R {
            index[p] = self.number();
        }
        index
    }

    /// The next words as so many indices.
    pub fn indices<const R: usize>(&mut self, alloc: Global) -> Result<Vec<[i64; R]>, NoMemory> {
        let mut indices = Vec::new(alloc);
        for _ in 0..self.number::<u32>() {
            if indices.push(self.index()).is_err() {
                return Err(NoMemory);
            }
        }
        Ok(indices)
    }

    /// Makes the row bad, as its words mean nothing.
    pub fn refuse(&mut self) {
        self.is_bad = true;
    }

    // Whether all were read as they were to be.
    fn are_read(mut self) -> bool {
        self.words.next().is_none() && !self.is_bad
    }
}

/// What answers the calls of a table.
pub trait Subject {
    /// What the call answers over the words that follow it in its row.
    fn answer(&mut self, alloc: Global, call: &str, words: &mut Words<'_>) -> Result<String, Fail>;
}

/// That each row's call answers what stands behind its ` -> `, and that it reads the whole row.
pub fn play<S: Subject>(
    rt: &impl Abort,
    alloc: Global,
    subject: &mut S,
    rows: &str,
) -> Result<(), Fail> {
    for row in rows.trim().lines() {
        let (line, wanted) = row.split_once(" -> ").ok_or("an arrow")?;
        let mut words = Words::of(line);
        let call = words.word();
        let answer = subject.answer(alloc, call, &mut words)?;
        assert!(rt;
            answer.as_str() == wanted && words.are_read(),
            "{line} -> {answer}"
        );
    }
    Ok(())
}

/// The value as `{:?}` prints it.
pub fn shown<T: Debug>(alloc: Global, value: &T) -> Result<String, Fail> {
    Ok(format!(in alloc; "{value:?}")?)
}

/// That there is no such call.
pub fn unknown() -> Result<String, Fail> {
    Err(Fail::new("no such call"))
}

/// The place of an index, and whether it is one.
pub fn place<I: Key, D: Domain<Index = I>>(
    alloc: Global,
    domain: &D,
    i: I,
) -> Result<String, Fail> {
    shown(alloc, &(domain.place_of(i), domain.contains(i)))
}

/// The indices of a domain, place by place, where each has its place and there are no more.
pub fn runs<I: Key + Debug, D: Domain<Index = I>>(
    alloc: Global,
    domain: &D,
) -> Result<String, Fail> {
    let all = listed(alloc, domain)?;
    for (p, i) in all.iter().enumerate() {
        if domain.nth(p) != Some(*i) || domain.place_of(*i) != Some(p) || !domain.contains(*i) {
            return shown(alloc, i);
        }
    }
    if domain.nth(all.len()).is_some() || domain.size() != all.len() {
        return shown(alloc, &domain.size());
    }
    shown(alloc, &all.as_slice())
}
