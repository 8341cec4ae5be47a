//! A list of calls that only clauses read.
ghost use Rattle.std.specs.Prelude.{◌≡◌, List, [], ◌∷◌};
ghost use Rattle.wb_keep.specs.Disk.Calls.{written, cut_to, synced, held, made, made_durable, named, folder_synced};

use boxcar::tag::{Names, Tag};
use std::marker::Model;

/// The calls that a file has had, the newest first. It takes no memory, and its methods do nothing when they run.
#[derive(Drop)]
pub struct Record {
    tag: Tag,
}

impl Model for Record {
    ghost use Rattle.std.specs.Prelude.{List, ℕ, Bool};
    ghost use Rattle.wb_keep.specs.Disk.Noted.{calls_in};

    ghost Value = { List (ℕ × ℕ × Bool × List ℕ) };

    ghost view = { λ r. calls_in r.tag.numbers };
}

/// A call, beside the record of those before it.
#[derive(Clone, Copy)]
struct Noted<'a> {
    kind: u64,
    at: usize,
    is_done: bool,
    bytes: &'a [u8],
    earlier: &'a Tag,
}

/// A call in front of those before it.
struct InFront;

impl Names<Noted<'_>> for InFront {
    ghost use Rattle.wb_keep.specs.Disk.Noted.{noted};

    ghost numbers = { λ n. noted (n.kind, n.at, n.is_done, n.bytes.now) n.earlier.now.numbers };
}

impl Record {
    /// No call yet but the opening, which found these bytes on the disk.
    pub(crate) fn opened(bytes: &[u8]) -> Record
        ensures { result ≡ held bytes.now ∷ [] }
    {
        let mut calls = Record { tag: Tag::empty() };
        calls.note(3, 0, true, bytes);
        calls
    }

    /// A write of these bytes at this offset.
    pub(crate) fn write(&mut self, at: usize, bytes: &[u8], is_done: bool)
        ensures { self.new ≡ written at bytes.now is_done ∷ self.old }
    {
        self.note(0, at, is_done, bytes)
    }

    /// A cut to this length.
    pub(crate) fn cut(&mut self, len: usize, is_done: bool)
        ensures { self.new ≡ cut_to len is_done ∷ self.old }
    {
        self.note(1, len, is_done, &[])
    }

    /// A sync.
    pub(crate) fn sync(&mut self, is_done: bool)
        ensures { self.new ≡ synced is_done ∷ self.old }
    {
        self.note(2, 0, is_done, &[])
    }

    /// A new file with these bytes, made beside this one.
    pub(crate) fn make(&mut self, bytes: &[u8], is_done: bool)
        ensures { self.new ≡ made bytes.now is_done ∷ self.old }
    {
        self.note(4, 0, is_done, bytes)
    }

    /// A sync of the new file.
    pub(crate) fn sync_new(&mut self, is_done: bool)
        ensures { self.new ≡ made_durable is_done ∷ self.old }
    {
        self.note(5, 0, is_done, &[])
    }

    /// The new file, given the name of this one.
    pub(crate) fn name(&mut self, is_done: bool)
        ensures { self.new ≡ named is_done ∷ self.old }
    {
        self.note(6, 0, is_done, &[])
    }

    /// A sync of the folder.
    pub(crate) fn sync_folder(&mut self, is_done: bool)
        ensures { self.new ≡ folder_synced is_done ∷ self.old }
    {
        self.note(7, 0, is_done, &[])
    }

    fn note(&mut self, kind: u64, at: usize, is_done: bool, bytes: &[u8])
        ensures { self.new ≡ (kind, at, is_done, bytes.now) ∷ self.old }
    {
        let tag = Tag::of::<Noted<'_>, InFront>(&Noted {
            kind,
            at,
            is_done,
            bytes,
            earlier: &self.tag,
        });
        self.tag = tag;
    }
}
