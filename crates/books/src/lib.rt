// A book as a call is lent it: its size and its five tables in one value, to read or to write. It holds any numbers, and tables of any
// length: a call tests itself what it needs of them, refusal 1 first.
#![tactic(auto)]

mod asking;
mod shape;

ghost use Rattle.std.specs.Prelude.{◌≡◌};
ghost use Rattle.tables.specs.Tables.{shaped};
ghost use Rattle.books.specs.Ask.{checked, checked_caller};
ghost use Rattle.books.specs.Lent.{tables_of, tables_read};

use crate::shape::shape;
pub use asking::{ask_at, ask_link, ask_rule};
use inheritance::{Kind, Mark};
pub use shape::shape_bytes;
use tables::{Caller, Refusal};

/// What a call that reads is lent: the tables of a book of n kinds and m marks.
#[derive(Clone, Copy)]
pub struct Tables<'a> {
    pub n: u16,
    pub m: u16,
    pub links: &'a [u8],
    pub rules: &'a [u16],
    pub entries: &'a [u16],
    pub tally: &'a [u32],
    pub disputes: &'a [u16],
}

/// What a call that writes is lent.
#[derive(Drop)]
pub struct Book<'a> {
    pub n: u16,
    pub m: u16,
    pub links: &'a mut [u8],
    pub rules: &'a mut [u16],
    pub entries: &'a mut [u16],
    pub tally: &'a mut [u32],
    pub disputes: &'a mut [u16],
}

impl Tables<'_> {
    /// Whether n and m are in their ranges and the tables have exactly the lengths of such a book: else refusal 1.
    pub fn is_shaped(&self) -> bool
        ensures { result ≡ shaped self.now.n self.now.m (tables_read self.now) }
    {
        shape(
            self.n,
            self.m,
            self.links,
            self.rules,
            self.entries,
            self.tally,
            self.disputes,
        )
    }

    /// A kind and a mark of the book after refusals 1, 2 and 3.
    pub fn ask_place(&self, kind: Kind, mark: Mark) -> Result<(Kind, Mark), Refusal>
        ensures { result ≡ checked self.now.n self.now.m (tables_read self.now) kind.0 mark.0 }
    {
        if self.is_shaped() {
            ask_at(self.n, self.m, kind, mark)
        } else {
            Err(Refusal::Shape)
        }
    }

    /// The caller of an edit after refusals 1 and 13, in this order, with which every edit begins.
    pub fn ask_caller(&self, caller: Caller) -> Result<Caller, Refusal>
        ensures { result ≡ checked_caller self.now.n self.now.m (tables_read self.now) caller.0 }
    {
        if !self.is_shaped() {
            return Err(Refusal::Shape);
        }
        Caller::new(caller.0).ok_or(Refusal::Caller)
    }
}

impl Book<'_> {
    /// Its tables, to read.
    pub fn read<'s>(&'s self) -> Tables<'s>
        ensures n { result.n ≡ self.now.n }
        ensures m { result.m ≡ self.now.m }
        ensures tables { tables_read result ≡ tables_of self.now }
    {
        Tables {
            n: self.n,
            m: self.m,
            links: self.links,
            rules: self.rules,
            entries: self.entries,
            tally: self.tally,
            disputes: self.disputes,
        }
    }

    /// Refusal 1, as of its tables.
    pub fn is_shaped(&self) -> bool
        ensures { result ≡ shaped self.now.n self.now.m (tables_of self.now) }
    {
        self.read().is_shaped()
    }

    /// The caller of an edit after refusals 1 and 13, as of its tables.
    pub fn ask_caller(&self, caller: Caller) -> Result<Caller, Refusal>
        ensures { result ≡ checked_caller self.now.n self.now.m (tables_of self.now) caller.0 }
    {
        self.read().ask_caller(caller)
    }
}
