// Callers, refusals, calls as values and what they answer, and the places of the tables.
#![tactic(auto)]

mod size;

ghost use Rattle.std.specs.Prelude.{◌≡◌, ◌+◌, ◌*◌};
ghost use Rattle.tables.specs.Caller.{caller_below};
ghost use Rattle.tables.specs.Lists.{Recorded};
ghost use Rattle.tables.specs.Reply.{Numbered};

use inheritance::{Kind, Mark};
pub use size::{Marks, Size};

/// Who enters an edit: each caller has a number of the tally.
#[derive(Clone, Copy, Debug, PartialEq, Eq, PartialOrd, Ord, Hash)]
pub struct Caller(pub u16);

/// Why a call is refused, by its number. docs/SCOPE.md has the condition of each.
#[derive(Clone, Copy, Debug, PartialEq, Eq)]
pub enum Refusal {
    Shape = 1,
    Kind = 2,
    Mark = 3,
    Handling = 4,
    Unsound = 5,
    NoRule = 6,
    Linked = 7,
    NotLinked = 8,
    Cycle = 9,
    BadEntry = 10,
    NoDispute = 11,
    BadForm = 12,
    Caller = 13,
    Name = 14,
    Unsaved = 15,
    NoEdit = 19,
}

/// What find gives: none, a kind with its handling number, or a dispute at a kind.
#[derive(Clone, Copy, Debug, PartialEq, Eq)]
pub enum Found {
    None,
    Rule(Kind, u16),
    Dispute(Kind),
}

/// The first fault that inspect gives. Bytes and entries are named by their places, a dispute count by its mark.
#[derive(Clone, Copy, Debug, PartialEq, Eq)]
pub enum Fault {
    LinkByte(u16),
    AboveItself(Kind),
    WrongEntry(u16),
    WrongCount(Mark),
}

/// What a list of edits gives: how many were accepted and the sum of their counts, of the whole list or up to the edit that is
/// refused. A sum of 4,096 counts of at most 8,192 each has 26 bits.
#[derive(Clone, Copy, Debug, PartialEq, Eq)]
pub struct Listing {
    pub accepted: u16,
    pub changed: u32,
    pub stopped: Option<Refusal>,
}

/// One of the four edits, with any arguments.
#[derive(Clone, Copy, Debug, PartialEq, Eq)]
pub enum Change {
    AddRule(Kind, Mark, u16),
    TakeRule(Kind, Mark),
    AddLink(Kind, Kind),
    TakeLink(Kind, Kind),
}

/// An edit as a record of a list, with any numbers. What it is: 1 to add a rule, 2 to take one, 3 to add a link, 4 to take one. The
/// kind is that of the rule, or the child; the other is the mark, or the parent. Only an added rule has a handling. These are numbers,
/// and not a `Change`, since C hands them over.
#[repr(C)]
#[derive(Clone, Copy, Debug, PartialEq, Eq)]
pub struct Edit {
    pub what: u16,
    pub kind: u16,
    pub other: u16,
    pub handling: u16,
}

/// What is asked of a book by a value: one of the nine calls that lend no list, with any arguments. An edit names its caller.
#[derive(Clone, Copy, Debug, PartialEq, Eq)]
pub enum Request {
    Open,
    Edit(Caller, Change),
    Find(Kind, Mark),
    Parties(Kind, Mark),
    Inspect,
    Refresh,
}

/// A call as a value: the size of the book that it is put to, and what is asked.
#[derive(Clone, Copy, Debug, PartialEq, Eq)]
pub struct Call {
    pub n: u16,
    pub m: u16,
    pub request: Request,
}

/// What a call answers, of whichever kind it is.
#[derive(Clone, Copy, Debug, PartialEq, Eq)]
pub enum Answer {
    Opened(Result<(), Refusal>),
    Edited(Result<u16, Refusal>),
    Found(Result<Found, Refusal>),
    Paired(Result<(Kind, Kind), Refusal>),
    Inspected(Result<Option<Fault>, Refusal>),
}

impl Caller {
    /// The most callers that a book has.
    pub const MOST: u16 = 16;

    /// The caller with this number, if there is one.
    // One constructor for all such types would give a number that may be any of them.
    pub fn new(number: u16) -> Option<Caller>
        ensures { result ≡ caller_below number }
    {
        (number < Caller::MOST).then_some(Caller(number))
    }
}

impl From<Refusal> for u8 {
    ghost from_gives = { Numbered };

    // Its number: the one cast of an enum.
    fn from(why: Refusal) -> u8 {
        why as u8
    }
}

impl TryFrom<Edit> for Change {
    type Error = Refusal;

    ghost try_from_gives = { Recorded };

    /// The change that a record stands for; refusal 19 where it stands for none.
    fn try_from(edit: Edit) -> Result<Self, Refusal> {
        let kind = Kind(edit.kind);
        let other = edit.other;
        match edit.what {
            1 => Ok(Change::AddRule(kind, Mark(other), edit.handling)),
            2 => Ok(Change::TakeRule(kind, Mark(other))),
            3 => Ok(Change::AddLink(kind, Kind(other))),
            4 => Ok(Change::TakeLink(kind, Kind(other))),
            _ => Err(Refusal::NoEdit),
        }
    }
}

/// How many numbers the tally has: one for each caller.
// A cast, since `from` is called and is no constant.
pub const TALLIES: usize = Caller::MOST as usize;

// The place of a column in a row of a table, whose rows are so wide.
fn in_row(row: u16, width: u16, column: u16) -> usize
    ensures { result ≡ row * width + column }
{
    usize::from(row) * usize::from(width) + usize::from(column)
}

/// Where rules and entries hold what they say of a kind and a mark.
pub fn place(kind: Kind, mark: Mark, m: u16) -> usize
    ensures { result ≡ kind.0 * m + mark.0 }
{
    in_row(kind.0, m, mark.0)
}

/// Where links hold what they say of a child and a parent.
// Apart from `place`, so that a kind is not taken for a mark: what both do is `in_row`.
pub fn link_place(child: Kind, parent: Kind, n: u16) -> usize
    ensures { result ≡ child.0 * n + parent.0 }
{
    in_row(child.0, n, parent.0)
}
