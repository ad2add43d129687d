// Any of the four edits, given as a value, on tables that are known to be sound.
// A `Size` is made by `as`: its numbers have to be known by computation, and `from` is a call.
#![tactic(auto)]

ghost use Rattle.std.specs.Prelude.{◌≡◌, ◌<◌};
ghost use Rattle.books.specs.Lent.{SameBook, tables_of};
ghost use Rattle.resettling.specs.Known.{Known};
ghost use Rattle.tables.specs.Caller.{callers};
ghost use Rattle.tables.specs.Calls.{leaves};
ghost use Rattle.tables.specs.Lists.{edit_outcome, change_of};
ghost use Rattle.tables.specs.Reply.{replied};
ghost use Rattle.known_edits.specs.ChangeAsked.{asked_change};

use books::{Book, ask_link, ask_rule};
use inheritance::{Kind, Mark};
use relinking::set_link;
use reruling::set_rule;
use ruling::Prepared;
use tables::{Caller, Change, Refusal, Size};

/// What a change sets in the book that it is put to: the rule of a kind for a mark, where 0 takes it, or the link between a child and
/// a parent, which is added or taken.
#[derive(Clone, Copy, Debug, PartialEq, Eq)]
pub enum Assignment {
    Rule(Kind, Mark, u16),
    Link(Kind, Kind, bool),
}

// What a change sets, after its refusals 2, 3 and 4, each where its edit has it.
fn ask_change(n: u16, m: u16, change: Change) -> Result<Assignment, Refusal>
    ensures { result ≡ asked_change n m change }
{
    match change {
        Change::AddRule(kind, mark, handling) => {
            let (kind, mark) = ask_rule(n, m, kind, mark, Some(handling))?;
            Ok(Assignment::Rule(kind, mark, handling))
        }
        Change::TakeRule(kind, mark) => {
            let (kind, mark) = ask_rule(n, m, kind, mark, None)?;
            Ok(Assignment::Rule(kind, mark, 0))
        }
        Change::AddLink(child, parent) => {
            let (child, parent) = ask_link(n, child, parent)?;
            Ok(Assignment::Link(child, parent, true))
        }
        Change::TakeLink(child, parent) => {
            let (child, parent) = ask_link(n, child, parent)?;
            Ok(Assignment::Link(child, parent, false))
        }
    }
}

/// The caller's change is made on a book that is known to be sound, which stays so, with what is prepared for it.
pub fn make_known(
    book: &mut Book,
    prepared: &mut Prepared,
    caller: Caller,
    change: Change,
) -> Result<u16, Refusal>
    requires known { Known book.old.n book.old.m (tables_of book.old) prepared.old }
    requires caller { caller.0 < callers }
    ensures same { SameBook book.old book.new }
    ensures outcome { leaves (replied result) (tables_of book.new) ≡ edit_outcome book.old.n book.old.m (tables_of book.old) caller.0 (change_of change) }
    ensures known { Known book.old.n book.old.m (tables_of book.new) prepared.new }
{
    let assignment = ask_change(book.n, book.m, change)?;
    let size = Size {
        n: book.n as usize,
        m: book.m as usize,
    };
    let links = &mut *book.links;
    let rules = &mut *book.rules;
    let entries = &mut *book.entries;
    let tally = &mut *book.tally;
    let disputes = &mut *book.disputes;
    match assignment {
        Assignment::Rule(kind, mark, handling) => set_rule(
            prepared, size, links, rules, entries, tally, disputes, caller, kind, mark, handling,
        ),
        Assignment::Link(child, parent, adding) => set_link(
            prepared, size, links, rules, entries, tally, disputes, caller, child, parent, adding,
        ),
    }
}
