// The four edits, and one function for any of them given as a value.
#![tactic(auto)]

ghost use Rattle.std.specs.Prelude.{◌≡◌, OnErr};
ghost use Rattle.books.specs.Lent.{SameBook, tables_of};
ghost use Rattle.tables.specs.Lists.{edit_outcome, change_of};
ghost use Rattle.tables.specs.Calls.{leaves};
ghost use Rattle.tables.specs.Reply.{replied};

use books::Book;
pub use link_edits::{add_link, take_link};
pub use rule_edits::{add_rule, take_rule};
use tables::{Caller, Change, Refusal};

/// The caller's change is made on the book.
pub fn make(book: &mut Book, caller: Caller, change: Change) -> Result<u16, Refusal>
    ensures same { SameBook book.old book.new }
    ensures outcome { leaves (replied result) (tables_of book.new)
        ≡ edit_outcome book.old.n book.old.m (tables_of book.old) caller.0 (change_of change) }
    ensures refused { OnErr result (tables_of book.new ≡ tables_of book.old) }
{
    let n = book.n;
    let m = book.m;
    let links = &mut *book.links;
    let rules = &mut *book.rules;
    let entries = &mut *book.entries;
    let tally = &mut *book.tally;
    let disputes = &mut *book.disputes;
    match change {
        Change::AddRule(kind, mark, handling) => {
            add_rule(
                n, m, links, rules, entries, tally, disputes, caller, kind, mark, handling,
            )
        }
        Change::TakeRule(kind, mark) => take_rule(
            n, m, links, rules, entries, tally, disputes, caller, kind, mark,
        ),
        Change::AddLink(child, parent) => {
            add_link(
                n, m, links, rules, entries, tally, disputes, caller, child, parent,
            )
        }
        Change::TakeLink(child, parent) => {
            take_link(
                n, m, links, rules, entries, tally, disputes, caller, child, parent,
            )
        }
    }
}
