// Return: the tables of a book become those that were saved under a name.
#![tactic(auto)]

ghost use Rattle.std.specs.Prelude.{◌≡◌, true, ◌<◌, OnErr};
ghost use Rattle.books.specs.Lent.{SameBook, tables_of};
ghost use Rattle.stores.specs.Lent.{store_read};
ghost use Rattle.stores.specs.Name.{names};
ghost use Rattle.stores.specs.Store.{state_at, return_to};
ghost use Rattle.tables.specs.Caller.{callers};
ghost use Rattle.tables.specs.Calls.{leaves};
ghost use Rattle.tables.specs.Reply.{replied};
ghost use Rattle.tables.specs.Tables.{shaped, tallied};
ghost use Rattle.replacing.specs.Replaced.{replaced};
ghost use Rattle.returning.specs.Copies.{CopiesLong};

use books::Book;
use replacing::replace;
use stores::{Name, Store, ask_state};
use tables::{Caller, Refusal};

// The new tables are the copies under a name.
fn bring_back(book: &mut Book, store: &Store, caller: Caller, name: Name) -> Result<u16, Refusal>
    requires shaped { shaped book.old.n book.old.m (tables_of book.old) ≡ true }
    requires caller { caller.0 < callers }
    requires copies { CopiesLong book.old.n book.old.m store.now.links.now store.now.rules.now store.now.entries.now store.now.disputes.now }
    requires name { name.0 < names }
    ensures same { SameBook book.old book.new }
    ensures outcome { leaves (replied result) (tables_of book.new)
        ≡ replaced book.old.n book.old.m (tables_of book.old) (state_at book.old.n book.old.m (store_read store.now) name.0 (tallied caller.0 book.old.tally.now)) }
    ensures refused { OnErr result (tables_of book.new ≡ tables_of book.old) }
{
    let number = usize::from(name.0);
    let kinds = usize::from(book.n);
    let marks = usize::from(book.m);
    let pairs = kinds * kinds;
    let places = kinds * marks;
    let link = number * pairs;
    let place = number * places;
    let mark = number * marks;
    replace(
        book,
        &store.links[link..link + pairs],
        &store.rules[place..place + places],
        &store.entries[place..place + places],
        &store.disputes[mark..mark + marks],
        caller,
    )
}

/// The state with a name comes back. How many entries differ from before.
pub fn return_to(book: &mut Book, store: &Store, caller: Caller, name: Name) -> Result<u16, Refusal>
    ensures same { SameBook book.old book.new }
    ensures outcome { leaves (replied result) (tables_of book.new)
        ≡ return_to book.old.n book.old.m (tables_of book.old) (store_read store.now) caller.0 name.0 }
    ensures refused { OnErr result (tables_of book.new ≡ tables_of book.old) }
{
    let stored = store.is_shaped(book.n, book.m);
    if !stored {
        return Err(Refusal::Shape);
    }
    let by = book.ask_caller(caller)?;
    let known = ask_state(store.flags, name)?;
    bring_back(book, store, by, known)
}
