// Open: a book with no links and no rules.
ghost use Rattle.std.specs.Prelude.{◌≡◌, OnErr};
ghost use Rattle.books.specs.Lent.{SameBook, tables_of};
ghost use Rattle.tables.specs.Calls.{leaves, open_book};
ghost use Rattle.tables.specs.Reply.{replied};

use books::Book;
use tables::Refusal;

/// All five tables become 0.
pub fn open(book: &mut Book) -> Result<(), Refusal>
    ensures same { SameBook book.old book.new }
    ensures outcome { leaves (replied result) (tables_of book.new) ≡ open_book book.old.n book.old.m (tables_of book.old) }
    ensures refused { OnErr result (tables_of book.new ≡ tables_of book.old) }
{
    if !book.is_shaped() {
        return Err(Refusal::Shape);
    }
    let links = &mut *book.links;
    let rules = &mut *book.rules;
    let entries = &mut *book.entries;
    let tally = &mut *book.tally;
    let disputes = &mut *book.disputes;
    links.fill(0);
    rules.fill(0);
    entries.fill(0);
    tally.fill(0);
    disputes.fill(0);
    Ok(())
}
