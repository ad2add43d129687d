// The calls on a book, and one dispatcher for all of them: a call given as a value is carried out, and answered by a value.
#![tactic(auto)]

ghost use Rattle.std.specs.Prelude.{◌≡◌};
ghost use Rattle.books.specs.Lent.{SameBook, tables_of};
ghost use Rattle.tables.specs.Books.{answer_to, answered, gives, request_of};

use books::Book;
pub use disputing::parties;
use edits::make;
pub use edits::{add_link, add_rule, take_link, take_rule};
pub use finding::find;
pub use inspecting::inspect;
pub use lists::make_list;
pub use renewing::{open, refresh, refresh_tables};
pub use returning::return_to;
pub use saving::save;
use tables::{Answer, Request};

/// A request is carried out on the book. It is the step of the promise between two books.
pub fn carry_out(book: &mut Book, request: Request) -> Answer
    ensures same { SameBook book.old book.new }
    ensures outcome { gives (answered result) (tables_of book.new)
        ≡ answer_to book.old.n book.old.m (tables_of book.old) (request_of request) }
{
    match request {
        Request::Open => Answer::Opened(open(book)),
        Request::Edit(caller, change) => Answer::Edited(make(book, caller, change)),
        Request::Find(kind, mark) => Answer::Found(find(&book.read(), kind, mark)),
        Request::Parties(kind, mark) => Answer::Paired(parties(&book.read(), kind, mark)),
        Request::Inspect => Answer::Inspected(inspect(&book.read())),
        Request::Refresh => Answer::Edited(refresh(book)),
    }
}
