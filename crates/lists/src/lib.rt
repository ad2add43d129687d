// A list of edits in one call. What is done before the first edit, and for each record, stands in `listing`.
#![tactic(auto)]

mod listing;

ghost use Rattle.std.specs.Prelude.{◌≡◌, OnErr};
ghost use Rattle.books.specs.Lent.{SameBook, tables_of};
ghost use Rattle.tables.specs.Calls.{leaves};
ghost use Rattle.tables.specs.Lists.{make_list};
ghost use Rattle.tables.specs.Reply.{replied_as, listing_of};

use crate::listing::{begin, step};
use books::Book;
pub use listing::MOST_RECORDS;
use ruling::Prepared;
use tables::{Caller, Edit, Listing, Refusal};

/// The edits in order, all by one caller, up to the first that is refused. Soundness is tested once, before the first.
pub fn make_list(book: &mut Book, caller: Caller, edits: &[Edit]) -> Result<Listing, Refusal>
    ensures same { SameBook book.old book.new }
    ensures outcome { leaves (replied_as listing_of result) (tables_of book.new)
        ≡ make_list book.old.n book.old.m (tables_of book.old) caller.0 edits.now }
    ensures refused { OnErr result (tables_of book.new ≡ tables_of book.old) }
{
    let mut prepared = Prepared::empty();
    let mut listing = begin(book, &mut prepared, edits.len(), caller)?;
    for edit in edits {
        listing = step(book, &mut prepared, listing, *edit, caller);
        if listing.stopped.is_some() {
            return Ok(listing);
        }
    }
    Ok(listing)
}
