// The edits of a list one by one: the checks before the first, and each edit on tables that the list knows to be sound.
// A `Size` is made by `as`: its numbers have to be known by computation, and `from` is a call.
ghost use Rattle.std.specs.Prelude.{◌≡◌, ◌+◌, ◌<◌, ◌≤◌, IfOk, IfNone};
ghost use Rattle.books.specs.Lent.{SameBook, tables_of};
ghost use Rattle.relation.specs.Bit.{Blank};
ghost use Rattle.resettling.specs.Known.{Known};
ghost use Rattle.tables.specs.Caller.{callers};
ghost use Rattle.tables.specs.Calls.{leaves};
ghost use Rattle.tables.specs.Lists.{most_records, record_outcome, begin_list, next_edit};
ghost use Rattle.tables.specs.Reply.{given, replied, replied_as, listing_of};
ghost use Rattle.lists.specs.Going.{Going};

use books::Book;
use known_edits::make_known;
use ruling::Prepared;
use soundness::examine;
use tables::{Caller, Change, Edit, Listing, Refusal, Size};

/// The most records of a list.
pub const MOST_RECORDS: usize = 4096;

// The checks before the first edit of a list of so many records, all by one caller. Where they are passed, all is prepared for it.
pub(crate) fn begin(
    book: &Book,
    prepared: &mut Prepared,
    records: usize,
    caller: Caller,
) -> Result<Listing, Refusal>
    requires { (Blank prepared.old.order.rows) × (Blank prepared.old.order.reach) × (Blank prepared.old.ruled) }
    ensures outcome { leaves (replied_as listing_of result) (tables_of book.now) ≡ begin_list book.now.n book.now.m (tables_of book.now) caller.0 records }
    ensures ready { IfOk result (λ listing. (Going book.now.n book.now.m caller.0 (tables_of book.now) listing prepared.new)
        × (listing.accepted ≡ 0) × (records ≤ most_records)) }
{
    if records > MOST_RECORDS {
        return Err(Refusal::Shape);
    }
    book.ask_caller(caller)?;
    let size = Size {
        n: book.n as usize,
        m: book.m as usize,
    };
    let sound = examine(
        size,
        book.links,
        book.rules,
        book.entries,
        book.disputes,
        prepared,
    );
    if !sound {
        return Err(Refusal::Unsound);
    }
    Ok(Listing {
        accepted: 0,
        changed: 0,
        stopped: None,
    })
}

// The edit that a record stands for is made.
fn make_record(
    book: &mut Book,
    prepared: &mut Prepared,
    edit: Edit,
    caller: Caller,
) -> Result<u16, Refusal>
    requires known { Known book.old.n book.old.m (tables_of book.old) prepared.old }
    requires caller { caller.0 < callers }
    ensures same { SameBook book.old book.new }
    ensures outcome { leaves (replied result) (tables_of book.new) ≡ record_outcome book.old.n book.old.m (tables_of book.old) caller.0 edit }
    ensures known { Known book.old.n book.old.m (tables_of book.new) prepared.new }
{
    let change = Change::try_from(edit)?;
    make_known(book, prepared, caller, change)
}

// The next edit of a list that goes on.
pub(crate) fn step(
    book: &mut Book,
    prepared: &mut Prepared,
    listing: Listing,
    edit: Edit,
    caller: Caller,
) -> Listing
    requires going { Going book.old.n book.old.m caller.0 (tables_of book.old) listing prepared.old }
    requires room { listing.accepted < most_records }
    ensures same { SameBook book.old book.new }
    ensures outcome { leaves (given (listing_of result)) (tables_of book.new)
        ≡ next_edit book.old.n book.old.m caller.0 edit (leaves (given (listing_of listing)) (tables_of book.old)) }
    ensures ready { IfNone result.stopped ((Going book.old.n book.old.m caller.0 (tables_of book.new) result prepared.new)
        × (result.accepted ≡ listing.accepted + 1)) }
{
    match make_record(book, prepared, edit, caller) {
        Ok(count) => Listing {
            accepted: listing.accepted + 1,
            changed: listing.changed + u32::from(count),
            stopped: None,
        },
        Err(why) => Listing {
            stopped: Some(why),
            ..listing
        },
    }
}
