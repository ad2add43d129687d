// The tables of a book replaced by others that are sound. Nothing is written before these are known to be.
// A `Size` is made by `as`: its numbers have to be known by computation, and `from` is a call.
#![tactic(auto)]

ghost use Rattle.std.specs.Prelude.{◌≡◌, true, List, ℕ, ◌*◌, ◌<◌, OnErr, length};
ghost use Rattle.books.specs.Lent.{SameBook, tables_of};
ghost use Rattle.tables.specs.Caller.{callers};
ghost use Rattle.tables.specs.Calls.{leaves};
ghost use Rattle.tables.specs.Reply.{replied};
ghost use Rattle.tables.specs.Tables.{lent, shaped, sound, Sized, tallied};
ghost use Rattle.replacing.specs.Replaced.{replaced};

use books::Book;
use copying::{copy_over, count_differing};
use resettling::count_edit;
use ruling::Prepared;
use soundness::examine;
use tables::{Caller, Refusal, Size};

// Whether tables are sound.
fn is_sound(size: Size, links: &[u8], rules: &[u16], entries: &[u16], disputes: &[u16]) -> bool
    requires { (Sized size.n size.m rules.now entries.now) × (length links.now ≡ size.n * size.n) × (length disputes.now ≡ size.m) }
    ensures { (tally : List ℕ) → result ≡ sound size.n size.m (lent links.now rules.now entries.now tally disputes.now) }
{
    let mut prepared = Prepared::empty();
    examine(size, links, rules, entries, disputes, &mut prepared)
}

/// A book's tables become new ones, if these are sound. The tally is the book's own and counts one edit more.
pub fn replace(
    book: &mut Book,
    new_links: &[u8],
    new_rules: &[u16],
    new_entries: &[u16],
    new_disputes: &[u16],
    caller: Caller,
) -> Result<u16, Refusal>
    requires shaped { shaped book.old.n book.old.m (tables_of book.old) ≡ true }
    requires caller { caller.0 < callers }
    requires new_sized { (Sized book.old.n book.old.m new_rules.now new_entries.now) × (length new_links.now ≡ book.old.n * book.old.n) × (length new_disputes.now ≡ book.old.m) }
    ensures same { SameBook book.old book.new }
    ensures outcome { leaves (replied result) (tables_of book.new) ≡ replaced book.old.n book.old.m (tables_of book.old)
        (lent new_links.now new_rules.now new_entries.now (tallied caller.0 book.old.tally.now) new_disputes.now) }
    ensures refused { OnErr result (tables_of book.new ≡ tables_of book.old) }
{
    let size = Size {
        n: book.n as usize,
        m: book.m as usize,
    };
    let sound = is_sound(size, new_links, new_rules, new_entries, new_disputes);
    if !sound {
        return Err(Refusal::Unsound);
    }
    let links = &mut *book.links;
    let rules = &mut *book.rules;
    let entries = &mut *book.entries;
    let tally = &mut *book.tally;
    let disputes = &mut *book.disputes;
    let count = count_differing(entries, new_entries);
    copy_over(new_links, links);
    copy_over(new_rules, rules);
    copy_over(new_entries, entries);
    copy_over(new_disputes, disputes);
    count_edit(tally, caller);
    Ok(count)
}
