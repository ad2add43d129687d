// Refresh: every entry becomes its lookup, and every dispute count that of its mark.
// A `Size` is made by `as`: its numbers have to be known by computation, and `from` is a call.
ghost use Rattle.std.specs.Prelude.{◌≡◌, OnErr};
ghost use Rattle.books.specs.Lent.{SameBook, tables_of};
ghost use Rattle.tables.specs.Calls.{leaves, refresh};
ghost use Rattle.tables.specs.Reply.{replied};
ghost use Rattle.tables.specs.Tables.{lent};

use books::{Book, Tables};
use ruling::Prepared;
use settling::settle_all;
use soundness::examine_links;
use tables::{Refusal, Size};

/// Refresh on tables that are lent apart, as C lends them: it writes two of the five. Every entry becomes its lookup, and the dispute
/// counts follow. Both are written where they are lent, so the links are judged before the first. How many entries differ from before.
pub fn refresh_tables(
    n: u16,
    m: u16,
    links: &[u8],
    rules: &[u16],
    entries: &mut [u16],
    tally: &[u32],
    disputes: &mut [u16],
) -> Result<u16, Refusal>
    ensures { leaves (replied result) (lent links.now rules.now entries.new tally.now disputes.new)
        ≡ refresh n m (lent links.now rules.now entries.old tally.now disputes.old) }
{
    let lent = Tables {
        n,
        m,
        links,
        rules,
        entries,
        tally,
        disputes,
    };
    if !lent.is_shaped() {
        return Err(Refusal::Shape);
    }
    let size = Size {
        n: n as usize,
        m: m as usize,
    };
    let mut prepared = Prepared::empty();
    let linked = examine_links(size.n, links, &mut prepared.order);
    if !linked {
        return Err(Refusal::Unsound);
    }
    let count = settle_all(&mut prepared, size, rules, entries, disputes);
    Ok(count)
}

/// Refresh on a book.
pub fn refresh(book: &mut Book) -> Result<u16, Refusal>
    ensures same { SameBook book.old book.new }
    ensures outcome { leaves (replied result) (tables_of book.new) ≡ refresh book.old.n book.old.m (tables_of book.old) }
    ensures refused { OnErr result (tables_of book.new ≡ tables_of book.old) }
{
    let n = book.n;
    let m = book.m;
    let links = &mut *book.links;
    let rules = &mut *book.rules;
    let entries = &mut *book.entries;
    let tally = &mut *book.tally;
    let disputes = &mut *book.disputes;
    refresh_tables(n, m, links, rules, entries, tally, disputes)
}
