// Inspect: the first fault of the tables.
// Numbers are narrowed by `as`: each fits, and `try_from` would add a refusal that cannot come.
// A `Size` is made by `as`: its numbers have to be known by computation, and `from` is a call.
#![tactic(auto)]

ghost use Rattle.std.specs.Prelude.{◌≡◌, ◌≤◌, length};
ghost use Rattle.books.specs.Lent.{tables_read};
ghost use Rattle.tables.specs.Calls.{inspect};
ghost use Rattle.tables.specs.Reply.{replied_as, fault_in};
ghost use Rattle.inspecting.specs.Faults.{LowestFound, off_own_row, link_fault, same_at, entry_fault};

use books::Tables;
use inheritance::{Kind, Mark};
use relation::Relation;
use ruling::Prepared;
use settling::settle_all;
use soundness::examine_links;
use tables::{Fault, Refusal, Size};

// The lowest kind below n that is in its own row.
fn first_in_own_row(rows: &Relation, n: usize) -> Option<usize>
    requires { n ≤ 128 }
    ensures { LowestFound (off_own_row rows.now) n result }
{
    (0..n).find(|c| rows.has(*c, *c))
}

// The first fault of the links: the lowest place of a byte above 1, or else the lowest kind above itself. Closed has who is
// above whom.
fn link_fault(n: usize, links: &[u8], closed: &Relation) -> Option<Fault>
    requires { (n ≤ 128) × (length links.now ≤ 16384) }
    ensures { fault_in result ≡ link_fault n links.now closed.now }
{
    if let Some(place) = links.iter().position(|byte| *byte > 1) {
        return Some(Fault::LinkByte(place as u16));
    }
    first_in_own_row(closed, n).map(|kind| Fault::AboveItself(Kind(kind as u16)))
}

// The lowest place at which two tables differ.
fn first_apart(xs: &[u16], ys: &[u16]) -> Option<usize>
    requires { length ys.now ≡ length xs.now }
    ensures { LowestFound (same_at xs.now ys.now) (length xs.now) result }
{
    xs.iter().zip(ys).position(|(x, y)| x != y)
}

// The fault of tables whose links have none: the lowest place whose entry is not its lookup, or else the lowest mark whose dispute
// count is not that of the lookups.
fn entry_fault(entries: &[u16], lookups: &[u16], disputes: &[u16], counts: &[u16]) -> Option<Fault>
    requires lookups_as_entries { (length lookups.now ≡ length entries.now) × (length entries.now ≤ 8192) }
    requires counts_as_disputes { (length counts.now ≡ length disputes.now) × (length disputes.now ≤ 64) }
    ensures { fault_in result ≡ entry_fault entries.now lookups.now disputes.now counts.now }
{
    if let Some(place) = first_apart(entries, lookups) {
        return Some(Fault::WrongEntry(place as u16));
    }
    if let Some(mark) = first_apart(disputes, counts) {
        return Some(Fault::WrongCount(Mark(mark as u16)));
    }
    None
}

/// None where the tables are sound, or the first fault. Where a kind is above itself there are no lookups to compare with, so the links
/// are judged first. The lookups are worked out apart from the entries, which are not written: an entry that agrees with a wrong one is
/// wrong.
pub fn inspect(tables: &Tables) -> Result<Option<Fault>, Refusal>
    ensures { replied_as fault_in result ≡ (inspect tables.now.n tables.now.m (tables_read tables.now)).reply }
{
    if !tables.is_shaped() {
        return Err(Refusal::Shape);
    }
    let size = Size {
        n: tables.n as usize,
        m: tables.m as usize,
    };
    let mut prepared = Prepared::empty();
    let order = &mut prepared.order;
    let linked = examine_links(size.n, tables.links, order);
    if !linked {
        order.rows.close(size.n);
        return Ok(link_fault(size.n, tables.links, &order.rows));
    }
    let mut scratch = [0u16; 8192];
    let lookups = &mut scratch[..tables.entries.len()];
    let mut counted = [0u16; 64];
    let counts = &mut counted[..tables.disputes.len()];
    settle_all(&mut prepared, size, tables.rules, lookups, counts);
    Ok(entry_fault(tables.entries, lookups, tables.disputes, counts))
}
