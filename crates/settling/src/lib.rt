// Entries worked out after a change: the row of a kind is worked out by one step of inheritance (`stepping`), written and counted
// (`writing`), kind after kind, those above a kind before it. `settle` does so for the kinds that an edit can touch, `settle_all`
// for a whole book. The dispute counts follow each entry that is written.
#![tactic(auto)]

ghost use Rattle.std.specs.Prelude.{◌≡◌, ◌<◌, ◌≤◌, length};
ghost use Rattle.arranging.specs.Arranged.{Arranged};
ghost use Rattle.counting.specs.Counting.{Counted};
ghost use Rattle.relation.specs.Bit.{bit};
ghost use Rattle.tables.specs.Step.{stepped};
ghost use Rattle.tables.specs.Tables.{Sized};
ghost use Rattle.ruling.specs.Ready.{Ready};
ghost use Rattle.writing.specs.Written.{Written};
ghost use Rattle.settling.specs.Settled.{Awaiting, Settled, AllSettled};

use counting::count_disputes;
use relation::{KindSet, Relation};
use ruling::Prepared;
use stepping::{inherit_entry, inherit_row};
use tables::{Marks, Size};
use writing::{put_counted, write_row};

// The entries of kind c are worked out and written. How many were others. A single mark needs no row: by
// one an edit of a rule took up to 6 in 100 longer.
fn settle_kind(
    prepared: &Prepared,
    marks: Marks,
    rules: &[u16],
    c: usize,
    entries: &mut [u16],
    disputes: &mut [u16],
) -> u16
    requires sized { Sized marks.size.n marks.size.m rules.now entries.old }
    requires ready { Ready marks.size.n marks.size.m rules.now prepared.now }
    requires kind_and_counts { (c < marks.size.n) × (Counted marks.size.m entries.old disputes.old) }
    ensures { (result ≤ 64)
        × (Written marks.size.m marks.lo marks.hi c (stepped marks.size.n marks.size.m (bit prepared.now.order.rows) rules.now entries.old c) entries.old entries.new result)
        × (Counted marks.size.m entries.new disputes.new) }
{
    if marks.hi == marks.lo + 1 {
        let e = inherit_entry(prepared, marks.size, rules, entries, c, marks.lo);
        return put_counted(marks.size.m, c, marks.lo, e, entries, disputes);
    }
    let mut out = [0u16; 64];
    inherit_row(prepared, marks, rules, entries, c, &mut out);
    write_row(marks, c, &out, entries, disputes)
}

/// The visited kinds' entries for the marks become their lookups, where those of the other kinds
/// are theirs already: the kinds are gone through from the last place to the first, so that those above a kind come before
/// it. The dispute counts are those of the entries, before and after. How many entries were others.
pub fn settle(
    prepared: &Prepared,
    marks: Marks,
    visited: KindSet,
    rules: &[u16],
    entries: &mut [u16],
    disputes: &mut [u16],
) -> u16
    requires sized { Sized marks.size.n marks.size.m rules.now entries.old }
    requires ready { Ready marks.size.n marks.size.m rules.now prepared.now }
    requires awaiting { Awaiting marks.size.n marks.size.m marks.lo marks.hi (bit prepared.now.order.rows) rules.now visited entries.old }
    requires counted { Counted marks.size.m entries.old disputes.old }
    ensures { (Settled marks.size.n marks.size.m marks.lo marks.hi (bit prepared.now.order.rows) rules.now entries.old entries.new result)
        × (Counted marks.size.m entries.new disputes.new) }
{
    let n = marks.size.n;
    let order = &prepared.order;
    let mut count = 0;
    // by number, from the last place: backwards over the order the invariant would have to be told of `rev`
    for t in 0..n {
        let c = usize::from(order.kinds[n - 1 - t]);
        if visited.contains(c) {
            count += settle_kind(prepared, marks, rules, c, entries, disputes);
        }
    }
    count
}

/// Every entry becomes its lookup, and every dispute count that of its mark, whatever was there: the disputes that were there are
/// counted first, and every kind counts as visited. The kinds stand in order, and their rule kinds are gathered here. How many entries
/// were others.
pub fn settle_all(
    prepared: &mut Prepared,
    size: Size,
    rules: &[u16],
    entries: &mut [u16],
    disputes: &mut [u16],
) -> u16
    requires sized { (Sized size.n size.m rules.now entries.old) × (1 ≤ size.m) × (length disputes.old ≡ size.m) }
    requires arranged { Arranged size.n prepared.old.order.rows prepared.old.order.kinds prepared.old.order.reach }
    ensures order { prepared.new.order ≡ prepared.old.order }
    ensures settled { AllSettled size.n size.m (bit prepared.old.order.rows) rules.now entries.old entries.new disputes.new result }
{
    count_disputes(size.n, size.m, entries, disputes);
    prepared.ruled = Relation::empty();
    prepared.rule_rows(rules, size);
    let visited = KindSet::ALL;
    let marks = Marks {
        size,
        lo: 0,
        hi: size.m,
    };
    settle(prepared, marks, visited, rules, entries, disputes)
}
