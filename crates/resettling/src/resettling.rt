// The entries after a change, and their dispute counts: the kinds that it can touch are found by the walk down the links, and settled.
ghost use Rattle.std.specs.Prelude.{false, ◌+◌, ◌<◌};
ghost use Rattle.counting.specs.Counting.{Counted};
ghost use Rattle.propagation.specs.Spread.{stop};
ghost use Rattle.relation.specs.Bit.{bit};
ghost use Rattle.ruling.specs.Ready.{Ready};
ghost use Rattle.settling.specs.Settled.{Settled};
ghost use Rattle.tables.specs.Tables.{Sized, own_of};
ghost use Rattle.resettling.specs.Edits.{Untouched};

use crate::stops::own_rules;
use inheritance::{Kind, Mark};
use propagation::touched;
use relation::{KindSet, Relation};
use ruling::Prepared;
use settling::settle;
use tables::{Marks, Size};

// The entries for the marks become their lookups after a change at kind e that goes no farther than the stops. How many were
// others. Not inlined: its relation of children would stand on the stack of a link edit while the kinds are arranged.
#[inline(never)]
fn resettle(
    prepared: &Prepared,
    marks: Marks,
    stops: KindSet,
    e: Kind,
    rules: &[u16],
    entries: &mut [u16],
    disputes: &mut [u16],
) -> u16
    requires sized_and_counted { (Sized marks.size.n marks.size.m rules.now entries.old) × (e.0 < marks.size.n) × (Counted marks.size.m entries.old disputes.old) }
    requires ready { Ready marks.size.n marks.size.m rules.now prepared.now }
    requires untouched { Untouched marks.size.n marks.size.m marks.lo marks.hi (bit prepared.now.order.rows) (stop stops) e.0 rules.now entries.old }
    ensures { (Settled marks.size.n marks.size.m marks.lo marks.hi (bit prepared.now.order.rows) rules.now entries.old entries.new result)
        × (Counted marks.size.m entries.new disputes.new) }
{
    let order = &prepared.order;
    let mut children = Relation::empty();
    children.turn(&order.rows, marks.size.n);
    let changed = usize::from(e.0);
    let visited = touched(&children, marks.size.n, stops, changed);
    settle(prepared, marks, visited, rules, entries, disputes)
}

/// The same after a change of the rule of a kind for a mark: no other mark is touched, and an own rule stops it.
pub fn resettle_rule(
    prepared: &Prepared,
    size: Size,
    kind: Kind,
    mark: Mark,
    rules: &[u16],
    entries: &mut [u16],
    disputes: &mut [u16],
) -> u16
    requires sized_and_counted { (Sized size.n size.m rules.now entries.old) × (kind.0 < size.n) × (mark.0 < size.m) × (Counted size.m entries.old disputes.old) }
    requires ready { Ready size.n size.m rules.now prepared.now }
    requires untouched { Untouched size.n size.m mark.0 (mark.0 + 1) (bit prepared.now.order.rows) (own_of size.m rules.now mark.0) kind.0 rules.now entries.old }
    ensures { (Settled size.n size.m mark.0 (mark.0 + 1) (bit prepared.now.order.rows) rules.now entries.old entries.new result)
        × (Counted size.m entries.new disputes.new) }
{
    let stops = own_rules(rules, size.n, size.m, mark);
    let j = usize::from(mark.0);
    let marks = Marks {
        size,
        lo: j,
        hi: j + 1,
    };
    resettle(prepared, marks, stops, kind, rules, entries, disputes)
}

/// The same after a change of a link of a child: every mark is worked out, at every kind below the child.
pub fn resettle_link(
    prepared: &Prepared,
    size: Size,
    child: Kind,
    rules: &[u16],
    entries: &mut [u16],
    disputes: &mut [u16],
) -> u16
    requires sized_and_counted { (Sized size.n size.m rules.now entries.old) × (child.0 < size.n) × (Counted size.m entries.old disputes.old) }
    requires ready { Ready size.n size.m rules.now prepared.now }
    requires untouched { Untouched size.n size.m 0 size.m (bit prepared.now.order.rows) (λ _. false) child.0 rules.now entries.old }
    ensures { (Settled size.n size.m 0 size.m (bit prepared.now.order.rows) rules.now entries.old entries.new result)
        × (Counted size.m entries.new disputes.new) }
{
    let stops = KindSet::EMPTY;
    let marks = Marks {
        size,
        lo: 0,
        hi: size.m,
    };
    resettle(prepared, marks, stops, child, rules, entries, disputes)
}
