// The kinds left at a kind, for the parties of a dispute. The places of the order are gone through from the first, so that a
// rule kind comes after those that hide it.
// Numbers are narrowed by `as`: each fits, and `try_from` would add a refusal that cannot come.
#![tactic(auto)]

ghost use Rattle.std.specs.Prelude.{◌≡◌, ◌&&◌, not, List, ℕ, ◌<◌, ◌≤◌, eqb, get_or};
ghost use Rattle.inheritance.specs.Lookup.{left, passing};
ghost use Rattle.arranging.specs.Arranged.{Arranged};
ghost use Rattle.relation.specs.declared.Relation.{Relation};
ghost use Rattle.relation.specs.Bit.{bit, holds, Gains};
ghost use Rattle.tables.specs.Tables.{own_of};
ghost use Rattle.ruling.specs.Ruling.{Ruled};
ghost use Rattle.parting.specs.Parting.{Orderly, LeftKinds, pair_of};

use arranging::Order;
use inheritance::{Kind, Mark};
use relation::KindSet;
use ruling::Prepared;
use tables::Refusal;

// The kind at place i is put into left unless `above` has the place, and `above` gets the places of the kinds at or above it.
fn take_place(order: &Order, i: usize, left: &mut KindSet, above: &mut KindSet)
    requires { (i < 128) × (get_or order.now.kinds i 0 < 128) }
    ensures left { Gains left.old left.new (λ q. eqb q (get_or order.now.kinds i 0) && not (holds above.old i)) }
    ensures above { Gains above.old above.new (bit order.now.reach (get_or order.now.kinds i 0)) }
{
    let o = usize::from(order.kinds[i]);
    if !above.contains(i) {
        *left = left.with(o);
    }
    *above = above.union(order.reach.row(o));
}

// The kinds left at kind c for mark j.
fn gather_left(prepared: &Prepared, n: usize, c: usize, j: usize) -> KindSet
    requires { (n ≤ 128) × (c < 128) × (j < 128) × (Orderly n prepared.now.order.kinds) }
    ensures { LeftKinds n prepared.now.order.kinds prepared.now.order.reach prepared.now.ruled c j n result }
{
    let order = &prepared.order;
    let mut left = KindSet::EMPTY;
    let mut above = KindSet::EMPTY;
    // by number: i is the place in two rows and in the order
    for i in 0..n {
        if order.reach.has(c, i) & prepared.ruled.has(j, i) {
            take_place(order, i, &mut left, &mut above);
        }
    }
    left
}

/// The two lowest kinds left at kind c for mark j, or that there are not two.
pub fn left_pair(prepared: &Prepared, n: usize, c: Kind, j: Mark) -> Result<(Kind, Kind), Refusal>
    requires { (n ≤ 128) × (c.0 < n) × (j.0 < 64) × (Orderly n prepared.now.order.kinds) }
    ensures { (m : ℕ) (rows : Relation) (rules : List ℕ) → Arranged n rows prepared.now.order.kinds prepared.now.order.reach
        → Ruled n m rules prepared.now.order.kinds prepared.now.ruled → j.0 < m
        → result ≡ pair_of (passing (left n (bit rows) (own_of m rules j.0) c.0) n) }
{
    let left = gather_left(prepared, n, usize::from(c.0), usize::from(j.0));
    let one = left.first(0, n).ok_or(Refusal::NoDispute)?;
    let other = left.first(one + 1, n).ok_or(Refusal::NoDispute)?;
    Ok((Kind(one as u16), Kind(other as u16)))
}
