// What the kinds left decide. The kinds stand in an order in which each comes before those above it: row c of reach has the
// places of kind c and of the kinds above it, and row j of ruled those of the rule kinds of mark j.
// Numbers change width by `as`: each fits, and what `from` or `try_from` answers would have to be told to each goal.
#![tactic(auto)]

ghost use Rattle.std.specs.Prelude.{◌≡◌, not, ℕ, ◌+◌, ◌<◌, ◌≤◌, eqb, get_or, length};
ghost use Rattle.relation.specs.declared.Relation.{Relation};
ghost use Rattle.relation.specs.Bit.{bit, holds};
ghost use Rattle.tables.specs.Tables.{all_below};
ghost use Rattle.deciding.specs.Deciding.{Held, Places, deciding, decided_at, apart};
ghost use Rattle.deciding.specs.Row.{Row, Changed};

use arranging::Order;
use inheritance::{Kind, Lookup};
use relation::KindSet;
use ruling::Prepared;
use tables::Marks;

// The lookup of kind c where its parents differ. The set has the places of the rule kinds at or above c. The first of them is
// left. It is left alone if all the others are above it.
fn decide(order: &Order, c: usize, near: KindSet) -> Lookup
    requires { (c < 128) × (Held order.now.kinds (holds near)) }
    ensures { (ruled : Relation) (j : ℕ) → Places near order.now.reach ruled c j → result ≡ deciding order.now.kinds order.now.reach ruled c j }
{
    match near.min() {
        None => Lookup::None,
        Some(i) => {
            // by `as`: with `usize::from` C has a branch more here, and an edit of a large book took a tenth longer
            let o = order.kinds[i] as usize;
            if near.is_subset(order.reach.row(o)) {
                Lookup::Rule(Kind(o as u16))
            } else {
                Lookup::Dispute(Kind(c as u16))
            }
        }
    }
}

/// The entry e of kind c for mark j alone, decided where it says that the parents differ.
pub fn decide_entry(prepared: &Prepared, c: usize, j: usize, e: u16) -> u16
    requires { (c < 128) × (j < 64) × (Held prepared.now.order.kinds (bit prepared.now.order.reach c)) }
    ensures { result ≡ apart c e (decided_at prepared.now c j) }
{
    if e != 257 + c as u16 {
        return e;
    }
    let order = &prepared.order;
    let near = order.reach.row(c).intersection(prepared.ruled.row(j));
    decide(order, c, near).entry()
}

// Whether none of the eight entries from `from` on says that the parents of kind c differ. The eight are looked at at once.
fn eight_agreed(from: usize, c: usize, out: &[u16; 64]) -> bool
    requires { (c < 128) × (from + 8 ≤ 64) × (length out.now ≡ 64) }
    ensures { result ≡ all_below (λ k. not (eqb (get_or out.now (from + k) 0) (257 + c))) 8 }
{
    let apart = 257 + c as u16;
    let mut all = true;
    for entry in &out[from..from + 8] {
        all = all & (*entry != apart);
    }
    all
}

// The eight entries from `from` on are decided where the parents of kind c differ.
fn decide_eight(prepared: &Prepared, from: usize, c: usize, out: &mut [u16; 64])
    requires { (c < 128) × (from + 8 ≤ 64) × (length out.old ≡ 64) × (Held prepared.now.order.kinds (bit prepared.now.order.reach c)) }
    ensures { Changed from (from + 8) (λ j e. apart c e (decided_at prepared.now c j)) out.old out.new }
{
    let order = &prepared.order;
    let reached = order.reach.row(c);
    let apart = 257 + c as u16;
    // by number: j is the mark in the entries, which are written, and in the rule kinds
    for j in from..from + 8 {
        if out[j] == apart {
            let near = reached.intersection(prepared.ruled.row(j));
            out[j] = decide(order, c, near).entry();
        }
    }
}

/// The entries of kind c are decided where its parents differ. The marks go by groups of eight, and a group without such an
/// entry is passed over. The first and the last group may have marks that are not of the range; those do not count.
pub fn decide_row(prepared: &Prepared, marks: Marks, c: usize, out: &mut [u16; 64])
    requires { (c < 128) × (length out.old ≡ 64) × (Held prepared.now.order.kinds (bit prepared.now.order.reach c)) }
    ensures { Row marks.lo marks.hi (λ j. apart c (get_or out.old j 0) (decided_at prepared.now c j)) out.new }
{
    // by number: eight entries at once, and the ends of the range need not be those of a group
    for q in marks.lo / 8..(marks.hi + 7) / 8 {
        if !eight_agreed(8 * q, c, out) {
            decide_eight(prepared, 8 * q, c, out);
        }
    }
}
