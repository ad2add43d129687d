// The kinds of a book put in order along their links, each before those above it, by going up the links. `arrange` says of
// every kind where it stands and which places it reaches.
// Numbers change width by `as`: each fits, and what `from` or `try_from` answers would have to be told to each goal.
#![tactic(auto)]

ghost use Rattle.std.specs.Prelude.{◌≡◌, ◌&&◌, ◌+◌, ◌-◌, ◌<◌, ◌≤◌, eqb, length, set};
ghost use Rattle.relation.specs.Bit.{bit, Blank, Added};
ghost use Rattle.arranging.specs.Arranged.{Arrangement, Placed, Climbed, Fresh};
ghost use Rattle.arranging.specs.declared.State.TheVariants.{Done};

use relation::{KindSet, Relation};

// How far a kind has come: not visited; on the way; it has a place.
#[derive(Clone, Copy, Debug, PartialEq, Eq)]
enum State {
    New,
    Open,
    Done,
}

// Kind c gets the last place that is free, n - 1 - k where k kinds have theirs.
fn place(
    n: usize,
    c: usize,
    k: usize,
    states: &mut [State; 128],
    order: &mut [u8; 128],
    reach: &mut Relation,
) -> usize
    requires { (n ≤ 128) × (c < n) × (k < n) }
    ensures { (result ≡ k + 1) × (states.new ≡ set states.old c Done) × (order.new ≡ set order.old (n - 1 - k) c)
        × (Added reach.old reach.new (λ d q. eqb d c && eqb q (n - 1 - k))) }
{
    let i = n - 1 - k;
    reach.insert(c, i);
    order[i] = c as u8;
    states[c] = State::Done;
    k + 1
}

// Goes up from kind c to each parent that is not visited yet, and so on, and gathers the kinds of the parents' rows, which
// are then row c; then c gets its place, if all its parents have theirs. How many kinds have one.
fn climb(
    rows: &Relation,
    n: usize,
    c: usize,
    from: usize,
    states: &mut [State; 128],
    order: &mut [u8; 128],
    reach: &mut Relation,
) -> usize
    requires { (n ≤ 128) × (Fresh n c states.old) × (Placed n (bit rows.now) from states.old order.old reach.old) }
    ensures { (Placed n (bit rows.now) result states.new order.new reach.new)
        × (Climbed n (bit rows.now) c states.old states.new reach.old reach.new) }
{
    states[c] = State::Open;
    let mut rest = rows.row(c);
    let mut k = from;
    let mut good = true;
    let mut above = KindSet::EMPTY;
    while let Some(parent) = rest.take_first(n) {
        if states[parent] == State::New {
            k = climb(rows, n, parent, k, states, order, reach);
        }
        good = good & (states[parent] == State::Done);
        above = above.union(reach.row(parent));
    }
    reach.set_row(c, above);
    if good {
        place(n, c, k, states, order, reach)
    } else {
        k
    }
}

/// The kinds of a book in order: the links as rows, the kind at each place, and in row c of `reach` the places of kind c and of those
/// above it.
#[derive(Drop)]
pub struct Order {
    pub rows: Relation,
    pub kinds: [u8; 128],
    pub reach: Relation,
    ghost places: { length kinds ≡ 128 },
}

impl Order {
    /// No links, and no kind in order.
    pub fn empty() -> Order
        ensures rows { Blank result.rows }
        ensures reach { Blank result.reach }
    {
        Order {
            rows: Relation::empty(),
            kinds: [0u8; 128],
            reach: Relation::empty(),
        }
    }

    /// The kinds below n are put in an order in which each stands before its parents, and row c of `reach`, which was blank, gets
    /// the places of kind c and of those above it. Whether there is such an order: no kind is above itself.
    pub fn arrange(&mut self, n: usize) -> bool
        requires { (n ≤ 128) × (Blank self.old.reach) }
        ensures rows { self.new.rows ≡ self.old.rows }
        ensures arranged { Arrangement n self.new.rows self.new.kinds self.new.reach result }
    {
        let mut states = [State::New; 128];
        let mut k = 0;
        // by number: c names the kind in its state and in the rows
        for c in 0..n {
            if states[c] == State::New {
                k = climb(
                    &self.rows,
                    n,
                    c,
                    k,
                    &mut states,
                    &mut self.kinds,
                    &mut self.reach,
                );
            }
        }
        k == n
    }
}
