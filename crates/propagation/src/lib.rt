// The kinds that an edit can touch, found by a recursive walk. Row k of `onward` has the kinds that the walk goes on to from
// kind k: which way the links are followed is the caller's, who turns the rows. `spread` is the walk, and `touched` starts it:
// `Touched` says that it visits the kinds below the one edited, and no other.
#![tactic(auto)]

ghost use Rattle.std.specs.Prelude.{◌<◌, ◌≤◌};
ghost use Rattle.propagation.specs.Spread.{under, stop, Ready, Walked, Touched};

use relation::{KindSet, Relation};

// Visits k and, from it, each kind below n of its row that is not visited yet and is no stop, and so on. The kinds visited then.
fn spread(onward: &Relation, n: usize, stops: KindSet, k: usize, before: KindSet) -> KindSet
    requires { Ready n k before }
    ensures { Walked n (under onward.now) (stop stops) k before result }
{
    let mut rest = onward.row(k);
    let mut visited = before.with(k);
    while let Some(c) = rest.take_first(n) {
        if !visited.contains(c) & !stops.contains(c) {
            visited = spread(onward, n, stops, c, visited);
        }
    }
    visited
}

/// Exactly the kinds that an edit at e can touch. The walk does not come to a stop.
pub fn touched(onward: &Relation, n: usize, stops: KindSet, e: usize) -> KindSet
    requires { (e < n) × (n ≤ 128) }
    ensures { Touched n (under onward.now) (stop stops) e result }
{
    spread(onward, n, stops, e, KindSet::EMPTY)
}
