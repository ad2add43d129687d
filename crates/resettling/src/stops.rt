// Where a walk along the links stops: at the kinds that have their own rule for the mark.
ghost use Rattle.std.specs.Prelude.{◌≡◌, ◌*◌, ◌<◌, ◌≤◌, length};
ghost use Rattle.resettling.specs.Stops.{Stops};

use inheritance::Mark;
use relation::KindSet;

/// The kinds with an own rule for the mark.
// n and m are no `Size`: any number of marks will do.
pub fn own_rules(rules: &[u16], n: usize, m: usize, mark: Mark) -> KindSet
    requires { (n ≤ 128) × (mark.0 < m) × (length rules.now ≡ n * m) }
    ensures { Stops n m rules.now mark.0 result }
{
    let mut stops = KindSet::EMPTY;
    let j = usize::from(mark.0);
    // by number: c is the kind that is put into the set, and its row
    for c in 0..n {
        if rules[c * m + j] != 0 {
            stops = stops.with(c);
        }
    }
    stops
}
