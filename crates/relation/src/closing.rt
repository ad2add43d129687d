// A relation over kinds, closed over chains of links by Warshall's loop, and turned round. `close` and `turn` say of every
// place what is there after.
ghost use Rattle.std.specs.Prelude.{◌&&◌, ◌<◌, ◌≤◌, eqb, ltb};
ghost use Rattle.relation.specs.Bit.{holds, Blank, Added};
ghost use Rattle.relation.specs.Closed.{Closed, Swept, ParentsGathered};
ghost use Rattle.relation.specs.Turned.{Turned};

use crate::{KindSet, Relation};

impl Relation {
    // The kinds that are in a row below n.
    fn gather(&self, n: usize) -> KindSet
        requires { n ≤ 128 }
        ensures { ParentsGathered n self.now result }
    {
        let mut parents = KindSet::EMPTY;
        for row in &self.rows[..n] {
            parents = parents.union(*row);
        }
        parents
    }

    // Stage k of the closure: row k is joined into the rows below n that have k.
    fn sweep(&mut self, n: usize, k: usize)
        requires { (n ≤ 128) × (k < 128) }
        ensures { Swept k n self.old self.new }
    {
        let more = self.rows[k];
        for c in 0..n {
            if self.has(c, k) {
                self.insert_all(c, more);
            }
        }
    }

    /// The rows of the kinds below n are closed over chains of links, in place: Warshall's closure, by the largest kind that
    /// a chain passes through. A kind that is in no row is passed through by none.
    pub fn close(&mut self, n: usize)
        requires { n ≤ 128 }
        ensures { Closed n n self.old self.new }
    {
        let parents = self.gather(n);
        for k in 0..n {
            if parents.contains(k) {
                self.sweep(n, k);
            }
        }
    }

    // Kind c is put into row p for each kind p of the set.
    fn turn_row(&mut self, row: KindSet, c: usize)
        requires { c < 128 }
        ensures { Added self.old self.new (λ p d. eqb d c && (ltb p 128 && holds row p)) }
    {
        let mut rest = row;
        while let Some(p) = rest.take_first(128) {
            self.insert(p, c);
        }
    }

    /// A blank relation gets the rows of the kinds below n turned round: kind c is in its row p where kind p is in row c. It is lent:
    /// given back it would be copied.
    pub fn turn(&mut self, rows: &Relation, n: usize)
        requires { (n ≤ 128) × (Blank self.old) }
        ensures { Turned n rows.now self.new }
    {
        for c in 0..n {
            self.turn_row(rows.rows[c], c);
        }
    }
}
