// Sets of kinds below 128, and relations over these kinds: a set for each kind, its row. Two words a set, not one of 128 bits, which
// took C up to twice as long.
// Numbers change width by `as`: each fits, and what `from` or `try_from` answers would have to be told to each goal.
#![tactic(auto)]

pub mod closing;

ghost use Rattle.std.specs.Prelude.{◌≡◌, ◌&&◌, ◌-◌, ◌*◌, ◌<◌, ◌≤◌, ◌↔◌, IsTrue, eqb, leb};
ghost use Rattle.relation.specs.Bit.{on, holds, word_of, row_of, bit, Blank, Gains, Loses, Shared, WithinWord, Within, Added, Removed, RowSet};
ghost use Rattle.relation.specs.First.{First, Found};
ghost use Rattle.relation.specs.Taken.{Taken};

/// A set of kinds below 128.
#[derive(Clone, Copy, Debug, PartialEq, Eq, Hash)]
pub struct KindSet {
    pub low: u64,
    pub high: u64,
}

// The first bit of the word at or after `from`; 64 where there is none. An Option is no plainer: 64 is where the next word begins.
fn first_bit(w: u64, from: usize) -> usize
    requires { from < 64 }
    ensures { First (on w) from 64 result }
{
    u64::trailing_zeros(w >> from << from) as usize
}

// Whether each bit of the word is one of the other's.
fn is_within(w: u64, other: u64) -> bool
    ensures { IsTrue result ↔ WithinWord w other }
{
    (w | other) ^ other == 0
}

impl KindSet {
    /// No kind.
    pub const EMPTY: KindSet = KindSet { low: 0, high: 0 };

    /// Every kind below 128.
    pub const ALL: KindSet = KindSet {
        low: u64::MAX,
        high: u64::MAX,
    };

    // The word that has a place for the kind.
    fn word(self, kind: usize) -> u64
        ensures { result ≡ word_of self kind }
    {
        if kind < 64 {
            return self.low;
        }
        self.high
    }

    /// Whether a kind is in the set.
    pub fn contains(self, kind: usize) -> bool
        requires { kind < 128 }
        ensures { result ≡ holds self kind }
    {
        self.word(kind) >> (kind % 64) & 1 == 1
    }

    /// The set with a kind.
    pub fn with(self, kind: usize) -> KindSet
        requires { kind < 128 }
        ensures { Gains self result (λ q. eqb q kind) }
    {
        let one = 1 << (kind % 64);
        if kind < 64 {
            return KindSet {
                low: self.low | one,
                high: self.high,
            };
        }
        KindSet {
            low: self.low,
            high: self.high | one,
        }
    }

    /// The set without a kind.
    pub fn without(self, kind: usize) -> KindSet
        requires { kind < 128 }
        ensures { Loses self result (λ q. eqb q kind) }
    {
        let one = 1 << (kind % 64);
        if kind < 64 {
            return KindSet {
                low: (self.low | one) ^ one,
                high: self.high,
            };
        }
        KindSet {
            low: self.low,
            high: (self.high | one) ^ one,
        }
    }

    /// The set with the kinds 8 * q + k of the bits k.
    pub fn with_octet(self, q: usize, bits: u8) -> KindSet
        requires { q < 16 }
        ensures { Gains self result (λ p. leb (8 * q) p && on bits (p - 8 * q)) }
    {
        let eight = (bits as u64) << (8 * (q % 8));
        if q < 8 {
            return KindSet {
                low: self.low | eight,
                high: self.high,
            };
        }
        KindSet {
            low: self.low,
            high: self.high | eight,
        }
    }

    /// The kinds of both sets.
    pub fn union(self, other: KindSet) -> KindSet
        ensures { Gains self result (holds other) }
    {
        KindSet {
            low: self.low | other.low,
            high: self.high | other.high,
        }
    }

    /// The kinds that are in each of both sets.
    pub fn intersection(self, other: KindSet) -> KindSet
        ensures { Shared self other result }
    {
        KindSet {
            low: self.low & other.low,
            high: self.high & other.high,
        }
    }

    /// Whether the other set has every kind of this one.
    pub fn is_subset(self, other: KindSet) -> bool
        ensures { IsTrue result ↔ Within self other }
    {
        is_within(self.low, other.low) & is_within(self.high, other.high)
    }

    // The first kind of the set at or after `from`; 128 where there is none, which `first` makes an Option: the end of the search has to
    // be tested in any case.
    fn next(self, from: usize) -> usize
        requires { from ≤ 128 }
        ensures { First (holds self) from 128 result }
    {
        if from == 128 {
            return 128;
        }
        if from >= 64 {
            return 64 + first_bit(self.high, from - 64);
        }
        let low = first_bit(self.low, from);
        if low < 64 {
            return low;
        }
        64 + first_bit(self.high, 0)
    }

    // The first kind of the set; 128 where there is none. Both words are looked at, so that which of them has it is no branch: in a book of
    // many kinds that cannot be foretold, and by `next` the edits of such a book took up to a tenth longer.
    fn lowest(self) -> usize
        ensures { First (holds self) 0 128 result }
    {
        let low = first_bit(self.low, 0);
        let high = first_bit(self.high, 0);
        if low < 64 { low } else { 64 + high }
    }

    /// The first kind of the set.
    pub fn min(self) -> Option<usize>
        ensures { Found (holds self) 0 128 result }
    {
        let kind = self.lowest();
        if kind < 128 {
            return Some(kind);
        }
        None
    }

    /// The first kind of the set, taken out, if it is below `end`.
    pub fn take_first(&mut self, end: usize) -> Option<usize>
        requires { end ≤ 128 }
        ensures { Taken end self.old self.new result }
    {
        if self.low != 0 {
            let low = u64::trailing_zeros(self.low) as usize;
            self.low = self.low & (self.low - 1);
            if low < end {
                return Some(low);
            }
            return None;
        }
        if self.high != 0 {
            let high = u64::trailing_zeros(self.high) as usize;
            self.high = self.high & (self.high - 1);
            if 64 + high < end {
                return Some(64 + high);
            }
        }
        None
    }

    /// The first kind of the set at or after `from` and below `end`.
    pub fn first(self, from: usize, end: usize) -> Option<usize>
        requires { (from ≤ end) × (end ≤ 128) }
        ensures { Found (holds self) from end result }
    {
        let kind = self.next(from);
        if kind < end {
            return Some(kind);
        }
        None
    }
}

/// A relation over kinds below 128: for each the set of those that it is related to.
#[derive(Clone, Debug, PartialEq, Eq, Drop)]
pub struct Relation {
    pub rows: [KindSet; 128],
}

impl Relation {
    /// No kind is related to another.
    pub fn empty() -> Relation
        ensures { Blank result }
    {
        Relation {
            rows: [KindSet::EMPTY; 128],
        }
    }

    /// The kinds that a kind is related to.
    pub fn row(&self, kind: usize) -> KindSet
        requires { kind < 128 }
        ensures { result ≡ row_of self.now kind }
    {
        self.rows[kind]
    }

    /// Whether kind p is in row c.
    #[tactic(auto, unfolding(crate::specs::Bit::bit))]
    pub fn has(&self, c: usize, p: usize) -> bool
        requires { (c < 128) × (p < 128) }
        ensures { result ≡ bit self.now c p }
    {
        self.rows[c].contains(p)
    }

    /// Kind p is put into row c.
    // This, `remove` and `insert_all` are a method of the set each: one function of them would be lent which.
    pub fn insert(&mut self, c: usize, p: usize)
        requires { (c < 128) × (p < 128) }
        ensures { Added self.old self.new (λ d q. eqb d c && eqb q p) }
    {
        self.rows[c] = self.rows[c].with(p);
    }

    /// Kind p is taken out of row c.
    pub fn remove(&mut self, c: usize, p: usize)
        requires { (c < 128) × (p < 128) }
        ensures { Removed self.old self.new (λ d q. eqb d c && eqb q p) }
    {
        self.rows[c] = self.rows[c].without(p);
    }

    /// The kinds 8 * q + k of the bits k are put into row c.
    pub fn insert_octet(&mut self, c: usize, q: usize, bits: u8)
        requires { (c < 128) × (q < 16) }
        ensures { Added self.old self.new (λ d p. eqb d c && (leb (8 * q) p && on bits (p - 8 * q))) }
    {
        self.rows[c] = self.rows[c].with_octet(q, bits);
    }

    /// Row c is replaced by a set.
    pub fn set_row(&mut self, c: usize, row: KindSet)
        requires { c < 128 }
        ensures { RowSet c row self.old self.new }
    {
        self.rows[c] = row;
    }

    /// The kinds of a set are put into row c.
    pub fn insert_all(&mut self, c: usize, more: KindSet)
        requires { c < 128 }
        ensures { Added self.old self.new (λ d q. eqb d c && holds more q) }
    {
        self.rows[c] = self.rows[c].union(more);
    }
}
