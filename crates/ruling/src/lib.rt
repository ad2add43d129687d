// What is prepared before entries are worked out: the kinds in order, and the rule kinds of each mark by their places there. These are
// gathered eight places at once, mark after mark.
#![tactic(auto)]

ghost use Rattle.std.specs.Prelude.{◌≡◌, ◌&&◌, ℕ, ◌+◌, ◌-◌, ◌*◌, ◌/◌, ◌<◌, ◌≤◌, eqb, leb, ltb, get_or, length};
ghost use Rattle.relation.specs.Bit.{on, Blank, Octet, Added};
ghost use Rattle.tables.specs.Tables.{own_of};
ghost use Rattle.ruling.specs.Ruling.{Ruled, Standing, Octets};

use arranging::Order;
use relation::Relation;
use tables::Size;

// Whether kind c has an own rule for mark j.
fn has_rule(rules: &[u16], m: usize, c: usize, j: usize) -> bool
    requires { (j < m) × (c * m + m ≤ length rules.now) }
    ensures { result ≡ own_of m rules.now j c }
{
    rules[c * m + j] != 0
}

// Which of the eight kinds at the places from i on have an own rule for mark j: bit k for place i + k.
fn rule_octet(rules: &[u16], m: usize, order: &[u8; 128], i: usize, j: usize) -> u8
    requires { (j < m) × (i + 8 ≤ 128) × (Standing m rules.now order.now (i + 8)) }
    ensures { Octet (λ k. own_of m rules.now j (get_or order.now (i + k) 0)) 8 result }
{
    let mut bits = 0u8;
    // by number: k is the place in the order and the bit
    for k in 0..8 {
        bits = bits | u8::from(has_rule(rules, m, usize::from(order[i + k]), j)) << k;
    }
    bits
}

// The same for every mark. Apart from `mark_octets` so that several marks are taken at once.
fn rule_octets(rules: &[u16], m: usize, order: &[u8; 128], i: usize, bits: &mut [u8; 64])
    requires { (m ≤ 64) × (i + 8 ≤ 128) × (Standing m rules.now order.now (i + 8)) × (length bits.old ≡ 64) }
    ensures { Octets m m rules.now order.now i bits.new }
{
    // by number, here and below: j is the mark in the rules and in what is written
    for j in 0..m {
        bits[j] = rule_octet(rules, m, order, i, j);
    }
}

// The places 8 * q + k of the bits k for mark j are put into row j of ruled, for each mark.
fn mark_octets(m: usize, q: usize, bits: &[u8; 64], ruled: &mut Relation)
    requires { (m ≤ 64) × (q < 16) × ((j : ℕ) → j < m → get_or bits.now j 0 < 256) }
    ensures { Added ruled.old ruled.new (λ j p. ltb j m && (leb (8 * q) p && on (get_or bits.now j 0) (p - 8 * q))) }
{
    for j in 0..m {
        ruled.insert_octet(j, q, bits[j]);
    }
}

// The place i is put into row j of ruled for each mark j for which the kind there has an own rule.
fn rule_row(rules: &[u16], m: usize, order: &[u8; 128], i: usize, ruled: &mut Relation)
    requires { (i < 128) × (m ≤ 64) × (Standing m rules.now order.now (i + 1)) }
    ensures { Added ruled.old ruled.new (λ j q. eqb q i && (ltb j m && own_of m rules.now j (get_or order.now i 0))) }
{
    let c = usize::from(order[i]);
    for j in 0..m {
        if has_rule(rules, m, c, j) {
            ruled.insert(j, i);
        }
    }
}

// The places after the last eight, fewer than eight.
fn rule_rest(rules: &[u16], size: Size, order: &[u8; 128], ruled: &mut Relation)
    requires { (Standing size.m rules.now order.now size.n) × (Ruled (size.n / 8 * 8) size.m rules.now order.now ruled.old) }
    ensures { Ruled size.n size.m rules.now order.now ruled.new }
{
    // by number: i is the place in the order that is put into the rows
    for i in size.n / 8 * 8..size.n {
        rule_row(rules, size.m, order, i, ruled);
    }
}

/// What entries are worked out from besides rules and entries: the kinds in order, and in row j of `ruled` the places of the rule kinds
/// of mark j.
// That it is right for a book (`Ready`) stays a clause: it is so for the caller's rules, which an edit writes while this is kept.
#[derive(Drop)]
pub struct Prepared {
    pub order: Order,
    pub ruled: Relation,
}

impl Prepared {
    /// Nothing is prepared.
    pub fn empty() -> Prepared
        ensures rows { Blank result.order.rows }
        ensures reach { Blank result.order.reach }
        ensures ruled { Blank result.ruled }
    {
        Prepared {
            order: Order::empty(),
            ruled: Relation::empty(),
        }
    }

    /// Row j of `ruled`, which was blank, gets the places of the rule kinds of mark j, for each mark.
    pub fn rule_rows(&mut self, rules: &[u16], size: Size)
        requires rules { length rules.now ≡ size.n * size.m }
        requires kinds { (i : ℕ) → i < size.n → get_or self.old.order.kinds i 0 < size.n }
        requires blank { Blank self.old.ruled }
        ensures order { self.new.order ≡ self.old.order }
        ensures ruled { Ruled size.n size.m rules.now self.new.order.kinds self.new.ruled }
    {
        let order = &self.order;
        let ruled = &mut self.ruled;
        let mut bits = [0u8; 64];
        // by number: eight places at once
        for q in 0..size.n / 8 {
            rule_octets(rules, size.m, &order.kinds, 8 * q, &mut bits);
            mark_octets(size.m, q, &bits, ruled);
        }
        rule_rest(rules, size, &order.kinds, ruled);
    }
}
