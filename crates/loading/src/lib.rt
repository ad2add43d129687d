// The links of a book, read from bytes that are known to be 0 or 1 into rows of bits: eight bytes are taken at once and
// brought together by shifts.
// n stands alone here, in `relation`, `arranging` and `propagation`: links have no marks, so it is no `Size`.
#![tactic(auto)]

ghost use Rattle.std.specs.Prelude.{◌+◌, ◌*◌, ◌/◌, ◌<◌, ◌≤◌, length};
ghost use Rattle.relation.specs.Bit.{Blank, Octet};
ghost use Rattle.loading.specs.Loaded.{Loaded, Filled, Flags, Tested, Spaced, Word, rows_before, before, one_at};

use relation::{KindSet, Relation};

// The two bytes at i, of 0 and 1, as one number: eight bits apart, the first lowest.
fn two(links: &[u8], i: usize) -> u64
    requires { (i + 2 ≤ length links.now) × (Flags links.now i 2) }
    ensures { Spaced links.now i 2 result }
{
    u64::from(links[i]) | u64::from(links[i + 1]) << 8
}

// The four bytes at i. `four` and `eight` stay apart: by one loop over the bytes C was slower, since they are then not one load.
fn four(links: &[u8], i: usize) -> u64
    requires { (i + 4 ≤ length links.now) × (Flags links.now i 4) }
    ensures { Spaced links.now i 4 result }
{
    two(links, i) | two(links, i + 2) << 16
}

// The eight bytes at i.
fn eight(links: &[u8], i: usize) -> u64
    requires { (i + 8 ≤ length links.now) × (Flags links.now i 8) }
    ensures { Spaced links.now i 8 result }
{
    four(links, i) | four(links, i + 4) << 32
}

// The eight bytes at i, of 0 and 1, as bits: bit k comes to its place by k steps of seven.
fn fold(links: &[u8], i: usize) -> u64
    requires { (i + 8 ≤ length links.now) × (Flags links.now i 8) }
    ensures { Octet (one_at links.now i) 8 result }
{
    let a = eight(links, i);
    let b = a | a >> 7;
    let d = b | b >> 14;
    let e = d | d >> 28;
    e & 255
}

// The first k times eight bytes at i, of 0 and 1, as bits.
fn word(links: &[u8], i: usize, k: usize) -> u64
    requires { (k ≤ 8) × (i + 8 * k ≤ length links.now) × (Flags links.now i (8 * k)) }
    ensures { Word links.now i (8 * k) result }
{
    let mut w = 0u64;
    // by number: q is the place of the eight bytes and of their bits
    for q in 0..k {
        w = w | fold(links, i + 8 * q) << (8 * q);
    }
    w
}

// Row c gets its links up to the last whole eight bytes, a word at a time.
fn load_words(links: &[u8], n: usize, c: usize, rows: &mut Relation)
    requires { (n * n ≤ length links.now) × (n ≤ 128) × (c < n) × (Tested n links.now) × (Filled (rows_before c) n links.now rows.old) }
    ensures { Filled (before c (n / 8 * 8)) n links.now rows.new }
{
    let i = c * n;
    let k = n / 8;
    let low = k.min(8);
    let row = KindSet {
        low: word(links, i, low),
        high: word(links, i + 8 * low, k - low),
    };
    rows.set_row(c, row);
}

// Row c gets its last links, those after the last whole eight bytes.
fn load_rest(links: &[u8], n: usize, c: usize, rows: &mut Relation)
    requires { (n * n ≤ length links.now) × (n ≤ 128) × (c < n) × (Filled (before c (n / 8 * 8)) n links.now rows.old) }
    ensures { Filled (rows_before (c + 1)) n links.now rows.new }
{
    // by number: p is the place of the byte and the kind
    for p in n / 8 * 8..n {
        if links[c * n + p] == 1 {
            rows.insert(c, p);
        }
    }
}

/// The links of a book of n kinds are put into blank rows. Every byte is 0 or 1, and that at place child * n + parent is 1
/// where there is a link.
pub fn load(links: &[u8], n: usize, rows: &mut Relation)
    requires { (n * n ≤ length links.now) × (n ≤ 128) × (Tested n links.now) × (Blank rows.old) }
    ensures { Loaded n links.now rows.new }
{
    // by number: c names the kind in the bytes and in the rows
    for c in 0..n {
        load_words(links, n, c, rows);
        load_rest(links, n, c, rows);
    }
}
