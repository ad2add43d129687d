// One step of inheritance for a row, the entries of one kind for a range of marks: what the parents of the kind give it, folded
// one after another, and then its own rules.
// Numbers are narrowed by `as`: each fits, and `try_from` would add a refusal that cannot come.
// Kinds are plain numbers here, as in all that works on rows, and below 128 by a clause: with a type for them each entry would be cast. Of a row
// that is lent as an array the length is asked by a clause too, since behind a `&mut` proofs do not know it.
#![tactic(auto)]

ghost use Rattle.std.specs.Prelude.{◌≡◌, ◌+◌, ◌*◌, ◌<◌, ◌≤◌, get_or, length};
ghost use Rattle.relation.specs.Bit.{bit};
ghost use Rattle.deciding.specs.Row.{Row};
ghost use Rattle.merging.specs.Merged.{merged, ruled, given, agreed};

use inheritance::Lookup;
use relation::Relation;
use tables::Marks;

/// One more parent's entry b, folded into a, what the parents so far give kind c: another rule than that of b, or another
/// dispute, differs from it.
pub fn merge(c: u16, a: u16, b: u16) -> u16
    requires { c < 128 }
    ensures { result ≡ merged c a b }
{
    match Lookup::from(b) {
        Lookup::None => a,
        Lookup::Rule(k) => {
            if (a == 0) | (a == k.0 + 1) {
                b
            } else {
                257 + c
            }
        }
        Lookup::Dispute(k) => {
            if (a == 0) | (a == k.0 + 257) {
                b
            } else {
                257 + c
            }
        }
    }
}

/// The entry of kind c with the given own rule, where its parents give it e.
pub fn own(c: u16, rule: u16, e: u16) -> u16
    requires { c < 128 }
    ensures { result ≡ ruled c rule e }
{
    if rule == 0 { e } else { c + 1 }
}

// The entries of parent p are taken as they are, by a loop: by `copy_from_slice`, which calls memmove for each of so few entries, a refresh of
// a small book took a tenth longer.
fn take_row(marks: Marks, p: usize, entries: &[u16], out: &mut [u16; 64])
    requires { (length out.old ≡ 64) × (p * marks.size.m + marks.size.m ≤ length entries.now) }
    ensures { Row marks.lo marks.hi (λ j. get_or entries.now (p * marks.size.m + j) 0) out.new }
{
    let row = p * marks.size.m;
    for j in marks.lo..marks.hi {
        out[j] = entries[row + j];
    }
}

// The entries of parent p are folded into those of kind c.
fn merge_row(c: u16, marks: Marks, p: usize, entries: &[u16], out: &mut [u16; 64])
    requires { (c < 128) × (length out.old ≡ 64) × (p * marks.size.m + marks.size.m ≤ length entries.now) }
    ensures { Row marks.lo marks.hi (λ j. merged c (get_or out.old j 0) (get_or entries.now (p * marks.size.m + j) 0)) out.new }
{
    let row = p * marks.size.m;
    // by number: j is the place in both rows, of which one is written
    for j in marks.lo..marks.hi {
        out[j] = merge(c, out[j], entries[row + j]);
    }
}

/// The own rules of kind c win over the entries that its parents give it. Whether no entry then says that the parents differ.
pub fn own_row(c: usize, marks: Marks, rules: &[u16], out: &mut [u16; 64]) -> bool
    requires { (c < 128) × (length out.old ≡ 64) × (c * marks.size.m + marks.size.m ≤ length rules.now) }
    ensures row { Row marks.lo marks.hi (λ j. ruled c (get_or rules.now (c * marks.size.m + j) 0) (get_or out.old j 0)) out.new }
    ensures all { result ≡ agreed c marks.lo marks.hi (λ j. ruled c (get_or rules.now (c * marks.size.m + j) 0) (get_or out.old j 0)) }
{
    let k = c as u16;
    let row = c * marks.size.m;
    let mut all = true;
    // by number: j is the place in both rows, of which one is written
    for j in marks.lo..marks.hi {
        let e = own(k, rules[row + j], out[j]);
        all = all & (e != 257 + k);
        out[j] = e;
    }
    all
}

/// What the parents of kind c give it.
pub fn merge_parents(rows: &Relation, marks: Marks, entries: &[u16], c: usize, out: &mut [u16; 64])
    requires { (c < 128) × (length entries.now ≡ marks.size.n * marks.size.m) × (length out.old ≡ 64) }
    ensures { Row marks.lo marks.hi (given marks.size.m (bit rows.now) entries.now c marks.size.n) out.new }
{
    let mut rest = rows.row(c);
    let Some(first) = rest.take_first(marks.size.n) else {
        *out = [0u16; 64];
        return;
    };
    take_row(marks, first, entries, out);
    while let Some(p) = rest.take_first(marks.size.n) {
        merge_row(c as u16, marks, p, entries, out);
    }
}
