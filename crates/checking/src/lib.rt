// Entries as code tests them: every entry is compared with one step of inheritance from the entries of its kind's parents, and
// in the same pass the dispute entries are counted.
// Numbers are narrowed by `as`: each fits, and `try_from` would add a refusal that cannot come.
#![tactic(auto)]

ghost use Rattle.std.specs.Prelude.{◌≡◌, ◌↔◌, ◌+◌, ◌*◌, ◌<◌, ◌≤◌, IsTrue, drop, get_or, length, replicate, take};
ghost use Rattle.relation.specs.Bit.{bit};
ghost use Rattle.tables.specs.Step.{kind_right, right};
ghost use Rattle.tables.specs.Tables.{disputes_of, Sized};
ghost use Rattle.merging.specs.Merged.{merged, given};
ghost use Rattle.ruling.specs.Ready.{Ready};
ghost use Rattle.checking.specs.Checked.{Checked};

use counting::count_entry;
use deciding::decide_row;
use merging::{merge, merge_parents, own};
use relation::Relation;
use ruling::Prepared;
use tables::{Marks, Size};

// Whether the entries of kind c are those of the row.
fn row_right(m: usize, entries: &[u16], c: usize, out: &[u16; 64]) -> bool
    requires { (m ≤ 64) × (c * m + m ≤ length entries.now) }
    ensures { IsTrue result ↔ (take m (drop (c * m) entries.now) ≡ take m out.now) }
{
    entries[c * m..c * m + m] == out[..m]
}

// The entries that kind c would have by its own rules and two rows that its parents give, x from i on and y from k on.
// Whether they are its entries, and none says that the parents differ. Its dispute entries are counted in.
fn check(
    c: usize,
    m: usize,
    rules: &[u16],
    x: &[u16],
    i: usize,
    y: &[u16],
    k: usize,
    entries: &[u16],
    out: &mut [u16; 64],
    counts: &mut [u16],
) -> bool
    requires kind_and_row { (c < 128) × (m ≤ 64) × (c * m + m ≤ length rules.now) × (c * m + m ≤ length entries.now) }
    requires parents_and_counts { (i + m ≤ length x.now) × (k + m ≤ length y.now) × (length out.old ≡ 64) × (counts.old ≡ disputes_of c m entries.now) }
    ensures { (Checked m c rules.now entries.now (λ j. merged c (get_or x.now (i + j) 0) (get_or y.now (k + j) 0)) out.new result)
        × (counts.new ≡ disputes_of (c + 1) m entries.now) }
{
    let kind = c as u16;
    let mut all = true;
    // by number: j is the place in six rows, of which two are written
    for j in 0..m {
        let e = own(kind, rules[c * m + j], merge(kind, x[i + j], y[k + j]));
        let entry = entries[c * m + j];
        all = all & ((e == entry) & (e != 257 + kind));
        out[j] = e;
        count_entry(counts, j, entry);
    }
    all
}

// The same for what all the parents of kind c give it. Of one parent or two the rows are taken where they stand, which most
// kinds have; the row of one parent, or of all merged, is given twice, since a row merged with itself is that row.
fn check_row(
    rows: &Relation,
    size: Size,
    rules: &[u16],
    entries: &[u16],
    c: usize,
    out: &mut [u16; 64],
    counts: &mut [u16],
) -> bool
    requires { (Sized size.n size.m rules.now entries.now) × (c < size.n) × (length out.old ≡ 64) × (counts.old ≡ disputes_of c size.m entries.now) }
    ensures { (Checked size.m c rules.now entries.now (given size.m (bit rows.now) entries.now c size.n) out.new result)
        × (counts.new ≡ disputes_of (c + 1) size.m entries.now) }
{
    let n = size.n;
    let m = size.m;
    let mut rest = rows.row(c);
    if let Some(first) = rest.take_first(n) {
        let Some(second) = rest.take_first(n) else {
            return check(
                c,
                m,
                rules,
                entries,
                first * m,
                entries,
                first * m,
                entries,
                out,
                counts,
            );
        };
        if rest.take_first(n).is_none() {
            return check(
                c,
                m,
                rules,
                entries,
                first * m,
                entries,
                second * m,
                entries,
                out,
                counts,
            );
        }
    }
    let mut all = [0u16; 64];
    let marks = Marks { size, lo: 0, hi: m };
    merge_parents(rows, marks, entries, c, &mut all);
    check(c, m, rules, &all, 0, &all, 0, entries, out, counts)
}

// Whether the entries of kind c are what its own rules, its parents' entries and the kinds left give. Its dispute entries are
// counted in.
fn kind_right(
    prepared: &Prepared,
    size: Size,
    rules: &[u16],
    entries: &[u16],
    c: usize,
    out: &mut [u16; 64],
    counts: &mut [u16],
) -> bool
    requires sized { Sized size.n size.m rules.now entries.now }
    requires ready { Ready size.n size.m rules.now prepared.now }
    requires kind_and_counts { (c < size.n) × (length out.old ≡ 64) × (counts.old ≡ disputes_of c size.m entries.now) }
    ensures { (result ≡ kind_right size.n size.m (bit prepared.now.order.rows) rules.now entries.now c) × (length out.new ≡ 64)
        × (counts.new ≡ disputes_of (c + 1) size.m entries.now) }
{
    let order = &prepared.order;
    if check_row(&order.rows, size, rules, entries, c, out, counts) {
        return true;
    }
    let marks = Marks {
        size,
        lo: 0,
        hi: size.m,
    };
    decide_row(prepared, marks, c, out);
    row_right(size.m, entries, c, out)
}

/// Whether every entry is what its kind's own rules, its parents' entries and the kinds left give. The counts, which are 0, become
/// those of the dispute entries.
pub fn entries_right(
    prepared: &Prepared,
    size: Size,
    rules: &[u16],
    entries: &[u16],
    counts: &mut [u16],
) -> bool
    requires sized { Sized size.n size.m rules.now entries.now }
    requires ready { Ready size.n size.m rules.now prepared.now }
    requires counts { counts.old ≡ replicate size.m 0 }
    ensures { (result ≡ right size.n size.m (bit prepared.now.order.rows) rules.now entries.now) × (counts.new ≡ disputes_of size.n size.m entries.now) }
{
    let mut out = [0u16; 64];
    let mut all = true;
    // by number: c names the kind in the rows of four tables
    for c in 0..size.n {
        all = all & kind_right(prepared, size, rules, entries, c, &mut out, counts);
    }
    all
}
