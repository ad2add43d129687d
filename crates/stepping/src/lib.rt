// One step of inheritance: the entries of a kind worked out from its own rules, its parents' entries and, where these differ,
// the kinds left.
// Numbers are narrowed by `as`: each fits, and `try_from` would add a refusal that cannot come.
#![tactic(auto)]

ghost use Rattle.std.specs.Prelude.{◌≡◌, ◌<◌, length};
ghost use Rattle.relation.specs.Bit.{bit};
ghost use Rattle.tables.specs.Step.{stepped};
ghost use Rattle.tables.specs.Tables.{Sized};
ghost use Rattle.deciding.specs.Row.{Row};
ghost use Rattle.ruling.specs.Ready.{Ready};

use deciding::{decide_entry, decide_row};
use merging::{merge, merge_parents, own, own_row};
use ruling::Prepared;
use tables::{Marks, Size};

/// The entries of kind c for the marks from lo to below hi, worked out from its own rules, its parents' entries and, where
/// these differ, the kinds left.
pub fn inherit_row(
    prepared: &Prepared,
    marks: Marks,
    rules: &[u16],
    entries: &[u16],
    c: usize,
    out: &mut [u16; 64],
)
    requires sized { Sized marks.size.n marks.size.m rules.now entries.now }
    requires ready { Ready marks.size.n marks.size.m rules.now prepared.now }
    requires kind { (c < marks.size.n) × (length out.old ≡ 64) }
    ensures { Row marks.lo marks.hi (stepped marks.size.n marks.size.m (bit prepared.now.order.rows) rules.now entries.now c) out.new }
{
    let order = &prepared.order;
    merge_parents(&order.rows, marks, entries, c, out);
    if !own_row(c, marks, rules, out) {
        decide_row(prepared, marks, c, out);
    }
}

/// The entry of kind c for mark j alone, as `inherit_row` works out a row.
pub fn inherit_entry(
    prepared: &Prepared,
    size: Size,
    rules: &[u16],
    entries: &[u16],
    c: usize,
    j: usize,
) -> u16
    requires sized { Sized size.n size.m rules.now entries.now }
    requires ready { Ready size.n size.m rules.now prepared.now }
    requires kind_and_mark { (c < size.n) × (j < size.m) }
    ensures { result ≡ stepped size.n size.m (bit prepared.now.order.rows) rules.now entries.now c j }
{
    let kind = c as u16;
    let m = size.m;
    let order = &prepared.order;
    let mut rest = order.rows.row(c);
    let mut e = 0u16;
    while let Some(p) = rest.take_first(size.n) {
        e = merge(kind, e, entries[p * m + j]);
    }
    let owned = own(kind, rules[c * m + j], e);
    decide_entry(prepared, c, j, owned)
}
