// Soundness as code: the links are tested and the kinds arranged, the entries are tested, and the dispute counts are compared with
// those that the test of the entries leaves.
// What is filled in place is blank before by a clause: given back, what is filled would be copied, 6 KB of it.
#![tactic(auto)]

ghost use Rattle.std.specs.Prelude.{◌≡◌, ◌↔◌, ◌*◌, ◌≤◌, IsTrue, length};
ghost use Rattle.relation.specs.Bit.{Blank};
ghost use Rattle.tables.specs.Tables.{all_below, byte_right, Sized};
ghost use Rattle.soundness.specs.Examined.{LinksExamined, Examined};

use arranging::Order;
use checking::entries_right;
use loading::load;
use ruling::Prepared;
use tables::Size;

// Whether every dispute count is as it was counted.
fn counts_right(disputes: &[u16], counts: &[u16]) -> bool
    ensures { IsTrue result ↔ (disputes.now ≡ counts.now) }
{
    disputes == counts
}

// Whether every link byte is 0 or 1, without a branch, so that many are tested at once: in C `all`, which stops at the first that is
// not, took four times as long.
fn bytes_right(links: &[u8]) -> bool
    ensures { result ≡ all_below (byte_right links.now) (length links.now) }
{
    let mut good = true;
    for byte in links {
        good = good & (*byte <= 1);
    }
    good
}

/// Whether every link byte is 0 or 1 and no kind is above itself. Where the bytes are so, the links are left in the rows. If
/// both hold, the kinds are left in an order in which each stands before those above it, and in `reach` the places of the kinds
/// at or above each. Both relations were blank.
pub fn examine_links(n: usize, links: &[u8], order: &mut Order) -> bool
    requires links { (n ≤ 128) × (length links.now ≡ n * n) }
    requires blank { (Blank order.old.rows) × (Blank order.old.reach) }
    ensures { LinksExamined n links.now order.new result }
{
    if !bytes_right(links) {
        return false;
    }
    load(links, n, &mut order.rows);
    order.arrange(n)
}

/// Whether the tables are sound: every link byte is 0 or 1, no kind is above itself, every entry equals its lookup, every
/// dispute count is that of its mark's dispute entries. If so, what is worked out of links and rules is left in `prepared`,
/// which was blank.
pub fn examine(
    size: Size,
    links: &[u8],
    rules: &[u16],
    entries: &[u16],
    disputes: &[u16],
    prepared: &mut Prepared,
) -> bool
    requires sized { (Sized size.n size.m rules.now entries.now) × (length links.now ≡ size.n * size.n) × (length disputes.now ≡ size.m) }
    requires blank { (Blank prepared.old.order.rows) × (Blank prepared.old.order.reach) × (Blank prepared.old.ruled) }
    ensures { Examined size.n size.m links.now rules.now entries.now disputes.now prepared.new result }
{
    if !examine_links(size.n, links, &mut prepared.order) {
        return false;
    }
    prepared.rule_rows(rules, size);
    let mut scratch = [0u16; 64];
    let counts = &mut scratch[..size.m];
    let right = entries_right(prepared, size, rules, entries, counts);
    right & counts_right(disputes, counts)
}
