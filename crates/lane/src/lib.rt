// The find that line controllers written in C put to us.
// Numbers change width by `as`: each fits, and what `from` or `try_from` answers would have to be told to each goal.
#![tactic(auto)]

ghost use Rattle.std.specs.Prelude.{◌≡◌, ◌+◌, ◌*◌, ◌<◌, length, get_or};
ghost use Rattle.books.specs.Ask.{Within};
ghost use Rattle.tables.specs.Calls.{finding_of};
ghost use Rattle.tables.specs.Controller.{words16, packed, find_packed};
ghost use Rattle.tables.specs.Tables.{lent};

use inheritance::{Kind, Mark};
use tables::Refusal;

// The number of 16 bits at a place of a table that is given as bytes, the lowest byte first.
fn word(bytes: &[u8], i: usize) -> u16
    requires { 2 * i + 1 < length bytes.now }
    ensures { result ≡ get_or (words16 bytes.now) i 0 }
{
    let low = bytes[2 * i] as u16;
    let high = bytes[2 * i + 1] as u16;
    low + 256 * high
}

// The packed answer at a kind and a mark of the book. The entry is not decoded, since a packed answer has it as its upper half;
// its tests are those of find. None and a dispute are packed alike, so that which of the two it is costs no guess. The rule of
// kind entry - 1 stands a row before the place of kind entry: so the product need not wait for a difference.
fn answer(n: u16, m: u16, rules: &[u8], entries: &[u8], k: Kind, j: Mark) -> u32
    requires { Within n m (words16 rules.now) (words16 entries.now) k j }
    ensures { result ≡ packed (finding_of n (λ o. get_or (words16 rules.now) (o * m + j.0) 0) (get_or (words16 entries.now) (k.0 * m + j.0) 0)) }
{
    let entry = word(entries, tables::place(k, j, m));
    if (1 <= entry) & (entry <= n) {
        let row_after = tables::place(Kind(entry), j, m);
        let handling = word(rules, row_after - m as usize);
        if handling == 0 {
            Refusal::BadEntry as u32
        } else {
            65536 * entry as u32 + handling as u32
        }
    } else if (entry == 0) | (257 <= entry) & (entry <= 256 + n) {
        65536 * entry as u32
    } else {
        Refusal::BadEntry as u32
    }
}

/// Find: the tables are bytes, and the answer is one number.
// Refusals 2 and 3 are answered where they are found: given on as a value they
// cost the find a few in 100.
#[unsafe(no_mangle)]
pub extern "C" fn lane_find(
    n: u16,
    m: u16,
    links: &[u8],
    rules: &[u8],
    entries: &[u8],
    tally: &[u8],
    disputes: &[u8],
    kind: u16,
    mark: u16,
) -> u32
    ensures { result ≡ find_packed n m (lent links.now rules.now entries.now tally.now disputes.now) kind mark }
{
    let shaped = books::shape_bytes(n, m, links, rules, entries, tally, disputes);
    if !shaped {
        return Refusal::Shape as u32;
    }
    let Some(k) = Kind::new(kind, n) else {
        return Refusal::Kind as u32;
    };
    let Some(j) = Mark::new(mark, m) else {
        return Refusal::Mark as u32;
    };
    answer(n, m, rules, entries, k, j)
}
