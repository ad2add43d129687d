// Entries written place by place and counted where they were others, the dispute counts following.
// Entries and dispute counts stay two parameters, here and above, and that the counts are those of the entries (`Counted`) a clause: a
// value of two loans would have each function promise to keep their names, and the counts are wrong between two writes.
#![tactic(auto)]

ghost use Rattle.std.specs.Prelude.{◌≡◌, ◌+◌, ◌*◌, ◌<◌, ◌≤◌, get_or, length, set};
ghost use Rattle.counting.specs.Counting.{Counted};
ghost use Rattle.tables.specs.Tables.{differ};
ghost use Rattle.writing.specs.Written.{Written};

use counting::recount;
use tables::Marks;

// An entry is written. 1 where it was another.
fn put(entries: &mut [u16], i: usize, e: u16) -> u16
    requires { i < length entries.old }
    ensures { (entries.new ≡ set entries.old i e) × (result ≡ differ (get_or entries.old i 0) e) × (result ≤ 1) }
{
    let was = entries[i];
    entries[i] = e;
    u16::from(was != e)
}

/// The entry of kind c for mark j is written, and the dispute count of the mark follows. 1 where it was another.
pub fn put_counted(
    m: usize,
    c: usize,
    j: usize,
    e: u16,
    entries: &mut [u16],
    disputes: &mut [u16],
) -> u16
    requires { (j < m) × (c * m + j < length entries.old) × (Counted m entries.old disputes.old) }
    ensures { (entries.new ≡ set entries.old (c * m + j) e) × (result ≡ differ (get_or entries.old (c * m + j) 0) e) × (result ≤ 1)
        × (Counted m entries.new disputes.new) }
{
    let i = c * m + j;
    recount(disputes, j, entries[i], e);
    put(entries, i, e)
}

/// The entries of kind c become those of the row. How many were others.
pub fn write_row(
    marks: Marks,
    c: usize,
    out: &[u16; 64],
    entries: &mut [u16],
    disputes: &mut [u16],
) -> u16
    requires { (c * marks.size.m + marks.size.m ≤ length entries.old) × (Counted marks.size.m entries.old disputes.old) }
    ensures { (result ≤ 64) × (Written marks.size.m marks.lo marks.hi c (λ j. get_or out.now j 0) entries.old entries.new result)
        × (Counted marks.size.m entries.new disputes.new) }
{
    let m = marks.size.m;
    let mut count = 0;
    // by number: j is the place in the row, in the entries and in the counts, which are written
    for j in marks.lo..marks.hi {
        count += put_counted(m, c, j, out[j], entries, disputes);
    }
    count
}
