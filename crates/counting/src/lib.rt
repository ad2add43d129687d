// Dispute counts: how many entries of each mark are disputes, counted kind by kind, and kept where an entry changes.
#![tactic(auto)]

ghost use Rattle.std.specs.Prelude.{◌≡◌, ◌+◌, ◌*◌, ◌<◌, ◌≤◌, get_or, length, set};
ghost use Rattle.inheritance.specs.Above.{one_if};
ghost use Rattle.tables.specs.Tables.{is_dispute, disputes_of};
ghost use Rattle.counting.specs.Counting.{counted_in, counted_anew};

// 1 where an entry is a dispute, else 0.
fn dispute(entry: u16) -> u16
    ensures { (result ≡ one_if (is_dispute entry)) × (result ≤ 1) }
{
    u16::from(entry >= 257)
}

/// One more entry of mark j is counted in.
pub fn count_entry(counts: &mut [u16], j: usize, entry: u16)
    requires { (j < length counts.old) × (get_or counts.old j 0 < 128) }
    ensures { counts.new ≡ set counts.old j (counted_in (get_or counts.old j 0) entry) }
{
    counts[j] += dispute(entry);
}

/// An entry of mark j that was counted in changes.
pub fn recount(counts: &mut [u16], j: usize, was: u16, is: u16)
    requires { (j < length counts.old) × (one_if (is_dispute was) ≤ get_or counts.old j 0) × (get_or counts.old j 0 ≤ 128) }
    ensures { counts.new ≡ set counts.old j (counted_anew (get_or counts.old j 0) was is) }
{
    counts[j] = counts[j] + dispute(is) - dispute(was);
}

// The entries of kind c are counted in.
fn count_row(m: usize, entries: &[u16], c: usize, counts: &mut [u16])
    requires { (c < 128) × (c * m + m ≤ length entries.now) × (counts.old ≡ disputes_of c m entries.now) }
    ensures { counts.new ≡ disputes_of (c + 1) m entries.now }
{
    // by number: j is the place in the row and in the counts, which `count_entry` writes
    for j in 0..m {
        count_entry(counts, j, entries[c * m + j]);
    }
}

/// The counts become those of the entries, whatever they were.
// Of any number of marks, so n and m are no `Size`.
pub fn count_disputes(n: usize, m: usize, entries: &[u16], counts: &mut [u16])
    requires { (n ≤ 128) × (length entries.now ≡ n * m) × (length counts.old ≡ m) }
    ensures { counts.new ≡ disputes_of n m entries.now }
{
    counts.fill(0);
    // by number: the contract of `count_row` counts the kinds
    for c in 0..n {
        count_row(m, entries, c, counts);
    }
}
