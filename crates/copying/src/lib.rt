// Tables copied into tables, and how many numbers of two tables differ.
#![tactic(auto)]

ghost use Rattle.std.specs.Prelude.{◌≡◌, ◌+◌, ◌≤◌, ◌++◌, drop, length, take};
ghost use Rattle.tables.specs.Tables.{differing};

/// Every element of a table becomes that of another of its length.
// By a loop: std's `copy_from_slice` calls memmove, a name that a program in C would have to bring, and takes its stack and, of few elements,
// its time.
pub fn copy_over<T: Copy>(from: &[T], to: &mut [T])
    requires { length from.now ≡ length to.old }
    ensures { to.new ≡ from.now }
{
    for i in 0..from.len() {
        to[i] = from[i];
    }
}

/// Every element of a table, in order, becomes one of another from a place on.
pub fn copy_at<T: Copy>(from: &[T], to: &mut [T], at: usize)
    requires { at + length from.now ≤ length to.old }
    ensures { to.new ≡ take at to.old ++ from.now ++ drop (at + length from.now) to.old }
{
    let end = at + from.len();
    copy_over(from, &mut to[at..end]);
}

/// At how many places two tables of entries differ.
#[tactic(auto, unfolding(tables::specs::Tables::differing))]
pub fn count_differing(old: &[u16], new: &[u16]) -> u16
    requires { (length old.now ≡ length new.now) × (length old.now ≤ 8192) }
    ensures { result ≡ differing old.now new.now }
{
    let mut count = 0;
    for (was, is) in old.iter().zip(new) {
        count += u16::from(was != is);
    }
    count
}
