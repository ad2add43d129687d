// Refusal 1: whether n and m are in their ranges and the tables of a book have exactly their lengths.
ghost use Rattle.std.specs.Prelude.{◌≡◌};
ghost use Rattle.tables.specs.Controller.{shaped_bytes};
ghost use Rattle.tables.specs.Tables.{lent, sized, shaped};

use inheritance::{Kind, Mark};
use tables::TALLIES;

// Whether n and m are in their ranges and the five tables have exactly their lengths, which are given. A number of 16 bits
// takes short elements of its table, and one of 32 bits long. The && is for speed: with & in its place the find of the line
// controllers takes a tenth longer. The widening is by `as`: a `usize::from` is a call, of whose answer the proof would have to be told
// at each of the eight.
fn sized(
    short: u16,
    long: u16,
    n: u16,
    m: u16,
    links: usize,
    rules: usize,
    entries: usize,
    tally: usize,
    disputes: usize,
) -> bool
    ensures { result ≡ sized short long n m links rules entries tally disputes }
{
    let places = short as usize * (n as usize * m as usize);
    (1 <= n)
        & (n <= Kind::MOST)
        & (1 <= m)
        & (m <= Mark::MOST)
        & (links == n as usize * n as usize)
        & (rules == places)
        && (entries == places)
            & (tally == long as usize * TALLIES)
            & (disputes == short as usize * m as usize)
}

/// Whether tables of numbers have the lengths of a book of n kinds and m marks.
pub fn shape(
    n: u16,
    m: u16,
    links: &[u8],
    rules: &[u16],
    entries: &[u16],
    tally: &[u32],
    disputes: &[u16],
) -> bool
    ensures { result ≡ shaped n m (lent links.now rules.now entries.now tally.now disputes.now) }
{
    sized(
        1,
        1,
        n,
        m,
        links.len(),
        rules.len(),
        entries.len(),
        tally.len(),
        disputes.len(),
    )
}

/// The same of tables of bytes. The two stay apart: one function would take the widths, which are the book's own and no caller's to choose.
pub fn shape_bytes(
    n: u16,
    m: u16,
    links: &[u8],
    rules: &[u8],
    entries: &[u8],
    tally: &[u8],
    disputes: &[u8],
) -> bool
    ensures { result ≡ shaped_bytes n m (lent links.now rules.now entries.now tally.now disputes.now) }
{
    sized(
        2,
        4,
        n,
        m,
        links.len(),
        rules.len(),
        entries.len(),
        tally.len(),
        disputes.len(),
    )
}
