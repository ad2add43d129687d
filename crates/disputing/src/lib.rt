// Parties: the two lowest kinds left at a kind whose entry is a dispute.
// A `Size` is made by `as`: its numbers have to be known by computation, and `from` is a call.
#![tactic(auto)]

ghost use Rattle.std.specs.Prelude.{◌≡◌, List, ℕ, ◌*◌, length};
ghost use Rattle.books.specs.Ask.{Within};
ghost use Rattle.books.specs.Lent.{tables_read};
ghost use Rattle.tables.specs.Calls.{parties};
ghost use Rattle.tables.specs.Reply.{replied_as, kinds_of};
ghost use Rattle.tables.specs.Tables.{lent};
ghost use Rattle.disputing.specs.Parties.{parties_at};

use books::Tables;
use inheritance::{Kind, Mark};
use ruling::Prepared;
use tables::{Refusal, Size};

// The answer at a kind and a mark of the book.
fn answer(
    size: Size,
    links: &[u8],
    rules: &[u16],
    entries: &[u16],
    disputes: &[u16],
    k: Kind,
    j: Mark,
) -> Result<(Kind, Kind), Refusal>
    requires { (Within size.n size.m rules.now entries.now k j) × (length links.now ≡ size.n * size.n) × (length disputes.now ≡ size.m) }
    ensures { (tally : List ℕ) → replied_as kinds_of result ≡ (parties_at size.n size.m (lent links.now rules.now entries.now tally disputes.now) k.0 j.0).reply }
{
    let mut prepared = Prepared::empty();
    let sound = soundness::examine(size, links, rules, entries, disputes, &mut prepared);
    if !sound {
        return Err(Refusal::Unsound);
    }
    if entries[size.place(k, j)] < 257 {
        return Err(Refusal::NoDispute);
    }
    parting::left_pair(&prepared, size.n, k, j)
}

/// The lowest kind left at the kind, then the second lowest.
pub fn parties(tables: &Tables, kind: Kind, mark: Mark) -> Result<(Kind, Kind), Refusal>
    ensures { replied_as kinds_of result ≡ (parties tables.now.n tables.now.m (tables_read tables.now) kind.0 mark.0).reply }
{
    let (k, j) = tables.ask_place(kind, mark)?;
    let size = Size {
        n: tables.n as usize,
        m: tables.m as usize,
    };
    answer(
        size,
        tables.links,
        tables.rules,
        tables.entries,
        tables.disputes,
        k,
        j,
    )
}
