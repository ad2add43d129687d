// Find: the entry at a kind and a mark, with the handling number where it is a rule.
#![tactic(auto)]

ghost use Rattle.std.specs.Prelude.{◌≡◌, ◌+◌, ◌*◌, get_or};
ghost use Rattle.books.specs.Ask.{Within};
ghost use Rattle.books.specs.Lent.{tables_read};
ghost use Rattle.tables.specs.Calls.{handled, finding_of, find};
ghost use Rattle.tables.specs.Reply.{replied_as, found_of};

use books::Tables;
use inheritance::{Kind, Lookup, Mark};
use tables::{Found, Refusal, place};

// The answer to an entry that names owner, whose own rule says handling.
fn handled(owner: Kind, handling: u16) -> Result<Found, Refusal>
    ensures { replied_as found_of result ≡ handled owner.0 handling }
{
    if handling == 0 {
        return Err(Refusal::BadEntry);
    }
    Ok(Found::Rule(owner, handling))
}

// The answer at a kind and a mark of the book. It tests the entry there, and no other part of the tables. n is held against the numbers of
// an entry, so n and m are no `Size`. The find of the line controllers has its own, which for speed does not decode the entry: one
// function of both would decode it.
fn answer(
    n: u16,
    m: u16,
    rules: &[u16],
    entries: &[u16],
    k: Kind,
    j: Mark,
) -> Result<Found, Refusal>
    requires { Within n m rules.now entries.now k j }
    ensures { replied_as found_of result ≡ finding_of n (λ o. get_or rules.now (o * m + j.0) 0) (get_or entries.now (k.0 * m + j.0) 0) }
{
    let entry = entries[place(k, j, m)];
    match Lookup::from(entry) {
        Lookup::None => Ok(Found::None),
        Lookup::Rule(o) => {
            if o.0 < n {
                handled(o, rules[place(o, j, m)])
            } else {
                Err(Refusal::BadEntry)
            }
        }
        Lookup::Dispute(x) => {
            if x.0 < n {
                Ok(Found::Dispute(x))
            } else {
                Err(Refusal::BadEntry)
            }
        }
    }
}

/// None, a kind with its handling number, or a dispute at a kind.
pub fn find(tables: &Tables, kind: Kind, mark: Mark) -> Result<Found, Refusal>
    ensures { replied_as found_of result ≡ (find tables.now.n tables.now.m (tables_read tables.now) kind.0 mark.0).reply }
{
    let (k, j) = tables.ask_place(kind, mark)?;
    answer(tables.n, tables.m, tables.rules, tables.entries, k, j)
}
