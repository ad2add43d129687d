// Save: the tables of a book are copied into its store under a name. Only the store is written.
#![tactic(auto)]

ghost use Rattle.std.specs.Prelude.{◌≡◌, OnErr};
ghost use Rattle.books.specs.Lent.{tables_read};
ghost use Rattle.stores.specs.Lent.{SameStore, store_of};
ghost use Rattle.stores.specs.Store.{save};
ghost use Rattle.tables.specs.Calls.{leaves};
ghost use Rattle.tables.specs.Reply.{replied};

use books::Tables;
use copying::copy_at;
use stores::{Name, StoreMut};
use tables::Refusal;

/// The tables, sound or not, are saved under a name: each is copied to its place there, but for the tally, which is no part of a state,
/// and the flag of the name is set. A state that was saved under it before is replaced.
pub fn save(tables: &Tables, store: &mut StoreMut, name: Name) -> Result<(), Refusal>
    ensures same { SameStore store.old store.new }
    ensures outcome { leaves (replied result) (store_of store.new) ≡ save tables.now.n tables.now.m (tables_read tables.now) (store_of store.old) name.0 }
    ensures refused { OnErr result (store_of store.new ≡ store_of store.old) }
{
    let shaped = tables.is_shaped();
    let room = store.read().is_shaped(tables.n, tables.m);
    if !(shaped & room) {
        return Err(Refusal::Shape);
    }
    let known = Name::new(name.0).ok_or(Refusal::Name)?;
    let number = usize::from(known.0);
    let kinds = usize::from(tables.n);
    let marks = usize::from(tables.m);
    let pairs = kinds * kinds;
    let places = kinds * marks;
    let flags = &mut *store.flags;
    let links = &mut *store.links;
    let rules = &mut *store.rules;
    let entries = &mut *store.entries;
    let disputes = &mut *store.disputes;
    copy_at(tables.links, links, number * pairs);
    copy_at(tables.rules, rules, number * places);
    copy_at(tables.entries, entries, number * places);
    copy_at(tables.disputes, disputes, number * marks);
    flags[number] = 1;
    Ok(())
}
