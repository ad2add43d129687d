// The calls of a house for programs written in C: each answer is one number, and the tables are lent as numbers. C lends them one by one, and
// has a function for each call, so the exports take each table and some have the same body.
#![tactic(auto)]

ghost use Rattle.std.specs.Prelude.{◌≡◌};
ghost use Rattle.stores.specs.Store.{lent_store, save, return_to};
ghost use Rattle.tables.specs.Calls.{open_book, add_rule, take_rule, add_link, take_link, parties, inspect, refresh};
ghost use Rattle.tables.specs.Lists.{make_list};
ghost use Rattle.tables.specs.Tables.{lent};
ghost use Rattle.packing.specs.Packed.{packed_opened, packed_edited, packed_pair, packed_fault, packed_listing, Answers};

use books::{Book, Tables};
use inheritance::{Kind, Mark};
use packing::{pack_done, pack_edited, pack_inspected, pack_listing, pack_pair};
use stores::{Name, Store, StoreMut};
use tables::{Caller, Edit};

/// Open.
#[unsafe(no_mangle)]
pub extern "C" fn house_open(
    n: u16,
    m: u16,
    links: &mut [u8],
    rules: &mut [u16],
    entries: &mut [u16],
    tally: &mut [u32],
    disputes: &mut [u16],
) -> u32
    ensures { Answers packed_opened (open_book n m (lent links.old rules.old entries.old tally.old disputes.old)) result (lent links.new rules.new entries.new tally.new disputes.new) }
{
    let mut book = Book {
        n,
        m,
        links,
        rules,
        entries,
        tally,
        disputes,
    };
    pack_done(calls::open(&mut book))
}

/// Add rule.
#[unsafe(no_mangle)]
pub extern "C" fn house_add_rule(
    n: u16,
    m: u16,
    links: &[u8],
    rules: &mut [u16],
    entries: &mut [u16],
    tally: &mut [u32],
    disputes: &mut [u16],
    caller: u16,
    kind: u16,
    mark: u16,
    handling: u16,
) -> u32
    ensures { Answers packed_edited (add_rule n m (lent links.now rules.old entries.old tally.old disputes.old) caller kind mark handling) result (lent links.now rules.new entries.new tally.new disputes.new) }
{
    pack_edited(calls::add_rule(
        n,
        m,
        links,
        rules,
        entries,
        tally,
        disputes,
        Caller(caller),
        Kind(kind),
        Mark(mark),
        handling,
    ))
}

/// Take rule.
#[unsafe(no_mangle)]
pub extern "C" fn house_take_rule(
    n: u16,
    m: u16,
    links: &[u8],
    rules: &mut [u16],
    entries: &mut [u16],
    tally: &mut [u32],
    disputes: &mut [u16],
    caller: u16,
    kind: u16,
    mark: u16,
) -> u32
    ensures { Answers packed_edited (take_rule n m (lent links.now rules.old entries.old tally.old disputes.old) caller kind mark) result (lent links.now rules.new entries.new tally.new disputes.new) }
{
    let by = Caller(caller);
    let k = Kind(kind);
    let j = Mark(mark);
    pack_edited(calls::take_rule(n, m, links, rules, entries, tally, disputes, by, k, j))
}

/// Add link.
#[unsafe(no_mangle)]
pub extern "C" fn house_add_link(
    n: u16,
    m: u16,
    links: &mut [u8],
    rules: &[u16],
    entries: &mut [u16],
    tally: &mut [u32],
    disputes: &mut [u16],
    caller: u16,
    child: u16,
    parent: u16,
) -> u32
    ensures { Answers packed_edited (add_link n m (lent links.old rules.now entries.old tally.old disputes.old) caller child parent) result (lent links.new rules.now entries.new tally.new disputes.new) }
{
    let by = Caller(caller);
    let c = Kind(child);
    let p = Kind(parent);
    pack_edited(calls::add_link(n, m, links, rules, entries, tally, disputes, by, c, p))
}

/// Take link.
#[unsafe(no_mangle)]
pub extern "C" fn house_take_link(
    n: u16,
    m: u16,
    links: &mut [u8],
    rules: &[u16],
    entries: &mut [u16],
    tally: &mut [u32],
    disputes: &mut [u16],
    caller: u16,
    child: u16,
    parent: u16,
) -> u32
    ensures { Answers packed_edited (take_link n m (lent links.old rules.now entries.old tally.old disputes.old) caller child parent) result (lent links.new rules.now entries.new tally.new disputes.new) }
{
    let by = Caller(caller);
    let c = Kind(child);
    let p = Kind(parent);
    pack_edited(calls::take_link(n, m, links, rules, entries, tally, disputes, by, c, p))
}

/// Refresh.
#[unsafe(no_mangle)]
pub extern "C" fn house_refresh(
    n: u16,
    m: u16,
    links: &[u8],
    rules: &[u16],
    entries: &mut [u16],
    tally: &[u32],
    disputes: &mut [u16],
) -> u32
    ensures { Answers packed_edited (refresh n m (lent links.now rules.now entries.old tally.now disputes.old)) result (lent links.now rules.now entries.new tally.now disputes.new) }
{
    pack_edited(calls::refresh_tables(n, m, links, rules, entries, tally, disputes))
}

/// Inspect.
#[unsafe(no_mangle)]
pub extern "C" fn house_inspect(
    n: u16,
    m: u16,
    links: &[u8],
    rules: &[u16],
    entries: &[u16],
    tally: &[u32],
    disputes: &[u16],
) -> u32
    ensures { result ≡ packed_fault (inspect n m (lent links.now rules.now entries.now tally.now disputes.now)).reply }
{
    let lent = Tables {
        n,
        m,
        links,
        rules,
        entries,
        tally,
        disputes,
    };
    pack_inspected(calls::inspect(&lent))
}

/// Parties.
#[unsafe(no_mangle)]
pub extern "C" fn house_parties(
    n: u16,
    m: u16,
    links: &[u8],
    rules: &[u16],
    entries: &[u16],
    tally: &[u32],
    disputes: &[u16],
    kind: u16,
    mark: u16,
) -> u32
    ensures { result ≡ packed_pair (parties n m (lent links.now rules.now entries.now tally.now disputes.now) kind mark).reply }
{
    let lent = Tables {
        n,
        m,
        links,
        rules,
        entries,
        tally,
        disputes,
    };
    pack_pair(calls::parties(&lent, Kind(kind), Mark(mark)))
}

/// A list of edits, all by one caller.
#[unsafe(no_mangle)]
pub extern "C" fn house_make_list(
    n: u16,
    m: u16,
    edits: &[Edit],
    links: &mut [u8],
    rules: &mut [u16],
    entries: &mut [u16],
    tally: &mut [u32],
    disputes: &mut [u16],
    caller: u16,
) -> u64
    ensures { Answers packed_listing (make_list n m (lent links.old rules.old entries.old tally.old disputes.old) caller edits.now) result (lent links.new rules.new entries.new tally.new disputes.new) }
{
    let caller = Caller(caller);
    let mut book = Book {
        n,
        m,
        links,
        rules,
        entries,
        tally,
        disputes,
    };
    pack_listing(calls::make_list(&mut book, caller, edits))
}

/// Save: only the store is written.
#[unsafe(no_mangle)]
pub extern "C" fn house_save(
    n: u16,
    m: u16,
    links: &[u8],
    rules: &[u16],
    entries: &[u16],
    tally: &[u32],
    disputes: &[u16],
    flags: &mut [u8],
    saved_links: &mut [u8],
    saved_rules: &mut [u16],
    saved_entries: &mut [u16],
    saved_disputes: &mut [u16],
    name: u16,
) -> u32
    ensures { Answers packed_opened (save n m (lent links.now rules.now entries.now tally.now disputes.now) (lent_store flags.old saved_links.old saved_rules.old saved_entries.old saved_disputes.old) name) result (lent_store flags.new saved_links.new saved_rules.new saved_entries.new saved_disputes.new) }
{
    let lent = Tables {
        n,
        m,
        links,
        rules,
        entries,
        tally,
        disputes,
    };
    let mut store = StoreMut {
        flags,
        links: saved_links,
        rules: saved_rules,
        entries: saved_entries,
        disputes: saved_disputes,
    };
    pack_done(calls::save(&lent, &mut store, Name(name)))
}

/// Return: only the book is written.
#[unsafe(no_mangle)]
pub extern "C" fn house_return(
    n: u16,
    m: u16,
    links: &mut [u8],
    rules: &mut [u16],
    entries: &mut [u16],
    tally: &mut [u32],
    disputes: &mut [u16],
    flags: &[u8],
    saved_links: &[u8],
    saved_rules: &[u16],
    saved_entries: &[u16],
    saved_disputes: &[u16],
    caller: u16,
    name: u16,
) -> u32
    ensures { Answers packed_edited (return_to n m (lent links.old rules.old entries.old tally.old disputes.old) (lent_store flags.now saved_links.now saved_rules.now saved_entries.now saved_disputes.now) caller name) result (lent links.new rules.new entries.new tally.new disputes.new) }
{
    let mut book = Book {
        n,
        m,
        links,
        rules,
        entries,
        tally,
        disputes,
    };
    let store = Store {
        flags,
        links: saved_links,
        rules: saved_rules,
        entries: saved_entries,
        disputes: saved_disputes,
    };
    let to = Name(name);
    pack_edited(calls::return_to(&mut book, &store, Caller(caller), to))
}
