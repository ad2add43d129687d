// The edits of a link. Nothing is written before the tables are known to be sound. C lends the rules to read only, so the tables come one
// by one and not as a `Book`.
// A `Size` is made by `as`: its numbers have to be known by computation, and `from` is a call.
#![tactic(auto)]

ghost use Rattle.std.specs.Prelude.{◌≡◌, true, ◌<◌};
ghost use Rattle.tables.specs.Caller.{callers};
ghost use Rattle.tables.specs.Calls.{leaves, add_link, take_link};
ghost use Rattle.tables.specs.Reply.{replied};
ghost use Rattle.tables.specs.Tables.{lent, shaped};
ghost use Rattle.relinking.specs.Relinked.{link_edit};
ghost use Rattle.link_edits.specs.LinkEdit.{link_call};

use books::{Tables, ask_link};
use inheritance::Kind;
use relinking::set_link;
use ruling::Prepared;
use soundness::examine;
use tables::{Caller, Refusal, Size};

// The link between two kinds of the book is added or taken: as `edit_rule` does for a rule, but other tables are written, so the two cannot
// share a body. `adding` stays a bool, here and in what calls this: no value stands beside it.
fn edit_link(
    size: Size,
    links: &mut [u8],
    rules: &[u16],
    entries: &mut [u16],
    tally: &mut [u32],
    disputes: &mut [u16],
    caller: Caller,
    child: Kind,
    parent: Kind,
    adding: bool,
) -> Result<u16, Refusal>
    requires shaped { shaped size.n size.m (lent links.old rules.now entries.old tally.old disputes.old) ≡ true }
    requires in_range { (caller.0 < callers) × (child.0 < size.n) × (parent.0 < size.n) }
    ensures { leaves (replied result) (lent links.new rules.now entries.new tally.new disputes.new)
        ≡ link_edit size.n size.m (lent links.old rules.now entries.old tally.old disputes.old) caller.0 child.0 parent.0 adding }
{
    let mut prepared = Prepared::empty();
    let sound = examine(size, links, rules, entries, disputes, &mut prepared);
    if !sound {
        return Err(Refusal::Unsound);
    }
    set_link(
        &mut prepared,
        size,
        links,
        rules,
        entries,
        tally,
        disputes,
        caller,
        child,
        parent,
        adding,
    )
}

// The link between any two kinds is added or taken.
fn change_link(
    n: u16,
    m: u16,
    links: &mut [u8],
    rules: &[u16],
    entries: &mut [u16],
    tally: &mut [u32],
    disputes: &mut [u16],
    caller: Caller,
    child: Kind,
    parent: Kind,
    adding: bool,
) -> Result<u16, Refusal>
    ensures { leaves (replied result) (lent links.new rules.now entries.new tally.new disputes.new)
        ≡ link_call n m (lent links.old rules.now entries.old tally.old disputes.old) caller.0 child.0 parent.0 adding }
{
    let lent = Tables {
        n,
        m,
        links,
        rules,
        entries,
        tally,
        disputes,
    };
    let by = lent.ask_caller(caller)?;
    let (child, parent) = ask_link(n, child, parent)?;
    let size = Size {
        n: n as usize,
        m: m as usize,
    };
    edit_link(
        size, links, rules, entries, tally, disputes, by, child, parent, adding,
    )
}

/// A kind gets another as its direct parent.
pub fn add_link(
    n: u16,
    m: u16,
    links: &mut [u8],
    rules: &[u16],
    entries: &mut [u16],
    tally: &mut [u32],
    disputes: &mut [u16],
    caller: Caller,
    child: Kind,
    parent: Kind,
) -> Result<u16, Refusal>
    ensures { leaves (replied result) (lent links.new rules.now entries.new tally.new disputes.new)
        ≡ add_link n m (lent links.old rules.now entries.old tally.old disputes.old) caller.0 child.0 parent.0 }
{
    change_link(
        n, m, links, rules, entries, tally, disputes, caller, child, parent, true,
    )
}

/// A kind loses a direct parent.
pub fn take_link(
    n: u16,
    m: u16,
    links: &mut [u8],
    rules: &[u16],
    entries: &mut [u16],
    tally: &mut [u32],
    disputes: &mut [u16],
    caller: Caller,
    child: Kind,
    parent: Kind,
) -> Result<u16, Refusal>
    ensures { leaves (replied result) (lent links.new rules.now entries.new tally.new disputes.new)
        ≡ take_link n m (lent links.old rules.now entries.old tally.old disputes.old) caller.0 child.0 parent.0 }
{
    change_link(
        n, m, links, rules, entries, tally, disputes, caller, child, parent, false,
    )
}
