// An edit of a link on tables that are known to be sound: the link is judged and stored, all is prepared anew, and what the link can
// touch is settled. The tables come one by one, since C lends the rules to read only.
#![tactic(auto)]

ghost use Rattle.std.specs.Prelude.{◌≡◌, ◌*◌, ◌<◌, length};
ghost use Rattle.inheritance.specs.Above.{Acyclic};
ghost use Rattle.relation.specs.Bit.{bit};
ghost use Rattle.resettling.specs.Known.{Known, Tracked};
ghost use Rattle.tables.specs.Caller.{callers};
ghost use Rattle.tables.specs.Calls.{leaves, accepted};
ghost use Rattle.tables.specs.Reply.{given, replied};
ghost use Rattle.tables.specs.Tables.{lent, up_of};
ghost use Rattle.relinking.specs.Relinked.{linked, judged, link_edit, Relinked};

use arranging::Order;
use inheritance::Kind;
use relation::Relation;
use resettling::{count_edit, resettle_link};
use ruling::Prepared;
use tables::{Caller, Refusal, Size};

// Refusals 7 and 9 of an add, in this order, and 8 of a take. The rows have the links, and `reach` the places of the kinds at
// or above each; `at` is the place of the child. `adding` stays a bool, here and in what follows: no value stands beside it.
fn judge(order: &Order, child: Kind, parent: Kind, at: usize, adding: bool) -> Result<(), Refusal>
    requires { (child.0 < 128) × (parent.0 < 128) × (at < 128) }
    ensures { result ≡ judged adding (bit order.now.rows child.0 parent.0) (bit order.now.reach parent.0 at) }
{
    let c = usize::from(child.0);
    let p = usize::from(parent.0);
    let linked = order.rows.has(c, p);
    let cycle = order.reach.has(p, at);
    if adding {
        if linked {
            Err(Refusal::Linked)
        } else if cycle {
            Err(Refusal::Cycle)
        } else {
            Ok(())
        }
    } else if linked {
        Ok(())
    } else {
        Err(Refusal::NotLinked)
    }
}

// The link is put into the rows or taken out of them, and all is prepared anew.
fn relink(
    prepared: &mut Prepared,
    size: Size,
    rules: &[u16],
    child: Kind,
    parent: Kind,
    adding: bool,
)
    requires { (length rules.now ≡ size.n * size.m) × (child.0 < size.n) × (parent.0 < size.n) }
    ensures { Relinked size.n size.m child.0 parent.0 adding rules.now prepared.old.order.rows prepared.new }
{
    let c = usize::from(child.0);
    let p = usize::from(parent.0);
    let order = &mut prepared.order;
    if adding {
        order.rows.insert(c, p);
    } else {
        order.rows.remove(c, p);
    }
    order.reach = Relation::empty();
    let arranged = order.arrange(size.n);
    prepared.ruled = Relation::empty();
    if arranged {
        prepared.rule_rows(rules, size);
    }
}

// The link is stored, what it can touch is settled, and the edit is counted. How many entries differ from before.
fn apply_link(
    prepared: &mut Prepared,
    size: Size,
    links: &mut [u8],
    rules: &[u16],
    entries: &mut [u16],
    tally: &mut [u32],
    disputes: &mut [u16],
    caller: Caller,
    child: Kind,
    parent: Kind,
    adding: bool,
) -> u16
    requires known { Known size.n size.m (lent links.old rules.now entries.old tally.old disputes.old) prepared.old }
    requires in_range { (caller.0 < callers) × (child.0 < size.n) × (parent.0 < size.n) }
    requires acyclic_after { Acyclic size.n (up_of size.n (linked size.n links.old child.0 parent.0 adding)) }
    ensures outcome { leaves (given result) (lent links.new rules.now entries.new tally.new disputes.new)
        ≡ accepted size.n size.m (lent links.old rules.now entries.old tally.old disputes.old) caller.0
        (linked size.n links.old child.0 parent.0 adding) rules.now }
    ensures tracked { Tracked size.n size.m (lent links.new rules.now entries.new tally.new disputes.new) prepared.new }
{
    links[size.link_place(child, parent)] = u8::from(adding);
    relink(prepared, size, rules, child, parent, adding);
    let count = resettle_link(prepared, size, child, rules, entries, disputes);
    count_edit(tally, caller);
    count
}

/// The link between two kinds of the book is added or taken.
pub fn set_link(
    prepared: &mut Prepared,
    size: Size,
    links: &mut [u8],
    rules: &[u16],
    entries: &mut [u16],
    tally: &mut [u32],
    disputes: &mut [u16],
    caller: Caller,
    child: Kind,
    parent: Kind,
    adding: bool,
) -> Result<u16, Refusal>
    requires known { Known size.n size.m (lent links.old rules.now entries.old tally.old disputes.old) prepared.old }
    requires in_range { (caller.0 < callers) × (child.0 < size.n) × (parent.0 < size.n) }
    ensures outcome { leaves (replied result) (lent links.new rules.now entries.new tally.new disputes.new)
        ≡ link_edit size.n size.m (lent links.old rules.now entries.old tally.old disputes.old) caller.0 child.0 parent.0 adding }
    ensures tracked { Tracked size.n size.m (lent links.new rules.now entries.new tally.new disputes.new) prepared.new }
{
    let order = &prepared.order;
    let at = order.reach.row(usize::from(child.0)).min().unwrap();
    judge(order, child, parent, at, adding)?;
    Ok(apply_link(
        prepared, size, links, rules, entries, tally, disputes, caller, child, parent, adding,
    ))
}
