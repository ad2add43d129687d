// An edit of a rule on tables that are known to be sound: the rule is stored, its kind is a rule kind or not, and what it can touch is
// settled. The tables come one by one, since C lends the links to read only.
#![tactic(auto)]

ghost use Rattle.std.specs.Prelude.{◌≡◌, not, ◌<◌, eqb, length};
ghost use Rattle.counting.specs.Counting.{Counted};
ghost use Rattle.relation.specs.Bit.{bit};
ghost use Rattle.ruling.specs.Ready.{Ready};
ghost use Rattle.resettling.specs.Edits.{Reset};
ghost use Rattle.resettling.specs.Known.{Known, Tracked};
ghost use Rattle.tables.specs.Caller.{callers};
ghost use Rattle.tables.specs.Calls.{leaves};
ghost use Rattle.tables.specs.Reply.{replied};
ghost use Rattle.tables.specs.Tables.{Sized, lent};
ghost use Rattle.reruling.specs.Reruled.{stored, rule_edit, RuleUntouched, Applied};

use inheritance::{Kind, Mark};
use relation::Relation;
use resettling::{count_edit, resettle_rule};
use ruling::Prepared;
use tables::{Caller, Refusal, Size};

// The kind at place i is put among the rule kinds of a mark, or taken out where the handling is 0.
fn rerule(ruled: &mut Relation, mark: Mark, i: usize, handling: u16)
    requires { (mark.0 < 64) × (i < 128) }
    ensures { Reset mark.0 i (not (eqb handling 0)) ruled.old ruled.new }
{
    let j = usize::from(mark.0);
    if handling == 0 {
        ruled.remove(j, i);
    } else {
        ruled.insert(j, i);
    }
}

// The rule of a kind for a mark is stored, what it can touch is settled, and the edit is counted. How many entries differ from
// before.
fn apply_rule(
    prepared: &mut Prepared,
    size: Size,
    rules: &mut [u16],
    entries: &mut [u16],
    tally: &mut [u32],
    disputes: &mut [u16],
    caller: Caller,
    kind: Kind,
    mark: Mark,
    handling: u16,
) -> u16
    requires sized { (Sized size.n size.m rules.old entries.old) × (length tally.old ≡ callers) }
    requires in_range { (caller.0 < callers) × (kind.0 < size.n) × (mark.0 < size.m) }
    requires ready_and_counted { (Ready size.n size.m rules.old prepared.old) × (Counted size.m entries.old disputes.old) }
    requires rule_untouched { RuleUntouched size.n size.m kind.0 mark.0 (bit prepared.old.order.rows) (stored size.m rules.old kind.0 mark.0 handling) entries.old }
    ensures applied { Applied size.n size.m caller.0 kind.0 mark.0 (bit prepared.old.order.rows) (stored size.m rules.old kind.0 mark.0 handling) rules.new
        entries.old entries.new tally.old tally.new disputes.new result }
    ensures order { prepared.new.order ≡ prepared.old.order }
    ensures ready { Ready size.n size.m rules.new prepared.new }
{
    rules[size.place(kind, mark)] = handling;
    let order = &prepared.order;
    let at = order.reach.row(usize::from(kind.0)).min().unwrap();
    rerule(&mut prepared.ruled, mark, at, handling);
    let count = resettle_rule(prepared, size, kind, mark, rules, entries, disputes);
    count_edit(tally, caller);
    count
}

/// The rule of a kind of the book for a mark of it is set, and a handling of 0 takes it. Of the links only the promise speaks: the rows
/// have them.
pub fn set_rule(
    prepared: &mut Prepared,
    size: Size,
    links: &[u8],
    rules: &mut [u16],
    entries: &mut [u16],
    tally: &mut [u32],
    disputes: &mut [u16],
    caller: Caller,
    kind: Kind,
    mark: Mark,
    handling: u16,
) -> Result<u16, Refusal>
    requires known { Known size.n size.m (lent links.now rules.old entries.old tally.old disputes.old) prepared.old }
    requires in_range { (caller.0 < callers) × (kind.0 < size.n) × (mark.0 < size.m) }
    ensures outcome { leaves (replied result) (lent links.now rules.new entries.new tally.new disputes.new)
        ≡ rule_edit size.n size.m (lent links.now rules.old entries.old tally.old disputes.old) caller.0 kind.0 mark.0 handling }
    ensures order { prepared.new.order ≡ prepared.old.order }
    ensures tracked { Tracked size.n size.m (lent links.now rules.new entries.new tally.new disputes.new) prepared.new }
{
    if (handling == 0) & (rules[size.place(kind, mark)] == 0) {
        return Err(Refusal::NoRule);
    }
    let count = apply_rule(
        prepared, size, rules, entries, tally, disputes, caller, kind, mark, handling,
    );
    Ok(count)
}
