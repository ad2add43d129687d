// The edits of a rule. Nothing is written before the tables are known to be sound. C lends the links to read only, so these functions, and
// those below and in `link_edits`, take the tables one by one and not as a `Book`.
// A `Size` is made by `as`: its numbers have to be known by computation, and `from` is a call.
#![tactic(auto)]

ghost use Rattle.std.specs.Prelude.{◌≡◌, true, ◌<◌};
ghost use Rattle.tables.specs.Caller.{callers};
ghost use Rattle.tables.specs.Calls.{leaves, add_rule, take_rule};
ghost use Rattle.tables.specs.Reply.{replied};
ghost use Rattle.tables.specs.Tables.{lent, shaped};
ghost use Rattle.reruling.specs.Reruled.{rule_edit};
ghost use Rattle.rule_edits.specs.RuleEdit.{rule_call};

use books::{Tables, ask_rule};
use inheritance::{Kind, Mark};
use reruling::set_rule;
use ruling::Prepared;
use soundness::examine;
use tables::{Caller, Refusal, Size};

// The rule of a kind of the book for a mark of it is set, and a handling of 0 takes it.
fn edit_rule(
    size: Size,
    links: &[u8],
    rules: &mut [u16],
    entries: &mut [u16],
    tally: &mut [u32],
    disputes: &mut [u16],
    caller: Caller,
    kind: Kind,
    mark: Mark,
    handling: u16,
) -> Result<u16, Refusal>
    requires shaped { shaped size.n size.m (lent links.now rules.old entries.old tally.old disputes.old) ≡ true }
    requires in_range { (caller.0 < callers) × (kind.0 < size.n) × (mark.0 < size.m) }
    ensures { leaves (replied result) (lent links.now rules.new entries.new tally.new disputes.new)
        ≡ rule_edit size.n size.m (lent links.now rules.old entries.old tally.old disputes.old) caller.0 kind.0 mark.0 handling }
{
    let mut prepared = Prepared::empty();
    let sound = examine(size, links, rules, entries, disputes, &mut prepared);
    if !sound {
        return Err(Refusal::Unsound);
    }
    set_rule(
        &mut prepared,
        size,
        links,
        rules,
        entries,
        tally,
        disputes,
        caller,
        kind,
        mark,
        handling,
    )
}

// The rule of any kind for any mark is set, or taken where no handling is given.
fn change_rule(
    n: u16,
    m: u16,
    links: &[u8],
    rules: &mut [u16],
    entries: &mut [u16],
    tally: &mut [u32],
    disputes: &mut [u16],
    caller: Caller,
    kind: Kind,
    mark: Mark,
    handling: Option<u16>,
) -> Result<u16, Refusal>
    ensures { leaves (replied result) (lent links.now rules.new entries.new tally.new disputes.new)
        ≡ rule_call n m (lent links.now rules.old entries.old tally.old disputes.old) caller.0 kind.0 mark.0 handling }
{
    let lent = Tables {
        n,
        m,
        links,
        rules,
        entries,
        tally,
        disputes,
    };
    let by = lent.ask_caller(caller)?;
    let (kind, mark) = ask_rule(n, m, kind, mark, handling)?;
    let stored = handling.unwrap_or(0);
    let size = Size {
        n: n as usize,
        m: m as usize,
    };
    edit_rule(
        size, links, rules, entries, tally, disputes, by, kind, mark, stored,
    )
}

/// A kind gets its own rule for a mark. A rule already there is replaced.
pub fn add_rule(
    n: u16,
    m: u16,
    links: &[u8],
    rules: &mut [u16],
    entries: &mut [u16],
    tally: &mut [u32],
    disputes: &mut [u16],
    caller: Caller,
    kind: Kind,
    mark: Mark,
    handling: u16,
) -> Result<u16, Refusal>
    ensures { leaves (replied result) (lent links.now rules.new entries.new tally.new disputes.new)
        ≡ add_rule n m (lent links.now rules.old entries.old tally.old disputes.old) caller.0 kind.0 mark.0 handling }
{
    change_rule(
        n,
        m,
        links,
        rules,
        entries,
        tally,
        disputes,
        caller,
        kind,
        mark,
        Some(handling),
    )
}

/// A kind loses its own rule for a mark.
pub fn take_rule(
    n: u16,
    m: u16,
    links: &[u8],
    rules: &mut [u16],
    entries: &mut [u16],
    tally: &mut [u32],
    disputes: &mut [u16],
    caller: Caller,
    kind: Kind,
    mark: Mark,
) -> Result<u16, Refusal>
    ensures { leaves (replied result) (lent links.now rules.new entries.new tally.new disputes.new)
        ≡ take_rule n m (lent links.now rules.old entries.old tally.old disputes.old) caller.0 kind.0 mark.0 }
{
    change_rule(
        n, m, links, rules, entries, tally, disputes, caller, kind, mark, None,
    )
}
