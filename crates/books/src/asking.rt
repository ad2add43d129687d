// What calls ask of their kinds and marks: refusals 2, 3 and 4. n and m may be any numbers here and in what has not passed refusal 1, and
// are then no `Size`.
ghost use Rattle.std.specs.Prelude.{◌≡◌};
ghost use Rattle.inheritance.specs.Checked.{kind_below, mark_below};
ghost use Rattle.books.specs.Ask.{asked_at, bare, asked_rule, asked_link};

use inheritance::{Kind, Mark};
use tables::Refusal;

/// A kind and a mark of the book that a call is put to, after refusals 2 and 3, in this order.
pub fn ask_at(n: u16, m: u16, kind: Kind, mark: Mark) -> Result<(Kind, Mark), Refusal>
    ensures { result ≡ asked_at (kind_below n kind.0) (mark_below m mark.0) }
{
    let kind = Kind::new(kind.0, n).ok_or(Refusal::Kind)?;
    let mark = Mark::new(mark.0, m).ok_or(Refusal::Mark)?;
    Ok((kind, mark))
}

/// The same of an edit of a rule, and then refusal 4: a rule that is added has a handling. An edit without one takes the rule.
pub fn ask_rule(
    n: u16,
    m: u16,
    kind: Kind,
    mark: Mark,
    handling: Option<u16>,
) -> Result<(Kind, Mark), Refusal>
    ensures { result ≡ asked_rule (asked_at (kind_below n kind.0) (mark_below m mark.0)) (bare handling) }
{
    let (kind, mark) = ask_at(n, m, kind, mark)?;
    if handling == Some(0) {
        return Err(Refusal::Handling);
    }
    Ok((kind, mark))
}

/// The child and the parent that an edit of a link is put to, after refusal 2 of each.
// Apart from `ask_at`: one function of both would be lent two constructors and two refusals, and would be no plainer.
pub fn ask_link(n: u16, child: Kind, parent: Kind) -> Result<(Kind, Kind), Refusal>
    ensures { result ≡ asked_link (kind_below n child.0) (kind_below n parent.0) }
{
    let child = Kind::new(child.0, n).ok_or(Refusal::Kind)?;
    let parent = Kind::new(parent.0, n).ok_or(Refusal::Kind)?;
    Ok((child, parent))
}
