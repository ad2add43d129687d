// The forms of the text program: what a line asks for, read from bytes, and the call that it is.
#![tactic(auto)]

mod patterns;
mod requests;

ghost use Rattle.std.specs.Prelude.{◌≡◌};
ghost use Rattle.forms.specs.Forms.{form_of, formed};

use inheritance::{Kind, Mark};
use patterns::fit;
pub use requests::{asked, call_for};

/// What a line asks for. Its numbers are any up to 65,535.
#[derive(Clone, Copy, Debug, PartialEq, Eq)]
pub enum Form {
    Open(u16, u16),
    AddRule(Kind, Mark, u16),
    TakeRule(Kind, Mark),
    AddLink(Kind, Kind),
    TakeLink(Kind, Kind),
    Find(Kind, Mark),
}

/// The form of a line, which comes without its line feed; a bad line has none.
#[tactic(auto, unfolding(crate::specs::Pattern::slots))]
pub fn read(line: &[u8]) -> Option<Form>
    ensures { formed result ≡ form_of line.now }
{
    if 64 < line.len() {
        return None;
    }
    if let Some((n, m, _)) = fit(b"(open ", b"# #)", line) {
        return Some(Form::Open(n, m));
    }
    if let Some((k, m, _)) = fit(b"(find ", b"# #)", line) {
        return Some(Form::Find(Kind(k), Mark(m)));
    }
    if let Some((k, m, h)) = fit(b"(add (rule ", b"# # #))", line) {
        return Some(Form::AddRule(Kind(k), Mark(m), h));
    }
    if let Some((k, m, _)) = fit(b"(take (rule ", b"# #))", line) {
        return Some(Form::TakeRule(Kind(k), Mark(m)));
    }
    if let Some((c, p, _)) = fit(b"(add (under ", b"# #))", line) {
        return Some(Form::AddLink(Kind(c), Kind(p)));
    }
    if let Some((c, p, _)) = fit(b"(take (under ", b"# #))", line) {
        return Some(Form::TakeLink(Kind(c), Kind(p)));
    }
    None
}
