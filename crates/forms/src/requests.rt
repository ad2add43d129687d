// From a form to the call that it asks for.
ghost use Rattle.std.specs.Prelude.{◌≡◌};
ghost use Rattle.tables.specs.Reply.{given};
ghost use Rattle.tables.specs.Books.{call_of};
ghost use Rattle.forms.specs.Forms.{form_of, formed_as};
ghost use Rattle.forms.specs.Requests.{call_for, OfBook, OfBookIf, wanted};

use crate::{Form, read};
use tables::{Call, Caller, Change, Request};

// The caller that the text program is.
const PROGRAM: Caller = Caller(0);

/// The call that a form asks for on a book of n kinds and m marks.
pub fn call_for(form: Form, n: u16, m: u16) -> Call
    ensures call { given (call_of result) ≡ call_for n m (formed_as form) }
    ensures size { OfBook n m (call_of result) }
{
    let request = match form {
        Form::Open(k, j) => {
            return Call {
                n: k,
                m: j,
                request: Request::Open,
            };
        }
        Form::AddRule(k, j, h) => Request::Edit(PROGRAM, Change::AddRule(k, j, h)),
        Form::TakeRule(k, j) => Request::Edit(PROGRAM, Change::TakeRule(k, j)),
        Form::AddLink(c, p) => Request::Edit(PROGRAM, Change::AddLink(c, p)),
        Form::TakeLink(c, p) => Request::Edit(PROGRAM, Change::TakeLink(c, p)),
        Form::Find(k, j) => Request::Find(k, j),
    };
    Call { n, m, request }
}

/// The call that a line asks for on a book of n kinds and m marks; a bad line asks for none.
pub fn asked(line: &[u8], n: u16, m: u16) -> Option<Call>
    ensures call { wanted result ≡ call_for n m (form_of line.now) }
    ensures size { OfBookIf n m (wanted result) }
{
    let form = read(line)?;
    Some(call_for(form, n, m))
}
