// One line of the text program: the call that it asks for is carried out on the leading parts of the program's tables, and the answer is printed.
#![tactic(auto)]

ghost use Rattle.std.specs.Prelude.{◌≡◌};
ghost use Rattle.tables.specs.Books.{call_of, answered, gives, outcome};
ghost use Rattle.tables.specs.Tables.{lent};
ghost use Rattle.forms.specs.Requests.{OfBook};
ghost use Rattle.session.specs.Line.{carries, line_of};
ghost use Rattle.session.specs.Session.{start};
ghost use Rattle.session.specs.Parts.{Room, book_on, size_after, Carried, Answered};

use answers::{print_answer, print_refused};
use arrayvec::ArrayString;
use books::Book;
use tables::{Answer, Call, Refusal, TALLIES};

/// The program's tables, which have places for 128 kinds and 64 marks, and the size of the book that stands in their leading parts. Before an
/// accepted open, n and m are 0.
#[derive(Drop)]
pub struct Desk {
    pub n: u16,
    pub m: u16,
    pub links: [u8; 16384],
    pub rules: [u16; 8192],
    pub entries: [u16; 8192],
    pub tally: [u32; TALLIES],
    pub disputes: [u16; 64],
}

impl Desk {
    /// The desk before the first line, where no edit is counted yet.
    pub fn new() -> Desk
        ensures { book_on result ≡ start }
    {
        Desk {
            n: 0,
            m: 0,
            links: [0; 16384],
            rules: [0; 8192],
            entries: [0; 8192],
            tally: [0; TALLIES],
            disputes: [0; 64],
        }
    }
}

// The size of the book after a call, by its answer: an accepted open has the size that it names taken over. n and m are 0 before the first.
fn size_after(answer: Answer, call: Call, n: u16, m: u16) -> (u16, u16)
    ensures { result ≡ size_after n m (call_of call) (answered answer) }
{
    match answer {
        Answer::Opened(Ok(())) => (call.n, call.m),
        Answer::Opened(Err(_)) => (n, m),
        Answer::Edited(_) => (n, m),
        Answer::Found(_) => (n, m),
        Answer::Paired(_) => (n, m),
        Answer::Inspected(_) => (n, m),
    }
}

// Carries a call out on a book whose tables are lent apart: the leading parts of arrays come back whole as arguments alone.
fn carry_lent(
    call: Call,
    links: &mut [u8],
    rules: &mut [u16],
    entries: &mut [u16],
    tally: &mut [u32],
    disputes: &mut [u16],
) -> Answer
    ensures { gives (answered result) (lent links.new rules.new entries.new tally.new disputes.new)
        ≡ outcome (call_of call) (lent links.old rules.old entries.old tally.old disputes.old) }
{
    let mut book = Book {
        n: call.n,
        m: call.m,
        links,
        rules,
        entries,
        tally,
        disputes,
    };
    calls::carry_out(&mut book, call.request)
}

// Carries a call out on the leading parts of the tables.
fn carry_out(
    call: Call,
    links: &mut [u8; 16384],
    rules: &mut [u16; 8192],
    entries: &mut [u16; 8192],
    tally: &mut [u32; TALLIES],
    disputes: &mut [u16; 64],
) -> Answer
    ensures room { Room (lent links.old rules.old entries.old tally.old disputes.old) }
    ensures carried { Carried (call_of call)
        (lent links.old rules.old entries.old tally.old disputes.old) (answered result)
        (lent links.new rules.new entries.new tally.new disputes.new) }
{
    let n = usize::from(call.n);
    let m = usize::from(call.m);
    let a = (n * n).min(16384);
    let b = (n * m).min(8192);
    let d = m.min(64);
    carry_lent(
        call,
        &mut links[..a],
        &mut rules[..b],
        &mut entries[..b],
        tally,
        &mut disputes[..d],
    )
}

// Carries a call out on the book, and prints its answer.
fn carry(desk: &mut Desk, call: Call, text: &mut ArrayString<64>)
    requires { OfBook desk.old.n desk.old.m (call_of call) }
    ensures { Answered (λ b. carries b (call_of call)) desk.old desk.new text.new.bytes }
{
    let answer = carry_out(
        call,
        &mut desk.links,
        &mut desk.rules,
        &mut desk.entries,
        &mut desk.tally,
        &mut desk.disputes,
    );
    let (n, m) = size_after(answer, call, desk.n, desk.m);
    desk.n = n;
    desk.m = m;
    print_answer(answer, call.n, call.m, text);
}

/// One line, which comes without its line feed: what it asks for is done to the book, and its answer takes the text's place.
pub fn line(desk: &mut Desk, input: &[u8], text: &mut ArrayString<64>)
    ensures { Answered (λ b. line_of b input.now) desk.old desk.new text.new.bytes }
{
    match forms::asked(input, desk.n, desk.m) {
        Some(call) => carry(desk, call, text),
        None => print_refused(Refusal::BadForm, text),
    }
}
