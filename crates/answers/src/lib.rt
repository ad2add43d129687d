// The answers of the text program: the line that tells each, printed into a text that is lent: returned by value, it costs a find a sixth of its time more.
#![tactic(auto)]

ghost use Rattle.std.specs.Prelude.{◌≡◌, ◌+◌, ◌≤◌, ◌++◌, length, codes};
ghost use Rattle.forms.specs.Decimal.{digits};
ghost use Rattle.tables.specs.Books.{answered};
ghost use Rattle.tables.specs.Reply.{given, refusal_number, found_of};
ghost use Rattle.answers.specs.Answers.{printed_refused, printed_found, printed_answer};

use arrayvec::ArrayString;
use tables::{Answer, Found, Refusal};

// A number behind a text. This and the next two are inlined, so that what is pushed is a constant.
#[tactic(auto, using(forms::proofs::DecimalLaws::digits_decimal, forms::proofs::DecimalLaws::digits_most))]
#[inline(always)]
fn push_number(number: u16, text: &mut ArrayString<64>)
    requires { length text.old.bytes + 5 ≤ 64 }
    ensures bytes { text.new.bytes ≡ text.old.bytes ++ digits number }
    ensures length { length text.new.bytes ≤ length text.old.bytes + 5 }
{
    let mut buffer = itoa::Buffer::new();
    text.push_str(buffer.format(number));
}

// A word with a number: `(word 1)`. The word comes with its bracket and the space after it.
#[inline(always)]
fn with_number(word: &str, number: u16, text: &mut ArrayString<64>)
    requires { length word.now ≤ 16 }
    ensures { text.new.bytes ≡ word.now ++ (digits number ++ codes ")") }
{
    text.clear();
    text.push_str(word);
    push_number(number, text);
    text.push_str(")");
}

// A word with two numbers: `(word 1 2)`.
#[inline(always)]
fn with_numbers(word: &str, first: u16, second: u16, text: &mut ArrayString<64>)
    requires { length word.now ≤ 16 }
    ensures { text.new.bytes ≡ word.now ++ (digits first ++ (codes " " ++ (digits second ++ codes ")"))) }
{
    text.clear();
    text.push_str(word);
    push_number(first, text);
    text.push_str(" ");
    push_number(second, text);
    text.push_str(")");
}

/// The line of a refusal.
#[tactic(auto, unfolding(forms::specs::Pattern::filled))]
pub fn print_refused(why: Refusal, text: &mut ArrayString<64>)
    ensures { text.new.bytes ≡ printed_refused (refusal_number why) }
{
    with_number("(refused ", u16::from(u8::from(why)), text)
}

// The line of what find gives.
#[tactic(auto, unfolding(forms::specs::Pattern::filled))]
fn print_found(found: Found, text: &mut ArrayString<64>)
    ensures { text.new.bytes ≡ printed_found (given (found_of found)) }
{
    match found {
        Found::None => {
            text.clear();
            text.push_str("(none)");
        }
        Found::Rule(kind, handling) => with_numbers("(rule ", kind.0, handling, text),
        Found::Dispute(kind) => with_number("(dispute ", kind.0, text),
    }
}

/// The line of what a call answers about a book of n kinds and m marks. No form asks for parties or inspect: of them nothing is printed.
#[tactic(auto, unfolding(forms::specs::Pattern::filled))]
pub fn print_answer(answer: Answer, n: u16, m: u16, text: &mut ArrayString<64>)
    ensures { text.new.bytes ≡ printed_answer n m (answered answer) }
{
    match answer {
        Answer::Opened(Ok(())) => with_numbers("(opened ", n, m, text),
        Answer::Opened(Err(why)) => print_refused(why, text),
        Answer::Edited(Ok(count)) => with_number("(done ", count, text),
        Answer::Edited(Err(why)) => print_refused(why, text),
        Answer::Found(Ok(found)) => print_found(found, text),
        Answer::Found(Err(why)) => print_refused(why, text),
        Answer::Paired(_) => text.clear(),
        Answer::Inspected(_) => text.clear(),
    }
}
