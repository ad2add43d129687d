// The stream of the text program: its input comes in blocks, which are cut anywhere, and every line that ends in a block is answered.
#![tactic(auto)]

mod buffers;

ghost use Rattle.std.specs.Prelude.{◌≡◌, [], ◌++◌, ◌+◌, ◌*◌, ◌≤◌, length, take};
ghost use Rattle.session.specs.Line.{line_of};
ghost use Rattle.session.specs.Parts.{book_on};
ghost use Rattle.stream.specs.Stream.{passed, closed};
ghost use Rattle.stream.specs.Blocks.{Replied, Worked, Closed};

use arrayvec::{ArrayString, ArrayVec};
use buffers::{add, line_end, put};
use session::Desk;

/// The most bytes that are worked at a time, and the bytes of an output that has room for an answer to each of them: an answer with its
/// line feed takes at most 17.
pub const BLOCK: usize = 32768;

/// The bytes of an output.
// An array, and no string that grows: the program has no heap.
pub const OUTPUT: usize = 17 * BLOCK;

// Carries out a line in the book, and has its answer, with a line feed, wait in the output behind those before it.
fn answer(desk: &mut Desk, line: &[u8], out: &mut [u8], waiting: usize) -> usize
    requires { waiting + 17 ≤ length out.old }
    ensures { Replied (line_of (book_on desk.old) line.now) waiting out.old desk.new result out.new }
{
    let mut text = ArrayString::new();
    session::line(desk, line, &mut text);
    put(text.as_bytes(), out, waiting)
}

// Carries out a line by the part that ends it. Only a line whose start is carried is put together; any other lies whole in its block.
fn finish(
    desk: &mut Desk,
    part: &[u8],
    carry: &mut ArrayVec<u8, 65>,
    out: &mut [u8],
    waiting: usize,
) -> usize
    requires { waiting + 17 ≤ length out.old }
    ensures empty { carry.new.items ≡ [] }
    ensures replied { Replied (line_of (book_on desk.old) (carry.old.items ++ part.now)) waiting out.old desk.new result out.new }
{
    if carry.is_empty() {
        return answer(desk, part, out, waiting);
    }
    add(part, carry);
    let behind = answer(desk, carry.as_slice(), out, waiting);
    carry.clear();
    behind
}

// Answers the lines that end in a block, behind what waits already, and carries the rest over.
fn lines(
    desk: &mut Desk,
    block: &[u8],
    carry: &mut ArrayVec<u8, 65>,
    out: &mut [u8],
    start: usize,
) -> usize
    requires { start + 17 * length block.now ≤ length out.old }
    ensures { Worked (passed (book_on desk.old) carry.old.items block.now) start out.old desk.new carry.new.items result out.new }
{
    let mut waiting = start;
    let mut from = 0;
    let mut next = line_end(block, 0);
    while let Some(end) = next {
        waiting = finish(desk, &block[from..end], carry, out, waiting);
        from = end + 1;
        next = line_end(block, from);
    }
    add(&block[from..], carry);
    waiting
}

/// Works the first `count` bytes of a block: answers the lines that end there, and carries the rest over. The answers stand at the front of
/// the output: what waited there has been written. How many bytes they have.
pub fn work(
    desk: &mut Desk,
    block: &[u8; BLOCK],
    count: usize,
    carry: &mut ArrayVec<u8, 65>,
    out: &mut [u8; OUTPUT],
) -> usize
    ensures { Worked (passed (book_on desk.old) carry.old.items (take count block.now)) 0 out.old desk.new carry.new.items result out.new }
{
    let size = count.min(BLOCK);
    lines(desk, &block[..size], carry, out, 0)
}

/// Answers the last line if it has a byte. The answer stands at the front of the output. How many bytes it has.
pub fn close(desk: &mut Desk, carry: &ArrayVec<u8, 65>, out: &mut [u8; OUTPUT]) -> usize
    ensures { Closed (closed (book_on desk.old) carry.now.items) out.old desk.new result out.new }
{
    if carry.is_empty() {
        return 0;
    }
    answer(desk, carry.as_slice(), out, 0)
}
