// The text program: answers the forms that come on standard input, one line for each, on standard output.
// It reads and writes in large blocks. What has been answered is written before the next read, so nobody waits for an answer.
#![tactic(auto)]

ghost use Rattle.std.specs.Prelude.{◌≤◌, length};

use arrayvec::ArrayVec;
use session::Desk;
use std::io::Read;
use stream::{BLOCK, OUTPUT};

// Reads a block, and answers how many bytes came: 0 at the end of the input. An input that cannot be read is said, and ends there.
fn read<R: Eprint>(rt: &R, input: &mut impl Read, block: &mut [u8; BLOCK]) -> usize {
    match input.read(block) {
        Ok(count) => count,
        Err(why) => {
            let _ = eprintln!(rt; "rulebook: standard input: {why}");
            0
        }
    }
}

// Writes what stands at the front of the output, and answers whether it was taken. Output that is lost is said.
fn write<R: Print + Eprint>(rt: &R, out: &[u8; OUTPUT], waiting: usize) -> bool
    requires { waiting ≤ length out.now }
{
    match rt.write_all(&out[..waiting]) {
        Ok(()) => true,
        Err(why) => {
            let _ = eprintln!(rt; "rulebook: standard output: {why}");
            false
        }
    }
}

// Answers the whole input, block by block. After a write that failed there is nobody to answer, and nothing more is written. A proved loop
// has to end, and nothing says that the input does: the turns are a number, which no run uses up.
#[tactic(auto, using(stream::proofs::BufferLaws::put_fits))]
fn run<R: Input + Print + Eprint>(
    rt: &R,
    desk: &mut Desk,
    block: &mut [u8; BLOCK],
    carry: &mut ArrayVec<u8, 65>,
    out: &mut [u8; OUTPUT],
) {
    let mut input = rt.reader();
    for _ in 0..u64::MAX {
        let count = read(rt, &mut input, block);
        let waiting = stream::work(desk, block, count, carry, out);
        if !write(rt, out, waiting) {
            return;
        }
        if count == 0 {
            break;
        }
    }
    let waiting = stream::close(desk, carry, out);
    write(rt, out, waiting);
}

// The desk, and the buffers.
fn main(rt: HostRuntime) {
    let mut desk = Desk::new();
    let mut block = [0; BLOCK];
    let mut carry = ArrayVec::new();
    let mut out = [0; OUTPUT];
    run(&rt, &mut desk, &mut block, &mut carry, &mut out);
}
