// Bytes in buffers: where a line ends, the start of a line whose end has not come yet, and a line that is put behind what waits.
ghost use Rattle.std.specs.Prelude.{◌≡◌, [], ◌∷◌, ◌++◌, ◌+◌, ◌≤◌, ◌<◌, length};
ghost use Rattle.stream.specs.Buffers.{cut, LineEnd, Put};

use arrayvec::ArrayVec;

/// The place of the first line feed at or after a place.
// Apart from the loop over the lines, and by number: the search from the start of a block is then compiled to look at many bytes at once, and goes
// through a line as long as many blocks in a third of the time.
pub fn line_end(block: &[u8], from: usize) -> Option<usize>
    requires { from ≤ length block.now }
    ensures { LineEnd block.now from result }
{
    for at in from..block.len() {
        if block[at] == b'\n' {
            return Some(at);
        }
    }
    None
}

/// Adds a part of a line to what is carried of it. Of a long line only the start is kept: 65 bytes are no form already.
pub fn add(part: &[u8], carry: &mut ArrayVec<u8, 65>)
    ensures { carry.new.items ≡ cut (carry.old.items ++ part.now) }
{
    let more = part.len().min(carry.remaining_capacity());
    let _ = carry.try_extend_from_slice(&part[..more]);
}

/// Puts a line and a line feed into a buffer at a place, and answers the place after them.
pub fn put(line: &[u8], out: &mut [u8], at: usize) -> usize
    requires { at + length line.now < length out.old }
    ensures { Put (line.now ++ (10 ∷ [])) out.old at result out.new }
{
    let end = at + line.len();
    out[at..end].copy_from_slice(line);
    out[end] = b'\n';
    end + 1
}
