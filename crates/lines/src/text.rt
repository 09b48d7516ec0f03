// The text of a line.
ghost use Rattle.std.specs.Prelude.{◌≡◌, ◌+◌, ◌≤◌, ◌<◌, [], ◌∷◌, ◌++◌, length};
ghost use Rattle.layout.specs.Put.{put};
ghost use Rattle.lines.specs.Line.{line, longest};

use crate::said::Said;
use itoa::{Buffer, Integer};

// Writes n in decimal and the byte end, and returns the index after it. An index and not a part of the buffer, since the contract tells what is left of all of it.
fn put_word<N: Integer>(n: N, end: u8, out: &mut [u8], at: usize) -> usize
    requires { at + N.MAX_STR_LEN < length out.old }
    ensures { (result ≡ at + length (N.text n ++ end ∷ [])) × (result ≤ at + N.MAX_STR_LEN + 1) × (out.new ≡ put out.old at (N.text n ++ end ∷ [])) }
{
    let mut buffer = Buffer::new();
    let digits = buffer.format(n).as_bytes();
    let stop = at + digits.len();
    out[at..stop].copy_from_slice(digits);
    out[stop] = end;
    stop + 1
}

// Writes a line, and returns the index after it. No `write!`: to a slice it gives a Result to throw away and tells no byte, and a String takes heap.
pub(crate) fn put_line(index: u64, said: Said, out: &mut [u8], at: usize) -> usize
    requires { at + longest ≤ length out.old }
    ensures { (result ≡ at + length (line index said.refusal said.first said.second)) × (result ≤ at + longest) × (out.new ≡ put out.old at (line index said.refusal said.first said.second)) }
{
    let b = put_word(index, b' ', out, at);
    let c = put_word(said.refusal, b' ', out, b);
    let d = put_word(said.first, b' ', out, c);
    put_word(said.second, b'\n', out, d)
}
