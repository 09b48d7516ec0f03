#![tactic(auto)]
// Reads records from standard input to its end, and writes a line for each.
ghost use Rattle.std.specs.Prelude.{◌≡◌, ◌≤◌, length};

use coordinator::Coordinator;
use std::io;
use std::io::{Read, Write};

// Room for 16,385 lines of 47 bytes: a line more than a piece has records, as `lines::play` asks.
// A function, since a proof that sees the array itself runs out of stack counting its bytes.
fn room() -> [u8; 770095]
    ensures { 770095 ≡ length result }
{
    [0; 770095]
}

// Reads until the piece is full, the input ends or a read fails. Returns how many bytes that put at its start, and the failure.
// By hand, since std's `read_exact` does not say how many it read where the input ends or fails.
fn read_full<R: Read>(input: &mut R, piece: &mut [u8]) -> (usize, io::Result<()>)
    ensures { result.0 ≤ length piece.new }
{
    let mut done = 0;
    while done < piece.len() {
        match input.read(&mut piece[done..]) {
            Ok(0) => break,
            Ok(n) => done += n,
            Err(e) => return (done, Err(e)),
        }
    }
    (done, Ok(()))
}

// Reads pieces of up to 16,384 records, plays each and writes its lines. Only the last piece is short, so no record is split.
// A proved loop has to end, and nothing says that the input does: so it has 2^49 turns, after which `lines::play` has no index left.
fn run<R: Read, W: Write>(input: &mut R, output: &mut W) -> io::Result<()> {
    let mut state = Coordinator::plain();
    let mut index = 0;
    for _ in 0..1u64 << 49 {
        let mut piece = [0u8; 65536];
        let (n, was_read) = read_full(input, &mut piece);
        let mut out = room();
        if let Some(played) = lines::play(&mut state, index, &piece[..n], &mut out) {
            output.write_all(&out[..played.wrote])?;
            index = played.index;
        }
        was_read?;
        if n < piece.len() {
            break;
        }
    }
    Ok(())
}

fn main(rt: HostRuntime) -> io::Result<()> {
    run(&mut rt.stdin(), &mut rt.stdout())
}
