// Makes the recorded calls of standard input on one book, and prints a line for each: whose answer is recorded, the call, the number that it answers, the
// values that it gives, and after ';' digests of the memory that it may write. specs/Format.antt of crate `recorded` says how a call is recorded. The calls and the lines
// in `stdin` and `stdout` beside this folder were made from the Rust by `oracle vectors` (tools/oracle).
#![tactic(auto)]

ghost use Rattle.std.specs.Prelude.{◌≡◌, ◌≤◌, length, IfOk};

mod calls;
mod memory;
mod print;

use crate::calls::Call;
use crate::memory::{Book, ROWS, SEGMENTS};
use host_words::STATE_WORDS;
use recorded::{HEADER_BYTES, read_header};
use std::io::{self, Read, Stdin, Stdout};

// The most input that is read: the recorded calls have less.
const INPUT_BYTES: usize = 524288;

// Every call of the input, up to one that it does not hold whole. A call is lent as much of the memory as its header says.
fn replay(to: Stdout, input: &[u8]) -> io::Result<()> {
    let mut state = [0u64; STATE_WORDS];
    let mut rows = [0u64; ROWS];
    let mut segments = [0u64; SEGMENTS];
    let mut rest = input;
    while let Some((head, body)) = rest.split_at_checked(HEADER_BYTES) {
        let header = read_header(head);
        let Some((payload, after)) = body.split_at_checked(header.payload) else {
            break;
        };
        let r = header.rows.min(ROWS);
        let s = header.segments.min(SEGMENTS);
        let mut book = Book {
            state: &mut state,
            rows: &mut rows[..r],
            segments: &mut segments[..s],
        };
        let call = Call {
            to,
            header,
            payload,
        };
        call.perform(&mut book)?;
        rest = after;
    }
    Ok(())
}

// Zeros, where the input goes: it needs no heap. The `ensures` gives only the length, which lending the array as a slice needs.
fn buffer() -> [u8; INPUT_BYTES]
    ensures { 524288 ≡ length result }
{
    [0; INPUT_BYTES]
}

// Reads the input to its end, or as much of it as there is room for; one read takes all that has come.
fn read_input(mut from: Stdin, input: &mut [u8]) -> io::Result<usize>
    ensures { IfOk result (λ n. n ≤ length input.new) }
{
    let mut done: usize = 0;
    while done < input.len() {
        let n = from.read(&mut input[done..])?;
        if n == 0 {
            break;
        }
        done += n;
    }
    Ok(done)
}

fn main(rt: HostRuntime) -> io::Result<()> {
    let mut input = buffer();
    let n = read_input(rt.stdin(), &mut input)?;
    replay(rt.stdout(), &input[..n])
}
