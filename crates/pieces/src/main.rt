// Reads pieces from standard input, each behind its length (4 bytes, little-endian), and prints what the exported readers find: for each piece
// a line of the message reader (m) and a line of the snapshot reader (s), the number of 01's table first and then the fields.
#![tactic(auto)]

ghost use Rattle.std.specs.Prelude.{◌≡◌, ◌≤◌, length, IfOk};

use piece::MESSAGE_WORDS;
use std::io::{self, Print, Read, Stdin, Stdout};

// The word of a message where its event's fields start.
const FIELDS_AT: usize = 5;

// Words that the readers give of a snapshot's header and of one order.
const SNAPSHOT_WORDS: usize = 5;

const ORDER_WORDS: usize = 4;

// Bytes of a snapshot piece before its orders, and of an order.
const SNAPSHOT_BYTES: usize = 41;

const ORDER_BYTES: usize = 32;

// Bytes of the length in front of a piece.
const LENGTH_BYTES: usize = 4;

// The most input that is read: the recorded pieces have less.
const INPUT_BYTES: usize = 262144;

// How many words the fields of an event have, by its kind.
fn field_count(kind: u64) -> usize
    ensures { result ≤ 16 }
{
    match kind {
        1 => 3,
        2 => 5,
        3 => 8,
        4 => 7,
        5 => 16,
        _ => 1,
    }
}

// Whether a field's word is an amount.
fn is_amount(kind: u64, field: usize) -> bool {
    match kind {
        2 => matches!(field, 3 | 4),
        3 => matches!(field, 4 | 7),
        4 => matches!(field, 5 | 6),
        5 => 5 <= field && field % 2 == 1,
        _ => false,
    }
}

fn print_fields(to: Stdout, kind: u64, fields: &[u64]) -> io::Result<()> {
    for (i, word) in fields.iter().take(field_count(kind)).enumerate() {
        if is_amount(kind, i) {
            print!(to; " {}", word.cast_signed())?;
        } else {
            print!(to; " {word}")?;
        }
    }
    Ok(())
}

fn print_words(to: Stdout, words: &[u64]) -> io::Result<()> {
    for word in words {
        print!(to; " {word}")?;
    }
    Ok(())
}

fn print_message(to: Stdout, piece: &[u8]) -> io::Result<()> {
    let mut words = [0u64; MESSAGE_WORDS];
    let number = host::pinuglaw_read_message(piece, &mut words);
    print!(to; "m {number}")?;
    if number == 0 {
        print_words(to, &words[..FIELDS_AT])?;
        print_fields(to, words[0], &words[FIELDS_AT..])?;
    }
    println!(to)
}

fn print_order(to: Stdout, piece: &[u8], place: usize) -> io::Result<()> {
    let mut words = [0u64; ORDER_WORDS];
    host::pinuglaw_snapshot_order(piece, place, &mut words);
    let [id_high, id_low, price, size] = words;
    print!(to;
        " {id_high} {id_low} {} {}",
        price.cast_signed(),
        size.cast_signed()
    )
}

fn print_snapshot(to: Stdout, piece: &[u8]) -> io::Result<()> {
    let mut words = [0u64; SNAPSHOT_WORDS];
    let number = host::pinuglaw_read_snapshot(piece, &mut words);
    print!(to; "s {number}")?;
    if number == 0 {
        print_words(to, &words)?;
        for place in 0..piece.len().saturating_sub(SNAPSHOT_BYTES) / ORDER_BYTES {
            print_order(to, piece, place)?;
        }
    }
    println!(to)
}

// Every piece of the input, up to a length that it does not reach.
fn show_all(to: Stdout, input: &[u8]) -> io::Result<()> {
    let mut rest = input;
    while let Some((length, body)) = rest.split_first_chunk::<LENGTH_BYTES>() {
        let n = u32::from_le_bytes(*length) as usize;
        let Some((piece, after)) = body.split_at_checked(n) else {
            break;
        };
        print_message(to, piece)?;
        print_snapshot(to, piece)?;
        rest = after;
    }
    Ok(())
}

// Zeros, where the input goes: it needs no heap. The `ensures` gives only the length, which lending the array as a slice needs.
fn buffer() -> [u8; INPUT_BYTES]
    ensures { 262144 ≡ length result }
{
    [0; INPUT_BYTES]
}

// Reads the input to its end, or as much of it as there is room for; one read takes all that has come.
fn read_input(mut from: Stdin, input: &mut [u8]) -> io::Result<usize>
    ensures { IfOk result (λ n. n ≤ length input.new) }
{
    let mut done: usize = 0;
    while done < input.len() {
        let n = from.read(&mut input[done..])?;
        if n == 0 {
            break;
        }
        done += n;
    }
    Ok(done)
}

fn main(rt: HostRuntime) -> io::Result<()> {
    let mut input = buffer();
    let n = read_input(rt.stdin(), &mut input)?;
    show_all(rt.stdout(), &input[..n])
}
