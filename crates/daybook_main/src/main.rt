// The program `daybook`: lists which stretches of a day could be shown, of the day file on its standard input.
#![tactic(auto)]

ghost use Rattle.std.specs.Prelude.{◌≡◌, ◌≤◌, ◌<◌, length, take};
ghost use Rattle.io.specs.Counts.{IsPrefixLen};
ghost use Rattle.daybook_file.specs.DayFile.{day_bytes};
ghost use Rattle.daybook_lines.specs.Most.{listing_bytes};
ghost use Rattle.daybook.specs.Listing.{listing as Listing·listing};

use daybook::{LISTING_BYTES, replay};
use std::io::{ErrorKind, Read, Stdin, Write};

// One byte more than a day file may have, so that a longer input is known to be one.
const INPUT_BYTES: usize = 65537;

// Reads the input to its end, or as much of it as there is room for: more than a day file may have. A read that fails ends it; one that a signal
// interrupted is made again.
fn read_input(mut input: Stdin, file: &mut [u8]) -> usize
    requires { day_bytes < length file.old }
    ensures { IsPrefixLen result file.new }
{
    let mut done: usize = 0;
    for _ in 0..u64::MAX {
        match input.read(&mut file[done..]) {
            Ok(0) => break,
            Ok(n) => done += n,
            Err(e) if e.kind() == ErrorKind::Interrupted => {}
            Err(_) => break,
        }
    }
    done
}

// The listing of the file, at the front of `listing`: what the program writes.
fn list(file: &[u8], listing: &mut [u8]) -> usize
    requires { listing_bytes ≤ length listing.old }
    ensures lists { take result listing.new ≡ Listing·listing file.now }
    ensures counts { IsPrefixLen result listing.new }
{
    replay(file, listing) as usize
}

fn main(rt: HostRuntime) {
    let mut file = [0u8; INPUT_BYTES];
    let mut listing = [0u8; LISTING_BYTES];
    let n = read_input(rt.stdin(), &mut file);
    let k = list(&file[..n], &mut listing);
    // There is nobody to tell of a write that fails.
    let _ = rt.stdout().write_all(&listing[..k]);
}
