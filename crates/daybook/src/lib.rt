// A day's segment listing: the replay of a day file, as hosts and the program call it.
#![tactic(auto)]

ghost use Rattle.std.specs.Prelude.{◌≡◌, ◌≤◌, ◌<◌, length};
ghost use Rattle.text.specs.Writes.{Writes};
ghost use Rattle.daybook_lines.specs.Most.{listing_bytes};
ghost use Rattle.daybook.specs.Listing.{listing as Listing·listing, replay_called, replay_call};

use daybook_file::DayFile;
use daybook_lines::{put_day, put_ending};
use daybook_replay::replay_day;
use daybook_segments::Stop;
use reconstructor_counts::MessageCounts;
use text::put_bytes;

// A file that breaks the rules of a day file, or is longer than one may be.
const NOT_A_DAY_FILE: u64 = 60;

// No listing is longer.
pub const LISTING_BYTES: usize = 8192;

// The listing of a file, written into a text that has room for any.
#[tactic(auto, unfolding(crate::specs::Listing::listing))]
fn list(file: &[u8], text: &mut [u8]) -> usize
    requires { listing_bytes ≤ length text.old }
    ensures writes { Writes text.old 0 (Listing·listing file.now) text.new result }
    ensures short { result ≤ listing_bytes }
{
    let Some(day_file) = DayFile::new(file) else {
        let stop = Some(Stop {
            piece: 0,
            number: NOT_A_DAY_FILE,
        });
        return put_ending(text, 0, MessageCounts::new(), stop);
    };
    put_day(text, replay_day(day_file))
}

// Replays the day file and writes its listing at the front of `listing`: the listing's length, or 7, and nothing is written, where the slice is shorter.
#[tactic(auto, unfolding(crate::specs::Listing::replay_call))]
pub fn replay(file: &[u8], listing: &mut [u8]) -> u64
    ensures listing_after { replay_called result listing.new ≡ replay_call file.now listing.old }
    ensures bounded { length (Listing·listing file.now) ≤ listing_bytes }
    ensures told { 7 < length (Listing·listing file.now) }
{
    let mut text = [0u8; LISTING_BYTES];
    let n = list(file, &mut text);
    if listing.len() < n {
        return 7;
    }
    put_bytes(listing, 0, &text[..n]);
    n as u64
}
