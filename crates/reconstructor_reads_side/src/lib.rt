// The read of a side's levels in a valid book, so many words each, under a ceiling.
#![tactic(auto)]

ghost use Rattle.std.specs.Prelude.{◌≡◌, ◌≤◌};
ghost use Rattle.book.specs.Memory.{memory, orders_of};
ghost use Rattle.reconstructor_reads.specs.LevelReads.{profile_words, l2_words, levels_content, read_of, leaves};

use book::{LentRows, SoundRows};
use message::L3Side;
use reconstructor_reads::{LevelError, show_levels};
use reconstructor_state::{BookReconstructor, Ceiling};

// Shows the levels of a side of a valid book, `width` words each, and says how many there are.
pub fn level_read(
    top: Ceiling,
    book: BookReconstructor,
    rows: &[u64],
    scratch: &mut [u64],
    side: L3Side,
    width: usize,
    out: &mut [u64],
) -> Result<usize, LevelError>
    requires { (l2_words ≤ width) × (width ≤ profile_words) }
    ensures { leaves result scratch.new out.new ≡ read_of top.limit book (memory rows.now) scratch.old (levels_content width side (orders_of (memory rows.now) book.rows)) out.old }
{
    let most = book.rules.max_orders;
    let _ = reconstructor_view::valid_book(top, book, rows, scratch.len() < most)?;
    let lent = LentRows {
        words: rows,
        count: book.rows,
    };
    let sound = SoundRows { rows: lent };
    let count = show_levels(sound, scratch, most, side, width, out)?;
    Ok(count)
}
