// The level read of an invalid book whose state is words, which `host` exports.
#![tactic(auto)]

ghost use Rattle.std.specs.Prelude.{◌≡◌, [], Err};
ghost use Rattle.book.specs.Memory.{memory};
ghost use Rattle.reconstructor_state.specs.State.{ceiling};
ghost use Rattle.reconstructor_view.specs.ValueReads.{read_refusal_of};
ghost use Rattle.reconstructor_reads.specs.Numbers.{stale_told};
ghost use Rattle.reconstructor_reads.specs.LevelReads.{too_small, shows, stale_read};
ghost use Rattle.host_answers.specs.Answers.{lastly};
ghost use Rattle.host_level_stops.specs.Stops.{level_called};
ghost use Rattle.host_stale_levels.specs.Stale.{stale_call};

use host_answers_levels::store_stale;
use host_level_stops::level_call;
use reconstructor_state::{BookReconstructor, Ceiling, Status};

// The number of a read of an invalid book whose answer has no room: 7, or 256 where the book is not invalid, unless it is turned away before. `short` says that its scratch is too short.
fn unwritten_stale(book: BookReconstructor, rows: &[u64], short: bool) -> u64
    ensures { result ≡ lastly (stale_told (stale_read (read_refusal_of ceiling book (memory rows.now) short) book.status (shows (Err too_small) [] []) [] []).answer).number }
{
    match reconstructor_view::read_checks(Ceiling::VENUE, book, rows, short) {
        Err(why) => why.number(),
        Ok(()) => {
            match book.status {
                Status::Empty => 256,
                Status::Valid { .. } => 256,
                Status::Invalidated(_) => 7,
            }
        }
    }
}

pub fn stale_l2(
    state: &[u64],
    rows: &[u64],
    scratch: &mut [u64],
    side: u64,
    out: &mut [u64],
    count: &mut [u64],
) -> u64
    ensures { level_called result scratch.new out.new count.new ≡ stale_call state.now rows.now scratch.old side out.old count.old }
{
    level_call(
        state,
        rows,
        scratch,
        side,
        out,
        count,
        unwritten_stale,
        reconstructor_reads_stale::stale_l2,
        store_stale,
    )
}
