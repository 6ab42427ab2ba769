// The read of the orders at one level, of a valid book whose state is words, which `host` exports.
#![tactic(auto)]

ghost use Rattle.std.specs.Prelude.{◌≡◌};
ghost use Rattle.host_level_stops.specs.Stops.{level_called};
ghost use Rattle.host_level_queue.specs.LevelQueue.{queue_call};

use host_level_stops::level_read;
use host_words::signed;

pub fn level_queue(
    state: &[u64],
    rows: &[u64],
    scratch: &mut [u64],
    side: u64,
    price: u64,
    out: &mut [u64],
    count: &mut [u64],
) -> u64
    ensures { level_called result scratch.new out.new count.new ≡ queue_call state.now rows.now scratch.old side price out.old count.old }
{
    let at = signed(price);
    level_read(
        state,
        rows,
        scratch,
        side,
        out,
        count,
        |book, rows, scratch, side, out| {
            reconstructor_reads_queue::level_queue(book, rows, scratch, side, at, out)
        },
    )
}
