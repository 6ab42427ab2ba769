// The library as C links it: each function of crate `host` under its own name, with the same clauses. A crate is a library for Rattle or one for C, not both, so this
// one holds the exports, and nothing else; the archive that hosts link is made of it.
#![tactic(auto)]

ghost use Rattle.std.specs.Prelude.{◌≡◌, ◌≤◌, ◌<◌, length};
ghost use Rattle.piece.specs.Piece.{read_message, read_snapshot, order_at};
ghost use Rattle.book.specs.Broken.{words_broken};
ghost use Rattle.host_pieces.specs.Pieces.{message_number, message_out, snapshot_number, snapshot_out, order_number, order_out};
ghost use Rattle.host_answers.specs.Answers.{answered};
ghost use Rattle.host_new.specs.New.{new_call};
ghost use Rattle.host_calls.specs.Calls.{called, step_called, apply_call, bootstrap_call, step_call};
ghost use Rattle.host_new_handshake.specs.NewHandshake.{handshake_call};
ghost use Rattle.host_apply_all_run.specs.Run.{apply_all_called};
ghost use Rattle.host_apply_all.specs.ApplyAll.{apply_all_call};
ghost use Rattle.daybook_lines.specs.Most.{listing_bytes};
ghost use Rattle.daybook.specs.Listing.{listing as Listing·listing, replay_called, replay_call};
ghost use Rattle.host_views.specs.Views.{last_call, best_call, audit_call};
ghost use Rattle.host_views_segment.specs.SegmentViews.{invalidation_call, segment_call};
ghost use Rattle.host_level_stops.specs.Stops.{level_called};
ghost use Rattle.host_levels.specs.Levels.{profile_call, l2_call};
ghost use Rattle.host_level_queue.specs.LevelQueue.{queue_call};
ghost use Rattle.host_stale_levels.specs.Stale.{stale_call};
ghost use Rattle.host_estimates.specs.Estimates.{estimate_called, estimate_call, own_call, ahead_call};

// Reads a message piece into 21 words: kind, product (two), sequence, time, then the event's fields.
#[unsafe(no_mangle)]
pub extern "C" fn pinuglaw_read_message(bytes: &[u8], out: &mut [u64]) -> u64
    ensures number { result ≡ message_number out.old (read_message bytes.now) }
    ensures words { out.new ≡ message_out out.old (read_message bytes.now) }
{
    host::pinuglaw_read_message(bytes, out)
}

// Reads a snapshot piece into 5 words: product (two), sequence, number of bids, number of asks.
#[unsafe(no_mangle)]
pub extern "C" fn pinuglaw_read_snapshot(bytes: &[u8], out: &mut [u64]) -> u64
    ensures number { result ≡ snapshot_number out.old (read_snapshot bytes.now) }
    ensures words { out.new ≡ snapshot_out out.old (read_snapshot bytes.now) }
{
    host::pinuglaw_read_snapshot(bytes, out)
}

// Reads the order at a place of a snapshot piece into 4 words: id (two), price, size.
#[unsafe(no_mangle)]
pub extern "C" fn pinuglaw_snapshot_order(bytes: &[u8], place: usize, out: &mut [u64]) -> u64
    ensures number { result ≡ order_number out.old }
    ensures words { out.new ≡ order_out out.old (order_at bytes.now place) }
{
    host::pinuglaw_snapshot_order(bytes, place, out)
}

// Whether `n` rows are no book: number 3's part on the rows.
#[unsafe(no_mangle)]
pub extern "C" fn pinuglaw_rows_broken(rows: &[u64], n: usize, max_levels: usize) -> bool
    ensures { result ≡ words_broken max_levels rows.now n }
{
    host::pinuglaw_rows_broken(rows, n, max_levels)
}

// Creates a book in the first 27 words of `state`: no snapshot yet. Any limits are taken here: 1 is said by the calls. Answers 0; 4 where `size_decrease` is above 1,
// then 7 where fewer words are lent, and touches nothing.
#[unsafe(no_mangle)]
pub extern "C" fn pinuglaw_new(
    state: &mut [u64],
    product_high: u64,
    product_low: u64,
    size_decrease: u64,
    max_orders: u64,
    max_levels: u64,
    number: u64,
) -> u64
    ensures { answered result state.new ≡ new_call state.old product_high product_low size_decrease max_orders max_levels number }
{
    host::pinuglaw_new(
        state,
        product_high,
        product_low,
        size_decrease,
        max_orders,
        max_levels,
        number,
    )
}

// Applies a message of 21 words to the book whose state is the first 27 words of `state`; crate `host_words` has both layouts in specs/Block.antt.
// Answers 256 where the book changed, 0 where the message was applied without effect, else the number that turns it away. Those 27 words are the state afterwards: 16
// sets the status and ends the segment, 10 and 17 raise a count, any other refusal leaves the words lent.
#[unsafe(no_mangle)]
pub extern "C" fn pinuglaw_apply(
    state: &mut [u64],
    rows: &mut [u64],
    segments: &mut [u64],
    message: &[u64],
) -> u64
    ensures { called result state.new rows.new segments.new ≡ apply_call state.old rows.old segments.old message.now }
{
    host::pinuglaw_apply(state, rows, segments, message)
}

// Takes the snapshot piece in `bytes` for that book. Answers 0 or the number that turns it away. Those 27 words are the state afterwards; of a refusal, but for the count
// that 10 to 14 raise, the words lent.
#[unsafe(no_mangle)]
pub extern "C" fn pinuglaw_bootstrap(
    state: &mut [u64],
    rows: &mut [u64],
    segments: &mut [u64],
    bytes: &[u8],
) -> u64
    ensures { called result state.new rows.new segments.new ≡ bootstrap_call state.old rows.old segments.old bytes.now }
{
    host::pinuglaw_bootstrap(state, rows, segments, bytes)
}

// A handshake for the segment that the book is in, into four words; crate `host_handshake` has the layout in specs/HandshakeWords.antt. Before any snapshot it has ended. Answers 0,
// or 768, 3 or 7.
#[unsafe(no_mangle)]
pub extern "C" fn pinuglaw_handshake(state: &[u64], handshake: &mut [u64]) -> u64
    ensures { answered result handshake.new ≡ handshake_call state.now handshake.old }
{
    host::pinuglaw_handshake(state, handshake)
}

// Steps a handshake by a message of 21 words. Answers as `pinuglaw_apply` does, 512 where the message was dropped, and 9 where the handshake has ended or is
// of another segment. A refusal leaves what it leaves of `pinuglaw_apply`; 16 and 17 end the handshake.
#[unsafe(no_mangle)]
pub extern "C" fn pinuglaw_step(
    state: &mut [u64],
    rows: &mut [u64],
    segments: &mut [u64],
    handshake: &mut [u64],
    message: &[u64],
) -> u64
    ensures { step_called result state.new rows.new segments.new handshake.new ≡ step_call state.old rows.old segments.old handshake.old message.now }
{
    host::pinuglaw_step(state, rows, segments, handshake, message)
}

// Applies the messages in `messages`, 21 words each, in turn: what as many calls of `pinuglaw_apply` answer and leave, with the number of each message in a
// word of `answers`, and the words past those untouched. Words past the last whole message are not read. Answers 0; 1, 2 or 3, and touches nothing, where every
// message that is one would be told so; then 7, and touches nothing, where there are fewer answer words than messages.
#[unsafe(no_mangle)]
pub extern "C" fn pinuglaw_apply_all(
    state: &mut [u64],
    rows: &mut [u64],
    segments: &mut [u64],
    messages: &[u64],
    answers: &mut [u64],
) -> u64
    ensures { apply_all_called result state.new rows.new segments.new answers.new ≡ apply_all_call state.old rows.old segments.old messages.now answers.old }
{
    host::pinuglaw_apply_all(state, rows, segments, messages, answers)
}

// Replays the day file in `file` on a book of its own, and writes the listing of its segments at the front of `listing`. Answers the listing's length, which is
// at most 8,192 and never 7; or 7, and touches nothing, where the slice is shorter. A file that breaks the format's rules or is longer than 65,536 bytes is listed as 60.
#[unsafe(no_mangle)]
pub extern "C" fn pinuglaw_replay(file: &[u8], listing: &mut [u8]) -> u64
    ensures listing_after { replay_called result listing.new ≡ replay_call file.now listing.old }
    ensures bounded { length (Listing·listing file.now) ≤ listing_bytes }
    ensures told { 7 < length (Listing·listing file.now) }
{
    host::pinuglaw_replay(file, listing)
}

// The last sequence applied, into one word.
#[unsafe(no_mangle)]
pub extern "C" fn pinuglaw_last_sequence(state: &[u64], rows: &[u64], out: &mut [u64]) -> u64
    ensures { answered result out.new ≡ last_call state.now rows.now out.old }
{
    host::pinuglaw_last_sequence(state, rows, out)
}

// The best bid and ask, into four words: whether there is one, and its price, of each.
#[unsafe(no_mangle)]
pub extern "C" fn pinuglaw_best(state: &[u64], rows: &[u64], out: &mut [u64]) -> u64
    ensures { answered result out.new ≡ best_call state.now rows.now out.old }
{
    host::pinuglaw_best(state, rows, out)
}

// The audit of a valid book.
#[unsafe(no_mangle)]
pub extern "C" fn pinuglaw_audit(state: &[u64], rows: &[u64]) -> u64
    ensures { result ≡ audit_call state.now rows.now }
{
    host::pinuglaw_audit(state, rows)
}

// The invalidation in force, into six words: last_good_seq, first_offending_seq, the reason's number, and its words 10 to 12 of a state. Answers 256, writing
// nothing, where the book is not invalid.
#[unsafe(no_mangle)]
pub extern "C" fn pinuglaw_invalidation(state: &[u64], out: &mut [u64]) -> u64
    ensures { answered result out.new ≡ invalidation_call state.now out.old }
{
    host::pinuglaw_invalidation(state, out)
}

// The record of the segment at a place of the list, into ten words: its eight, its elapsed time, and how many messages it accepted. Answers 256, writing
// nothing, where the book has none there or the list is too short for it.
#[unsafe(no_mangle)]
pub extern "C" fn pinuglaw_segment(
    state: &[u64],
    segments: &[u64],
    place: usize,
    out: &mut [u64],
) -> u64
    ensures { answered result out.new ≡ segment_call state.now segments.now place out.old }
{
    host::pinuglaw_segment(state, segments, place, out)
}

// The orders at a side (0 buy, 1 sell) and price (an amount's bits), five words each, and their number.
#[unsafe(no_mangle)]
pub extern "C" fn pinuglaw_level_queue(
    state: &[u64],
    rows: &[u64],
    scratch: &mut [u64],
    side: u64,
    price: u64,
    out: &mut [u64],
    count: &mut [u64],
) -> u64
    ensures { level_called result scratch.new out.new count.new ≡ queue_call state.now rows.now scratch.old side price out.old count.old }
{
    host::pinuglaw_level_queue(state, rows, scratch, side, price, out, count)
}

// The levels of a side, three words each, and their number.
#[unsafe(no_mangle)]
pub extern "C" fn pinuglaw_priority_profile(
    state: &[u64],
    rows: &[u64],
    scratch: &mut [u64],
    side: u64,
    out: &mut [u64],
    count: &mut [u64],
) -> u64
    ensures { level_called result scratch.new out.new count.new ≡ profile_call state.now rows.now scratch.old side out.old count.old }
{
    host::pinuglaw_priority_profile(state, rows, scratch, side, out, count)
}

// The levels of a side, two words each, and their number.
#[unsafe(no_mangle)]
pub extern "C" fn pinuglaw_l2(
    state: &[u64],
    rows: &[u64],
    scratch: &mut [u64],
    side: u64,
    out: &mut [u64],
    count: &mut [u64],
) -> u64
    ensures { level_called result scratch.new out.new count.new ≡ l2_call state.now rows.now scratch.old side out.old count.old }
{
    host::pinuglaw_l2(state, rows, scratch, side, out, count)
}

// The same of a book that is invalid; 256 of one that is not.
#[unsafe(no_mangle)]
pub extern "C" fn pinuglaw_stale_l2(
    state: &[u64],
    rows: &[u64],
    scratch: &mut [u64],
    side: u64,
    out: &mut [u64],
    count: &mut [u64],
) -> u64
    ensures { level_called result scratch.new out.new count.new ≡ stale_call state.now rows.now scratch.old side out.old count.old }
{
    host::pinuglaw_stale_l2(state, rows, scratch, side, out, count)
}

// An estimate for an order created now at a side and price, into eight words, and the orders ahead of it, three words each.
#[unsafe(no_mangle)]
pub extern "C" fn pinuglaw_queue_estimate(
    state: &[u64],
    rows: &[u64],
    side: u64,
    price: u64,
    ahead: &mut [u64],
    estimate: &mut [u64],
) -> u64
    ensures { estimate_called result ahead.new estimate.new ≡ estimate_call state.now rows.now side price ahead.old estimate.old }
{
    host::pinuglaw_queue_estimate(state, rows, side, price, ahead, estimate)
}

// An estimate for our own order, into eight words.
#[unsafe(no_mangle)]
pub extern "C" fn pinuglaw_queue_estimate_own(
    state: &[u64],
    rows: &[u64],
    id_high: u64,
    id_low: u64,
    estimate: &mut [u64],
) -> u64
    ensures { answered result estimate.new ≡ own_call state.now rows.now id_high id_low estimate.old }
{
    host::pinuglaw_queue_estimate_own(state, rows, id_high, id_low, estimate)
}

// The volume ahead of an estimate, into seven words.
#[unsafe(no_mangle)]
pub extern "C" fn pinuglaw_volume_ahead(
    state: &[u64],
    rows: &[u64],
    estimate: &[u64],
    ahead: &[u64],
    out: &mut [u64],
) -> u64
    ensures { answered result out.new ≡ ahead_call state.now rows.now estimate.now ahead.now out.old }
{
    host::pinuglaw_volume_ahead(state, rows, estimate, ahead, out)
}
