// A piece of a day file, on a book that passes 1, 2 and 3: a snapshot or a message, with an index of the rows, which is made anew for each snapshot taken.
#![tactic(auto)]

ghost use Rattle.std.specs.Prelude.{◌≡◌, false, ◌≤◌, length};
ghost use Rattle.piece.specs.Piece.{read_message};
ghost use Rattle.book.specs.Lending.{rows_in};
ghost use Rattle.book.specs.Memory.{memory};
ghost use Rattle.reconstructor_state.specs.State.{ceiling};
ghost use Rattle.reconstructor_bootstrap.specs.Bootstrap.{bootstrapped_to};
ghost use Rattle.daybook_segments.specs.DaySegments.{day_segments};
ghost use Rattle.daybook_pieces.specs.Played.{is_snapshot};
ghost use Rattle.daybook_pieces.specs.Answers.{piece_answer_number};
ghost use Rattle.daybook_pieces.specs.ByValue.{unstarted_turn, Marks, turned, by_bootstrap_to, play_message_to, played_to, Plays};

use book::LentRows;
use book_index::Bounds;
use book_index_upkeep::{bounds_of, mark_rows};
use daybook_segments::DAY_SEGMENTS;
use piece::PieceError;
use piece_messages::read_message;
use piece_snapshots::read_snapshot;
use reconstructor_answers::{Applied, ApplyError, answer_number};
use reconstructor_apply_run::apply_in_run;
use reconstructor_bootstrap::{BootstrapError, snapshot_number};
use reconstructor_bootstrap_usable::bootstrap_usable;
use reconstructor_segments::Segment;
use reconstructor_state::BookReconstructor;

// What a piece is answered with.
#[derive(Clone, Copy)]
pub enum Answer {
    // Its bytes are no piece of its kind, or hold a value out of range.
    Unread(PieceError),
    Snapshot(Result<(), BootstrapError>),
    Message(Result<Applied, ApplyError>),
}

impl Answer {
    // Its number in 01's table.
    pub fn number(self) -> u64
        ensures { result ≡ piece_answer_number self }
    {
        match self {
            Answer::Unread(error) => error.number(),
            Answer::Snapshot(answer) => snapshot_number(answer),
            Answer::Message(answer) => answer_number(answer),
        }
    }
}

// A book that passes 1, 2 and 3, the memory that it is lent, and an index of its rows.
#[derive(Drop)]
pub struct Standing<'a> {
    pub book: BookReconstructor,
    pub rows: &'a mut [u64],
    pub places: &'a mut [u16],
    pub bounds: Option<Bounds>,
    pub ghost plays: { Plays book rows.now places.now bounds },
}

// What a piece comes to, beside how the book stands.
#[derive(Clone, Copy)]
pub struct Turn {
    pub answer: Answer,
    // The last segment's record; and the record that a snapshot starts, with its place, which is past the list's end where none is started.
    pub segment: Segment,
    pub at: usize,
    pub started: Segment,
}

// One that starts no record.
fn unstarted(answer: Answer, segment: Segment) -> Turn
    ensures { result ≡ unstarted_turn answer segment }
{
    let started = Segment::none();
    Turn {
        answer,
        segment,
        at: DAY_SEGMENTS,
        started,
    }
}

// Marks of orders that are gone would do no harm but cost a search each, so no promise needs this.
fn clear(places: &mut [u16]) {
    places.fill(0);
}

// The index of the rows: made anew where a snapshot was taken, else the one that there is.
fn index_after(
    rows: LentRows<'_>,
    places: &mut [u16],
    bounds: Option<Bounds>,
    taken: bool,
) -> Option<Bounds>
    requires few { length places.old ≤ 65536 }
    requires marks { taken ≡ false → Marks places.old bounds (rows_in rows) }
    ensures { Marks places.new result (rows_in rows.entry) }
{
    if !taken {
        return bounds;
    }
    clear(places);
    mark_rows(rows, places);
    Some(bounds_of(rows))
}

// A piece that is to be a snapshot.
fn play_snapshot(standing: &mut Standing<'_>, last: Segment, bytes: &[u8]) -> Turn
    ensures played { turned result standing.new.book (memory standing.new.rows.now) ≡ by_bootstrap_to (bootstrapped_to ceiling standing.old.book (memory standing.old.rows.now) day_segments last bytes.now) }
    ensures same_rows { standing.new.rows.ghost_name ≡ standing.old.rows.ghost_name }
    ensures same_places { standing.new.places.ghost_name ≡ standing.old.places.ghost_name }
    ensures same_size { length standing.new.places.now ≡ length standing.old.places.now }
{
    match read_snapshot(bytes) {
        Err(error) => unstarted(Answer::Unread(error), last),
        Ok(snapshot) => {
            let before = standing.book;
            let rows = &mut *standing.rows;
            let work = bootstrap_usable(before, rows, DAY_SEGMENTS, last, bytes, snapshot);
            let taken = work.at < DAY_SEGMENTS;
            let lent = LentRows {
                words: rows,
                count: work.book.rows,
            };
            let bounds = index_after(lent, standing.places, standing.bounds, taken);
            standing.book = work.book;
            standing.bounds = bounds;
            Turn {
                answer: Answer::Snapshot(work.answer),
                segment: work.segment,
                at: work.at,
                started: work.started,
            }
        }
    }
}

// A piece that is to be a message.
fn play_message(standing: &mut Standing<'_>, last: Segment, bytes: &[u8]) -> Turn
    ensures played { turned result standing.new.book (memory standing.new.rows.now) ≡ play_message_to (read_message bytes.now) standing.old.book (memory standing.old.rows.now) last }
    ensures same_rows { standing.new.rows.ghost_name ≡ standing.old.rows.ghost_name }
    ensures same_places { standing.new.places.ghost_name ≡ standing.old.places.ghost_name }
    ensures same_size { length standing.new.places.now ≡ length standing.old.places.now }
{
    match read_message(bytes) {
        Err(error) => unstarted(Answer::Unread(error), last),
        Ok(message) => {
            let run = apply_in_run(
                standing.book,
                standing.rows,
                last,
                standing.places,
                standing.bounds,
                message,
            );
            standing.book = run.work.book;
            standing.bounds = run.bounds;
            let answer = Answer::Message(run.work.answer);
            unstarted(answer, run.work.segment)
        }
    }
}

fn is_snapshot(bytes: &[u8]) -> bool
    ensures { result ≡ is_snapshot bytes.now }
{
    if bytes.len() == 0 {
        return false;
    }
    bytes[0] == 0
}

// The next piece of the day.
#[tactic(auto, unfolding(crate::specs::ByValue::played_to))]
pub fn play(standing: &mut Standing<'_>, last: Segment, bytes: &[u8]) -> Turn
    ensures played { turned result standing.new.book (memory standing.new.rows.now) ≡ played_to standing.old.book (memory standing.old.rows.now) last bytes.now }
    ensures same_rows { standing.new.rows.ghost_name ≡ standing.old.rows.ghost_name }
    ensures same_places { standing.new.places.ghost_name ≡ standing.old.places.ghost_name }
    ensures same_size { length standing.new.places.now ≡ length standing.old.places.now }
{
    if is_snapshot(bytes) {
        return play_snapshot(standing, last, bytes);
    }
    play_message(standing, last, bytes)
}
