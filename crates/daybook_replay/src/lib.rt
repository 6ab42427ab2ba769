// The replay of a day file that keeps its rules: its pieces in file order on a fresh book, up to one that stops it. 1, 2 and 3 turn away no state on the way.
#![tactic(auto)]

ghost use Rattle.std.specs.Prelude.{◌≡◌, ◌≤◌, length};
ghost use Rattle.daybook_file.specs.DayFile.{pieces_of, product_of};
ghost use Rattle.daybook_segments.specs.DaySegments.{day_segments};
ghost use Rattle.daybook_replay.specs.Replay.{fresh_rows, fresh_day, is_continued, day_of};
ghost use Rattle.daybook_replay.specs.ByValue.{ended_with};

use book::LentRows;
use book_index_upkeep::bounds_of;
use daybook_file::DayFile;
use daybook_pieces::{Standing, play};
use daybook_segments::{DAY_SEGMENTS, Day, Stop, filed, no_segments};
use reconstructor_segments::Segment;
use reconstructor_state::{BookReconstructor, VenueRules};

// The limits of a day's book.
const DAY_LIMIT: usize = 512;

// The words of its rows: 8 an order.
const DAY_ROW_WORDS: usize = 4096;

// In so many places of the index most ids that do not rest find no mark.
const PLACES: usize = 4096;

// Whether a number does not stop it: of what is accepted, or of a refusal from 10 to 17.
fn goes_on(number: u64) -> bool
    ensures { result ≡ is_continued number }
{
    matches!(number, 0 | 256 | 10..=17)
}

// The day with the last record put back into the list.
fn ended(
    book: BookReconstructor,
    segments: [Segment; DAY_SEGMENTS],
    last: Segment,
    stop: Option<Stop>,
) -> Day
    ensures { result ≡ ended_with book segments last stop }
{
    let count = book.segments;
    let none = Segment::none();
    let segments = filed(segments, count, last, DAY_SEGMENTS, none);
    Day {
        book,
        segments,
        stop,
    }
}

// The book before the first piece.
fn fresh_book(file: DayFile<'_>) -> BookReconstructor
    ensures { result ≡ (fresh_day (product_of (pieces_of file.entry.bytes.now))).book }
{
    let rules = VenueRules::with_limits(DAY_LIMIT, DAY_LIMIT);
    BookReconstructor::new(file.first_product(), rules, 0)
}

// The replay, with memory for the rows and an index of them. The last segment's record is held apart, and put into the list where a snapshot starts another.
fn replay_pieces(file: DayFile<'_>, rows: &mut [u64], places: &mut [u16]) -> Day
    requires { (rows.old ≡ fresh_rows) × (length places.old ≤ 65536) }
    ensures replays { result ≡ day_of file.entry.bytes.now }
    ensures few { result.book.segments ≤ day_segments }
{
    let book = fresh_book(file);
    let bounds = Some(bounds_of(LentRows {
        words: rows,
        count: 0,
    }));
    let mut standing = Standing {
        book,
        rows,
        places,
        bounds,
    };
    let mut last = Segment::none();
    let mut segments = no_segments();
    for i in 0..file.piece_count() {
        let listed = standing.book.segments;
        let turn = play(&mut standing, last, file.piece(i));
        if turn.at < DAY_SEGMENTS {
            let kept = filed(segments, listed, turn.segment, turn.at, turn.started);
            segments = kept;
            last = turn.started;
        } else {
            last = turn.segment;
        }
        let number = turn.answer.number();
        if !goes_on(number) {
            let stop = Some(Stop {
                piece: i + 1,
                number,
            });
            return ended(standing.book, segments, last, stop);
        }
    }
    ended(standing.book, segments, last, None)
}

// The same with memory of its own.
#[tactic(auto, unfolding(crate::specs::Replay::fresh_rows))]
pub fn replay_day(file: DayFile<'_>) -> Day
    ensures replays { result ≡ day_of file.entry.bytes.now }
    ensures few { result.book.segments ≤ day_segments }
{
    let mut rows = [0u64; DAY_ROW_WORDS];
    let mut places = [0u16; PLACES];
    replay_pieces(file, &mut rows, &mut places)
}
