// The calls: each prints its line.
use crate::memory::{AHEAD, Book, OUTPUT, SCRATCH, digest, fill};
use crate::print;
use book_queue::{AHEAD_ENTRY_WORDS, QUEUE_WORDS};
use host_estimate_words::ESTIMATE_WORDS;
use host_handshake::HANDSHAKE_WORDS;
use recorded::{Header, Operation, load};
use recorded_pieces::{apply_piece, step_piece};
use std::io::{self, Print, Stdout};

// Bytes of a word.
const WORD_BYTES: usize = 8;

// Words that the calls give, by include/pinuglaw.h: values, and an entry of each level read that crate `book_queue` does not name.
const LAST_SEQUENCE_WORDS: usize = 1;

const BEST_WORDS: usize = 4;

const INVALIDATION_WORDS: usize = 6;

const RECORD_WORDS: usize = 10;

const COUNT_WORDS: usize = 1;

const PROFILE_WORDS: usize = 3;

const L2_WORDS: usize = 2;

const VOLUME_WORDS: usize = 7;

// The word of an estimate that has how many orders its list has.
const ESTIMATE_ORDERS: usize = 5;

// A recorded call, and where its line is printed.
#[derive(Clone, Copy)]
pub struct Call<'a> {
    pub to: Stdout,
    pub header: Header,
    pub payload: &'a [u8],
}

impl Call<'_> {
    pub fn perform(self, book: &mut Book<'_>) -> io::Result<()> {
        let voice = print::voice(self.header.voice);
        let name = print::name(self.header.operation);
        print!(self.to; "{voice} {name}")?;
        self.make(book)
    }

    fn make(self, book: &mut Book<'_>) -> io::Result<()> {
        let h = self.header;
        match h.operation {
            Operation::Create => self.create(book),
            Operation::Write => self.write(book),
            Operation::Bootstrap => self.bootstrap(book),
            Operation::Apply => self.apply(book),
            Operation::Handshake => self.give(book, &mut [0; HANDSHAKE_WORDS], |book, out| {
                host::pinuglaw_handshake(book.state, out)
            }),
            Operation::Step => self.step(book),
            Operation::LastSequence => self.give(
                book,
                &mut [0; LAST_SEQUENCE_WORDS],
                |book, out| { host::pinuglaw_last_sequence(book.state, book.rows, out) },
            ),
            Operation::Best => self.give(book, &mut [0; BEST_WORDS], |book, out| {
                host::pinuglaw_best(book.state, book.rows, out)
            }),
            Operation::Audit => self.audit(book),
            Operation::LevelQueue
            | Operation::PriorityProfile
            | Operation::L2
            | Operation::StaleL2 => self.level_read(book),
            Operation::QueueEstimate => self.queue_estimate(book),
            Operation::QueueEstimateOwn => self.give(book, &mut [0; ESTIMATE_WORDS], |book, out| {
                host::pinuglaw_queue_estimate_own(book.state, book.rows, h.first, h.second, out)
            }),
            Operation::VolumeAhead => self.volume_ahead(book),
            Operation::Invalidation => self.give(book, &mut [0; INVALIDATION_WORDS], |book, out| {
                host::pinuglaw_invalidation(book.state, out)
            }),
            Operation::Segment => self.give(book, &mut [0; RECORD_WORDS], |book, out| {
                host::pinuglaw_segment(book.state, book.segments, h.first as usize, out)
            }),
            Operation::Unknown(_) => println!(self.to),
        }
    }

    // The answer, and where it is 0 the words given.
    fn show(self, book: &Book<'_>, number: u64, words: &[u64]) -> io::Result<()> {
        print::answer(self.to, number, book.state)?;
        if number == 0 {
            print::words(self.to, words)?;
        }
        Ok(())
    }

    // A call that gives words and changes nothing.
    fn give<F: FnOnce(&Book<'_>, &mut [u64]) -> u64>(
        self,
        book: &Book<'_>,
        out: &mut [u64],
        call: F,
    ) -> io::Result<()>
        requires { F.IsAlwaysCallable call }
    {
        let number = call(book, out);
        self.show(book, number, out)?;
        println!(self.to)
    }

    // A new book: the first words of its state as recorded, the rest 0; the rows hold what the seed gives, the segments 0.
    fn create(self, book: &mut Book<'_>) -> io::Result<()> {
        book.state.fill(0);
        load(book.state, 0, self.payload);
        fill(book.rows, self.header.first);
        book.segments.fill(0);
        print!(self.to; " 0")?;
        print::book(self.to, book)
    }

    // The host writes words into its memory.
    fn write(self, book: &mut Book<'_>) -> io::Result<()> {
        let first = self.header.first as usize;
        match self.header.which {
            0 => load(book.state, first, self.payload),
            1 => load(book.rows, first, self.payload),
            _ => load(book.segments, first, self.payload),
        }
        print!(self.to; " 0")?;
        print::book(self.to, book)
    }

    fn bootstrap(self, book: &mut Book<'_>) -> io::Result<()> {
        let number = host::pinuglaw_bootstrap(book.state, book.rows, book.segments, self.payload);
        print::answer(self.to, number, book.state)?;
        print::book(self.to, book)
    }

    fn apply(self, book: &mut Book<'_>) -> io::Result<()> {
        let number = apply_piece(self.payload, book.state, book.rows, book.segments);
        print::answer(self.to, number, book.state)?;
        print::book(self.to, book)
    }

    // A step of the recorded handshake: its four words, and then the piece.
    fn step(self, book: &mut Book<'_>) -> io::Result<()> {
        let mut value = [0u64; HANDSHAKE_WORDS];
        let head = self.payload.len().min(WORD_BYTES * HANDSHAKE_WORDS);
        load(&mut value, 0, self.payload);
        let number = step_piece(
            &self.payload[head..],
            book.state,
            book.rows,
            book.segments,
            &mut value,
        );
        print::answer(self.to, number, book.state)?;
        print::words(self.to, &value)?;
        print::book(self.to, book)
    }

    fn audit(self, book: &Book<'_>) -> io::Result<()> {
        let number = host::pinuglaw_audit(book.state, book.rows);
        print::answer(self.to, number, book.state)?;
        println!(self.to)
    }

    fn level_call(
        self,
        book: &Book<'_>,
        scratch: &mut [u64],
        out: &mut [u64],
        count: &mut [u64],
    ) -> u64 {
        let h = self.header;
        match h.operation {
            Operation::LevelQueue => {
                host::pinuglaw_level_queue(
                    book.state, book.rows, scratch, h.which, h.first, out, count,
                )
            }
            Operation::PriorityProfile => {
                host::pinuglaw_priority_profile(book.state, book.rows, scratch, h.which, out, count)
            }
            Operation::L2 => host::pinuglaw_l2(book.state, book.rows, scratch, h.which, out, count),
            _ => host::pinuglaw_stale_l2(book.state, book.rows, scratch, h.which, out, count),
        }
    }

    // The entries that a call gave, each of so many words.
    fn show_entries(self, out: &[u64], entries: u64, each: usize) -> io::Result<()> {
        let n = each.saturating_mul(entries as usize).min(out.len());
        print::words(self.to, &out[..n])
    }

    // A level read with these buffers.
    fn level_lent(self, book: &Book<'_>, scratch: &mut [u64], out: &mut [u64]) -> io::Result<()> {
        let mut count = [0u64; COUNT_WORDS];
        fill(scratch, 1);
        fill(out, 2);
        let number = self.level_call(book, scratch, out, &mut count);
        self.show(book, number, &count)?;
        if number == 0 {
            self.show_entries(out, count[0], entry_words(self.header.operation))?;
        }
        println!(self.to; " ; {} {}", digest(scratch), digest(out))
    }

    fn level_read(self, book: &Book<'_>) -> io::Result<()> {
        let mut scratch = [0u64; SCRATCH];
        let mut out = [0u64; OUTPUT];
        let s = self.header.scratch.min(SCRATCH);
        let o = self.header.output.min(OUTPUT);
        self.level_lent(book, &mut scratch[..s], &mut out[..o])
    }

    fn estimate_lent(self, book: &Book<'_>, ahead: &mut [u64]) -> io::Result<()> {
        let mut estimate = [0u64; ESTIMATE_WORDS];
        fill(ahead, 3);
        let number = host::pinuglaw_queue_estimate(
            book.state,
            book.rows,
            self.header.which,
            self.header.first,
            ahead,
            &mut estimate,
        );
        self.show(book, number, &estimate)?;
        if number == 0 {
            self.show_entries(ahead, estimate[ESTIMATE_ORDERS], AHEAD_ENTRY_WORDS)?;
        }
        println!(self.to; " ; {}", digest(ahead))
    }

    fn queue_estimate(self, book: &Book<'_>) -> io::Result<()> {
        let mut ahead = [0u64; AHEAD];
        let a = self.header.ahead.min(AHEAD);
        self.estimate_lent(book, &mut ahead[..a])
    }

    // The volume ahead of the recorded estimate: its eight words, and then its list.
    fn volume_ahead(self, book: &Book<'_>) -> io::Result<()> {
        let mut estimate = [0u64; ESTIMATE_WORDS];
        let mut list = [0u64; AHEAD];
        let head = self.payload.len().min(WORD_BYTES * ESTIMATE_WORDS);
        let rest = &self.payload[head..];
        load(&mut estimate, 0, self.payload);
        load(&mut list, 0, rest);
        let n = (rest.len() / WORD_BYTES).min(AHEAD);
        self.give(book, &mut [0; VOLUME_WORDS], |book, out| {
            host::pinuglaw_volume_ahead(book.state, book.rows, &estimate, &list[..n], out)
        })
    }
}

// The words of an entry.
fn entry_words(operation: Operation) -> usize {
    match operation {
        Operation::LevelQueue => QUEUE_WORDS,
        Operation::PriorityProfile => PROFILE_WORDS,
        _ => L2_WORDS,
    }
}
