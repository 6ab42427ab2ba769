// Runs the book: search, insert, reduce and removal, levels and walks, books of 0, 1, 4 and 4,096 rows, and rows damaged in every way that
// number 3 names. `stdout` beside this folder was worked out apart from this program.
#![tactic(auto)]

ghost use Rattle.std.specs.Prelude.{◌<◌};

use book::{LentRows, Resting, SoundRows};
use book_valid::AuditFinding;
use message::{L3Side, OrderId};
use std::io;

// A book: words, and how many rows of them are in use.
#[derive(Drop)]
struct Book<'a> {
    words: &'a mut [u64],
    rows: usize,
}

fn show(rt: HostRuntime, words: &[u64]) -> io::Result<()> {
    print!(rt; "words")?;
    for word in words {
        print!(rt; " {word}")?;
    }
    println!(rt; "")
}

fn order(id: u64, price: u64, remaining: u64, kind: u64, entered_at: u64) -> Resting {
    Resting {
        high: 1,
        low: id,
        price,
        remaining,
        kind,
        entered_at,
        ..Resting::default()
    }
}

// Inserts an order, if there is room.
fn add(book: &mut Book<'_>, o: Resting) {
    let n = book.rows;
    if n < book::MOST_ROWS && book::ROW_WORDS * n + book::ROW_WORDS <= book.words.len() {
        book_changes::insert(book.words, n, o);
        book.rows = n + 1;
    }
}

fn reduce(book: &mut Book<'_>, i: usize, remaining: u64, mark: Option<u64>) {
    let n = book.rows;
    if n <= book::MOST_ROWS && book::ROW_WORDS * n <= book.words.len() && i < n {
        book_changes::reduce(book.words, n, i, remaining, mark);
    }
}

// Removes a row, if it is in use.
fn remove(book: &mut Book<'_>, i: usize) {
    let n = book.rows;
    if n <= book::MOST_ROWS && book::ROW_WORDS * n <= book.words.len() && i < n {
        book_changes::remove(book.words, n, i);
        book.rows = n - 1;
    }
}

// The place of an id, or `none`.
fn find(rt: HostRuntime, book: &Book<'_>, id: u64) -> io::Result<()> {
    if book_valid::rows_broken(book.words, book.rows, book::MOST_ROWS) {
        return Ok(());
    }
    let rows = LentRows {
        words: book.words,
        count: book.rows,
    };
    match book_search::find(rows, OrderId { high: 1, low: id }) {
        Some(i) => println!(rt; "find {i}"),
        None => println!(rt; "find none"),
    }
}

fn price(rt: HostRuntime, best: Option<u64>) -> io::Result<()> {
    match best {
        Some(p) => print!(rt; " {p}"),
        None => print!(rt; " none"),
    }
}

// Best bid and ask; the number of levels, of buys and of sells.
fn tops(rt: HostRuntime, book: &Book<'_>) -> io::Result<()> {
    if book_valid::rows_broken(book.words, book.rows, book::MOST_ROWS) {
        return Ok(());
    }
    let rows = LentRows {
        words: book.words,
        count: book.rows,
    };
    print!(rt; "best")?;
    price(rt, book_prices::best_bid(rows))?;
    price(rt, book_prices::best_ask(rows))?;
    let levels = book_keys::level_count(rows);
    let buys = book_keys::side_level_count(rows, L3Side::Buy);
    let sells = book_keys::side_level_count(rows, L3Side::Sell);
    println!(rt; " levels {levels} {buys} {sells}")
}

fn yes(b: bool) -> &'static str {
    if b { "yes" } else { "no" }
}

// Whether there is a level at a side and price, and whether an order there would cross.
fn meets(rt: HostRuntime, book: &Book<'_>, side: L3Side, price: u64) -> io::Result<()> {
    if book_valid::rows_broken(book.words, book.rows, book::MOST_ROWS) {
        return Ok(());
    }
    let rows = LentRows {
        words: book.words,
        count: book.rows,
    };
    let level = yes(book_search::has_level(rows, side, price));
    let crosses = yes(book_prices::would_cross(rows, side, price));
    println!(rt; "level {level} crosses {crosses}")
}

fn level(rt: HostRuntime, book: &Book<'_>, side: L3Side, price: u64) -> io::Result<()> {
    if book_valid::rows_broken(book.words, book.rows, book::MOST_ROWS) {
        return Ok(());
    }
    let rows = LentRows {
        words: book.words,
        count: book.rows,
    };
    let v = book_levels::level_at(SoundRows { rows }, side, price);
    println!(rt; "at {} {} {} {}", v.price, v.total, v.unknown, v.orders)
}

// Walks a side, and answers how many levels were written to `out`.
fn walk(book: &Book<'_>, side: L3Side, marks: &mut [u64], out: &mut [u64]) -> usize {
    if book_valid::rows_broken(book.words, book.rows, book::MOST_ROWS) {
        return 0;
    }
    let rows = LentRows {
        words: book.words,
        count: book.rows,
    };
    let count = book_keys::side_level_count(rows, side);
    let size = marks.len();
    if size < rows.count || out.len() / 3 < count {
        return 0;
    }
    book_walk::write_levels(SoundRows { rows }, side, 3, marks, size, out)
}

fn finding(answer: Result<(), AuditFinding>) -> &'static str {
    match answer {
        Ok(()) => "ok",
        Err(AuditFinding::NotLent) => "not-lent",
        Err(AuditFinding::SizeNotPositive) => "size",
        Err(AuditFinding::IdTwice) => "id-twice",
        Err(AuditFinding::Crossed) => "crossed",
    }
}

// Whether number 3 names the rows, and what an audit finds.
fn judge(rt: HostRuntime, book: &Book<'_>, max_levels: usize) -> io::Result<()> {
    let broken = yes(book_valid::rows_broken(book.words, book.rows, max_levels));
    let audit = finding(book_audit::audit(book.words, book.rows));
    println!(rt; "broken {broken} audit {audit}")
}

// Four orders: buys at 10 of the snapshot and observed, sells at 12 of the snapshot and at 13 observed.
fn sample(book: &mut Book<'_>) {
    add(book, order(1, 10, 2, 0, 100));
    add(book, order(2, 12, 3, 1, 100));
    add(book, order(3, 10, 5, 2, 101));
    add(book, order(4, 13, 7, 3, 102));
}

// The four orders with one word changed.
fn damaged(rt: HostRuntime, at: usize, word: u64) -> io::Result<()> {
    let mut words = [0u64; 40];
    let mut book = Book {
        words: &mut words,
        rows: 0,
    };
    sample(&mut book);
    if at < book.words.len() {
        book.words[at] = word;
    }
    judge(rt, &book, 3)
}

fn empty_book(rt: HostRuntime) -> io::Result<()> {
    let mut words = [9u64; 8];
    let book = Book {
        words: &mut words,
        rows: 0,
    };
    find(rt, &book, 1)?;
    tops(rt, &book)?;
    meets(rt, &book, L3Side::Buy, 10)?;
    judge(rt, &book, 0)
}

fn one_row(rt: HostRuntime) -> io::Result<()> {
    let mut words = [9u64; 16];
    let mut book = Book {
        words: &mut words,
        rows: 0,
    };
    add(&mut book, order(1, 10, 2, 0, 100));
    find(rt, &book, 1)?;
    find(rt, &book, 2)?;
    tops(rt, &book)?;
    judge(rt, &book, 1)?;
    judge(rt, &book, 0)?;
    remove(&mut book, 0);
    show(rt, book.words)?;
    tops(rt, &book)
}

fn searches(rt: HostRuntime, book: &Book<'_>) -> io::Result<()> {
    find(rt, book, 1)?;
    find(rt, book, 3)?;
    find(rt, book, 4)?;
    find(rt, book, 5)?;
    tops(rt, book)?;
    judge(rt, book, 3)
}

fn sides(rt: HostRuntime, book: &Book<'_>) -> io::Result<()> {
    meets(rt, book, L3Side::Buy, 12)?;
    meets(rt, book, L3Side::Buy, 11)?;
    meets(rt, book, L3Side::Sell, 10)?;
    meets(rt, book, L3Side::Sell, 12)?;
    level(rt, book, L3Side::Buy, 10)?;
    level(rt, book, L3Side::Sell, 12)?;
    level(rt, book, L3Side::Sell, 10)
}

fn four_rows(rt: HostRuntime) -> io::Result<()> {
    let mut words = [9u64; 40];
    let mut book = Book {
        words: &mut words,
        rows: 0,
    };
    sample(&mut book);
    show(rt, book.words)?;
    searches(rt, &book)?;
    sides(rt, &book)
}

fn walks(rt: HostRuntime) -> io::Result<()> {
    let mut words = [0u64; 40];
    let mut book = Book {
        words: &mut words,
        rows: 0,
    };
    sample(&mut book);
    add(&mut book, order(5, 12, 4, 3, 103));
    let mut marks = [7u64; 6];
    let mut out = [8u64; 12];
    let buys = walk(&book, L3Side::Buy, &mut marks, &mut out);
    print!(rt; " {buys}")?;
    show(rt, &out)?;
    show(rt, &marks)?;
    let sells = walk(&book, L3Side::Sell, &mut marks, &mut out);
    print!(rt; " {sells}")?;
    show(rt, &out)
}

// Reductions with and without a mark, then removals in the middle, at the front and at the back.
fn changes(rt: HostRuntime) -> io::Result<()> {
    let mut words = [9u64; 40];
    let mut book = Book {
        words: &mut words,
        rows: 0,
    };
    sample(&mut book);
    reduce(&mut book, 2, 4, Some(103));
    reduce(&mut book, 0, 1, None);
    show(rt, book.words)?;
    remove(&mut book, 1);
    show(rt, book.words)?;
    remove(&mut book, 0);
    show(rt, book.words)?;
    remove(&mut book, 1);
    show(rt, book.words)?;
    judge(rt, &book, 3)
}

// Every way in which number 3 names rows, and amounts at the limits that it does not.
fn damages(rt: HostRuntime) -> io::Result<()> {
    damaged(rt, 39, 1)?;
    damaged(rt, 4, 4)?;
    damaged(rt, 2, 0)?;
    damaged(rt, 2, 1000000000000001)?;
    damaged(rt, 10, 1000000000000000)?;
    damaged(rt, 3, 0)?;
    damaged(rt, 3, 1000000000000001)?;
    damaged(rt, 3, 1000000000000000)?;
    damaged(rt, 6, 2)?;
    damaged(rt, 7, 5)?;
    damaged(rt, 6, 1)?;
    damaged(rt, 9, 1)?;
    damaged(rt, 2, 9)?;
    damaged(rt, 10, 10)?;
    damaged(rt, 10, 11)?;
    let mut words = [0u64; 40];
    let mut book = Book {
        words: &mut words,
        rows: 0,
    };
    sample(&mut book);
    judge(rt, &book, 2)?;
    book.rows = 6;
    judge(rt, &book, 3)?;
    book.rows = 4097;
    judge(rt, &book, 3)
}

// Buys below 1,000, sells from 10,000 on, several orders a level.
fn nth(i: u64) -> Resting
    requires { i < 4096 }
{
    if i % 2 == 0 {
        order(i, 1 + (i * 7) % 600, 1 + i % 5, 2, i)
    } else {
        order(i, 10000 + (i * 11) % 700, 1 + i % 3, 1, i)
    }
}

fn many_rows(book: &mut Book<'_>) {
    for i in 0..4096 {
        add(book, nth(i));
    }
}

fn full_searches(rt: HostRuntime, book: &Book<'_>) -> io::Result<()> {
    let n = book.rows;
    print!(rt; " {n}")?;
    find(rt, book, 0)?;
    find(rt, book, 4095)?;
    find(rt, book, 4096)?;
    tops(rt, book)?;
    judge(rt, book, 4096)?;
    judge(rt, book, 100)?;
    level(rt, book, L3Side::Buy, 8)
}

fn full_walk(rt: HostRuntime, book: &Book<'_>) -> io::Result<()> {
    let mut marks = [1u64; 4096];
    let mut out = [0u64; 12288];
    let buys = walk(book, L3Side::Buy, &mut marks, &mut out);
    print!(rt; " {buys}")?;
    show(rt, &out[..6])?;
    show(rt, &marks[..3])
}

// An order too many is not taken; after a removal one more is, here with an id that rests.
fn full_changes(rt: HostRuntime, book: &mut Book<'_>) -> io::Result<()> {
    add(book, order(5000, 500, 1, 2, 5000));
    let full = book.rows;
    print!(rt; " {full}")?;
    remove(book, 0);
    find(rt, book, 4095)?;
    add(book, order(4095, 500, 1, 2, 5000));
    judge(rt, book, 4096)
}

fn full_book(rt: HostRuntime) -> io::Result<()> {
    let mut words = [0u64; 32776];
    let mut book = Book {
        words: &mut words,
        rows: 0,
    };
    many_rows(&mut book);
    full_searches(rt, &book)?;
    full_walk(rt, &book)?;
    full_changes(rt, &mut book)
}

fn main(rt: HostRuntime) -> io::Result<()> {
    empty_book(rt)?;
    one_row(rt)?;
    four_rows(rt)?;
    walks(rt)?;
    changes(rt)?;
    damages(rt)?;
    full_book(rt)
}
