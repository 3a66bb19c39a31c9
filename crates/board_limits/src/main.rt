// Runs a board at its limits, on the paper's own rows and from states that are not sound, one line a case: what was done, then what came of it.
#![tactic(auto)]

use board::{Board, Edited};
use cases::{row, yes_or_no};
use rows::{Call, Days, Entry, Row};
use std::io;

// Whether every word of the two boards is the same.
fn same_board(a: &Board, b: &Board) -> bool {
    a.count == b.count
        && a.kept == b.kept
        && a.undone == b.undone
        && a.rows == b.rows
        && a.journal == b.journal
}

// The board after some calls, how many of them were accepted, and the number of the last.
#[derive(Drop)]
struct AfterCalls {
    board: Board,
    accepted: u32,
    refusal: u32,
}

// The same call n times.
fn repeated(start: Board, call: Call, n: usize) -> AfterCalls {
    let mut ran = AfterCalls {
        board: start,
        accepted: 0,
        refusal: 0,
    };
    for _ in 0..n {
        let edited = ran.board.edit(call);
        ran = AfterCalls {
            board: edited.board,
            accepted: ran.accepted.saturating_add(u32::from(edited.refusal == 0)),
            refusal: edited.refusal,
        };
    }
    ran
}

fn adds(start: Board, n: usize) -> AfterCalls {
    repeated(start, Call::Add(row(0, 7, 1, -3)), n)
}

fn undos(start: Board, n: usize) -> AfterCalls {
    repeated(start, Call::Undo, n)
}

fn redos(start: Board, n: usize) -> AfterCalls {
    repeated(start, Call::Redo, n)
}

fn outcome(rt: &impl Print, name: &str, before: &Board, edited: Edited) -> io::Result<()> {
    let unchanged = yes_or_no(same_board(before, &edited.board));
    print!(rt; "{name} {} unchanged {unchanged}", edited.refusal)
}

fn dated(numeral: u32, first: u32, last: u32) -> Row {
    Row {
        days: Days { first, last },
        ..row(0, numeral, 1, -3)
    }
}

fn limits(rt: &impl Print) -> io::Result<()> {
    let full = adds(Board::EMPTY, 1025);
    print!(rt;
        "1025 adds: accepted {}, the last refused {}",
        full.accepted, full.refusal
    )?;
    let most = full.board;
    outcome(
        rt,
        ", one of days 6 to 5 refused",
        &most,
        most.add(dated(7, 6, 5)),
    )?;
    let some = adds(Board::EMPTY, 257);
    let back = undos(some.board, 257);
    print!(rt;
        "\n257 adds, then 257 undos: accepted {} and {}, the last refused {}",
        some.accepted, back.accepted, back.refusal
    )?;
    let again = redos(back.board, 257);
    let same = yes_or_no(same_board(&some.board, &again.board));
    println!(rt;
        "\nthen 257 redos: accepted {}, the last refused {}, the same board {same}",
        again.accepted, again.refusal
    )
}

// A board made by hand: 256 rows, 256 kept adds and 256 undone ones.
fn full_tape() -> Board {
    let mut board = adds(Board::EMPTY, 256).board;
    for i in 0..256usize {
        board.journal[i] = Entry {
            kind: 0,
            at: i as u32,
            row: row(0, 7, 1, -3),
        };
        board.journal[i + 256] = Entry {
            kind: 1,
            at: (i + 256) as u32,
            row: row(0, 8, 1, -3),
        };
    }
    board.kept = 256;
    board.undone = 256;
    board
}

fn state(rt: &impl Print, name: &str, ran: &AfterCalls) -> io::Result<()> {
    print!(rt;
        "{name}: accepted {}, the last refused {}",
        ran.accepted, ran.refusal
    )?;
    println!(rt;
        ", rows, kept and undone {} {} {}",
        ran.board.count, ran.board.kept, ran.board.undone
    )
}

// Where K and F are full, an undo drops the last list of F, a redo the last of K.
fn full_tapes(rt: &impl Print) -> io::Result<()> {
    let board = full_tape();
    println!(rt;
        "256 kept and 256 undone steps: sound {}",
        yes_or_no(board.sound())
    )?;
    let on = redos(board, 257);
    state(rt, "257 redos", &on)?;
    state(rt, "then 257 undos", &undos(on.board, 257))?;
    let back = undos(board, 257);
    state(rt, "257 undos", &back)?;
    state(rt, "then 257 redos", &redos(back.board, 257))?;
    state(rt, "1 redo and 1 undo", &undos(redos(board, 1).board, 1))?;
    state(rt, "1 undo and 1 redo", &redos(undos(board, 1).board, 1))?;
    state(rt, "1 undo and 1 add", &adds(undos(board, 1).board, 1))
}

// M8: withdraw row 2, undo, the same rows; redo, the rows without it.
fn withdraw_undo_redo(rt: &impl Print) -> io::Result<()> {
    let before = cases::sample_board();
    let out = before.withdraw(2);
    let without = out.board;
    println!(rt;
        "withdraw row 2 of 7: refusal {}, row 2 has numeral {}",
        out.refusal, without.rows[1].numeral
    )?;
    let back = without.undo();
    let after = back.board;
    let rows = yes_or_no(before.rows[..7] == after.rows[..7]);
    print!(rt; "undo it: refusal {}, the same rows {rows}", back.refusal)?;
    let counts = yes_or_no(before.count == after.count);
    println!(rt;
        ", the same counts {counts} {}",
        yes_or_no(before.kept == after.kept)
    )?;
    let on = after.redo();
    let gone = on.board;
    let same = yes_or_no(same_board(&without, &gone));
    println!(rt; "redo it: refusal {}, the same board {same}", on.refusal)?;
    println!(rt; "redo once more: refusal {}", gone.redo().refusal)?;
    let edited = after.remark(1, 6).board.redo();
    println!(rt; "undo, remark, redo: refusal {}", edited.refusal)
}

// A row whose first day is after its last: 20 comes after 1 and 2.
fn without_days(rt: &impl Print) -> io::Result<()> {
    let seven = cases::sample_board();
    let mut long = seven;
    long.count = 1025;
    outcome(
        rt,
        "add of days 6 to 5: to 7 rows",
        &seven,
        seven.add(dated(7, 6, 5)),
    )?;
    outcome(rt, ", with numeral 0", &seven, seven.add(dated(0, 6, 5)))?;
    outcome(rt, ", to count 1025", &long, long.add(dated(7, 6, 5)))?;
    print!(rt; "\n")
}

// Prints the days of row 8.
fn days(rt: &impl Print, name: &str, board: &Board) -> io::Result<()> {
    let days = board.rows[7].days;
    print!(rt; ", {name} {} {}", days.first, days.last)
}

// A row of one day keeps it when it is given new minutes, taken out, put back and added again.
fn one_day(rt: &impl Print) -> io::Result<()> {
    let added = cases::sample_board().add(dated(7, 5, 5));
    let eight = added.board;
    print!(rt; "add of day 5 alone: refusal {}", added.refusal)?;
    days(rt, "days", &eight)?;
    let remarked = eight.remark(8, 9).board;
    days(rt, "after a remark", &remarked)?;
    let back = remarked.withdraw(8).board.undo().board;
    days(rt, "after a withdrawal and an undo", &back)?;
    let again = back.undo().board.undo().board.redo().board;
    days(rt, "after two undos and a redo", &again)?;
    print!(rt; "\n")
}

// What each edit answers on a board that is not sound.
fn unsound(rt: &impl Print, name: &str, board: Board) -> io::Result<()> {
    print!(rt; "{name}: sound {}", yes_or_no(board.sound()))?;
    outcome(rt, ", add", &board, board.add(row(0, 7, 1, -3)))?;
    outcome(rt, ", withdraw", &board, board.withdraw(1))?;
    outcome(rt, ", remark", &board, board.remark(1, 9))?;
    outcome(rt, ", undo", &board, board.undo())?;
    outcome(rt, ", redo", &board, board.redo())?;
    print!(rt; "\n")
}

// The board with one kept step.
fn with_kept(start: Board, kind: u32, at: u32, numeral: u32) -> Board {
    let mut board = start;
    board.journal[0] = Entry {
        kind,
        at,
        row: row(0, numeral, 1, 2),
    };
    board.kept = 1;
    board.undone = 0;
    board
}

// The board with that step undone.
fn with_undone(start: Board, kind: u32, at: u32, numeral: u32) -> Board {
    let mut board = with_kept(start, kind, at, numeral);
    board.kept = 0;
    board.undone = 1;
    board
}

fn unsound_counts(rt: &impl Print) -> io::Result<()> {
    let mut long = cases::sample_board();
    long.count = 1025;
    unsound(rt, "count 1025", long)?;
    let mut deep = cases::sample_board();
    deep.kept = 257;
    unsound(rt, "kept 257", deep)?;
    let mut wide = cases::sample_board();
    wide.undone = 257;
    unsound(rt, "undone 257", wide)?;
    let mut blank = cases::sample_board();
    blank.rows[3] = row(20, 0, 1, 2);
    unsound(rt, "row 4 with numeral 0", blank)
}

// An entry that takes out, puts in or sets: the newest kept one, then the newest undone one.
fn unsound_kept(rt: &impl Print) -> io::Result<()> {
    let seven = cases::sample_board();
    let full = adds(Board::EMPTY, 1024).board;
    unsound(rt, "kept entry of kind 3", with_kept(seven, 3, 0, 5))?;
    unsound(rt, "kept add to no rows", with_kept(Board::EMPTY, 0, 0, 5))?;
    unsound(
        rt,
        "kept add at place 7 of 7 rows",
        with_kept(seven, 0, 7, 5),
    )?;
    unsound(
        rt,
        "kept withdrawal from place 8 of 7 rows",
        with_kept(seven, 1, 8, 5),
    )?;
    unsound(
        rt,
        "kept withdrawal from 1024 rows",
        with_kept(full, 1, 0, 5),
    )?;
    unsound(
        rt,
        "kept withdrawal of numeral 0",
        with_kept(seven, 1, 7, 0),
    )?;
    unsound(
        rt,
        "kept remark of place 7 of 7 rows",
        with_kept(seven, 2, 7, 5),
    )?;
    unsound(rt, "kept remark of numeral 0", with_kept(seven, 2, 6, 0))
}

fn unsound_undone(rt: &impl Print) -> io::Result<()> {
    let seven = cases::sample_board();
    let full = adds(Board::EMPTY, 1024).board;
    unsound(rt, "undone entry of kind 3", with_undone(seven, 3, 0, 5))?;
    unsound(
        rt,
        "undone withdrawal from place 7 of 7 rows",
        with_undone(seven, 0, 7, 5),
    )?;
    unsound(
        rt,
        "undone add at place 8 of 7 rows",
        with_undone(seven, 1, 8, 5),
    )?;
    unsound(rt, "undone add to 1024 rows", with_undone(full, 1, 0, 5))?;
    unsound(rt, "undone add of numeral 0", with_undone(seven, 1, 7, 0))?;
    unsound(
        rt,
        "undone remark of place 7 of 7 rows",
        with_undone(seven, 2, 7, 5),
    )?;
    unsound(
        rt,
        "undone remark of numeral 0",
        with_undone(seven, 2, 6, 0),
    )
}

// The same calls as words: two adds, a withdrawal of row 3, a withdrawal of row 1, an undo, two redos, an undo, an add of days 6 to 5.
fn replayed(rt: &impl Print) -> io::Result<()> {
    let words: [u32; 63] = [
        0, 0, 10, 1, 5, 0, 4294967295, 0, 10, 20, 2, 4294967295, 5, 9, 1, 3, 0, 0, 0, 0, 0, 1, 1,
        0, 0, 0, 0, 0, 3, 0, 0, 0, 0, 0, 0, 4, 0, 0, 0, 0, 0, 0, 4, 0, 0, 0, 0, 0, 0, 3, 0, 0, 0,
        0, 0, 0, 0, 0, 7, 1, 1, 6, 5,
    ];
    let mut refusals: [u32; 10] = [9; 10];
    let result = history::replay(&words, &mut refusals);
    print!(rt; "replay of 9 calls: refusal {}, refusals", result.refusal)?;
    for refusal in refusals {
        print!(rt; " {refusal}")?;
    }
    let second = result.board.rows[1];
    let below = yes_or_no(second.minutes < 0);
    print!(rt;
        ", row 2 has numeral {}, minutes below 0 {below}",
        second.numeral
    )?;
    println!(rt; ", days {} {}", second.days.first, second.days.last)
}

fn main(rt: HostRuntime) -> io::Result<()> {
    limits(&rt)?;
    full_tapes(&rt)?;
    withdraw_undo_redo(&rt)?;
    without_days(&rt)?;
    one_day(&rt)?;
    unsound_counts(&rt)?;
    unsound_kept(&rt)?;
    unsound_undone(&rt)?;
    replayed(&rt)
}
