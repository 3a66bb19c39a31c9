// Runs the marked cases M1 to M10 of paper 01 on its board of seven rows, the build by default, then builds whose refusals or slices are easy to get wrong; prints one line a case after M1's listing.
#![tactic(auto)]

use board::Board;
use built::Built;
use cases::yes_or_no;
use climb::Climbed;
use navigate::Listed;
use request::Start;
use std::io;

// A build over the rows with parent 0.
fn over_zero(
    board: Board,
    code: u32,
    depth: Option<i32>,
    index: &mut [u32],
    totals: &mut [i64],
) -> Built {
    let unread = [0u32; 1];
    Built::from(build::build(
        board,
        code,
        depth,
        Start::ParentZero,
        &unread,
        index,
        totals,
    ))
}

fn report(rt: &impl Print, name: &str, built: Built) -> io::Result<()> {
    print!(rt;
        "{name}: refusal {}, nodes {}, rows left over {}",
        built.refusal, built.nodes, built.left
    )
}

// The answer of a build over the rows with parent 0, into slices for nine nodes.
fn asked(
    rt: &impl Print,
    name: &str,
    board: Board,
    code: u32,
    depth: Option<i32>,
) -> io::Result<()> {
    let mut index = [7u32; 62];
    let mut totals = [7i64; 10];
    report(
        rt,
        name,
        over_zero(board, code, depth, &mut index, &mut totals),
    )?;
    print!(rt; "\n")
}

// The same over the rows whose numeral is in a list.
fn listed(rt: &impl Print, name: &str, code: u32, list: &[u32]) -> io::Result<()> {
    let mut index = [7u32; 62];
    let mut totals = [7i64; 10];
    let built = Built::from(build::build(
        cases::sample_board(),
        code,
        None,
        Start::Listed,
        list,
        &mut index,
        &mut totals,
    ));
    report(rt, name, built)?;
    print!(rt; "\n")
}

// The sample board's index and totals over the rows with parent 0, and what the build answered.
#[derive(Drop)]
struct Made {
    built: Built,
    index: [u32; 62],
    totals: [i64; 10],
}

fn sample_build(code: u32) -> Made {
    let mut index = [0u32; 62];
    let mut totals = [0i64; 10];
    let built = over_zero(cases::sample_board(), code, None, &mut index, &mut totals);
    Made {
        built,
        index,
        totals,
    }
}

fn listing(rt: &impl Print) -> io::Result<()> {
    let made = sample_build(3);
    report(rt, "M1 code 3", made.built)?;
    print!(rt; "\n")?;
    streams::print_listing(
        &mut io::writer(rt),
        &made.index,
        &made.totals,
        made.built.nodes,
    )
}

fn adopted(rt: &impl Print) -> io::Result<()> {
    let made = sample_build(2);
    let index = made.index;
    let level = packed::level_of(index[61]);
    report(rt, "M3 code 2", made.built)?;
    println!(rt;
        ", rank 9 parent {} level {level}, rank 1 size {}",
        index[59], index[10]
    )
}

fn ranks(rt: &impl Print, list: &[u32], n: usize) -> io::Result<()> {
    print!(rt; ", ranks")?;
    for rank in list.iter().take(n) {
        print!(rt; " {rank}")?;
    }
    Ok(())
}

fn descendants(rt: &impl Print) -> io::Result<()> {
    let mut out = [0u32; 9];
    let found = Listed::from(navigate::descendants(&sample_build(3).index, 2, 2, 3, &mut out));
    print!(rt;
        "M6 descendants of 2 at distances 2 to 3: refusal {}",
        found.refusal
    )?;
    ranks(rt, &out, found.len)?;
    print!(rt; "\n")
}

fn ancestors(rt: &impl Print) -> io::Result<()> {
    let mut out = [0u32; 9];
    let found = Climbed::from(climb::ancestors(&sample_build(3).index, 5, -4, 0, &mut out));
    print!(rt;
        "M7 ancestors of 5 at distances -4 to 0: refusal {}",
        found.refusal
    )?;
    ranks(rt, &out, found.len)?;
    println!(rt; ", links {}", found.links)
}

fn withdraw_and_undo(rt: &impl Print) -> io::Result<()> {
    let before = cases::sample_board();
    let out = before.withdraw(2);
    let back = out.board.undo();
    let after = back.board;
    let count = yes_or_no(before.count == after.count);
    let rows = yes_or_no(before.rows[..7] == after.rows[..7]);
    println!(rt;
        "M8 withdraw row 2, undo: refusals {} {}, the same count {count}, the same rows {rows}",
        out.refusal, back.refusal
    )
}

fn marked(rt: &impl Print) -> io::Result<()> {
    let board = cases::sample_board();
    listing(rt)?;
    asked(rt, "M2 code 0", board, 0, None)?;
    adopted(rt)?;
    asked(rt, "M4 depth 0", board, 0, Some(0))?;
    asked(rt, "M4 depth -1", board, 0, Some(-1))?;
    asked(rt, "M5 code 12", board, 12, None)?;
    asked(rt, "M5 code 4", board, 4, None)?;
    asked(rt, "M5 code 1", board, 1, None)?;
    descendants(rt)?;
    ancestors(rt)?;
    withdraw_and_undo(rt)?;
    asked(rt, "M9 code 24", board, 24, None)?;
    asked(rt, "M10 empty board", Board::EMPTY, 0, None)
}

// By default the row whose parent isn't there, which code 0 leaves over, is a root.
fn by_default(rt: &impl Print) -> io::Result<()> {
    let mut index = [0u32; 62];
    let mut totals = [0i64; 10];
    let built = Built::from(build::build_default(cases::sample_board(), &mut index, &mut totals));
    let orphan = yes_or_no(packed::orphan_of(index[61]));
    report(rt, "by default", built)?;
    println!(rt;
        ", rank 9 parent {} numeral {}, an orphan {orphan}",
        index[59], index[56]
    )
}

// Where several refusals hold, the first in the paper's order is the answer.
fn first_refusals(rt: &impl Print) -> io::Result<()> {
    let board = cases::sample_board();
    let mut unsound = cases::sample_board();
    unsound.count = 1025;
    let none = [99u32; 1];
    let thirty = [30u32; 1];
    asked(rt, "count 1025, code 24", unsound, 24, None)?;
    asked(rt, "code 24, depth 0", board, 24, Some(0))?;
    asked(rt, "code 3, depth 0", board, 3, Some(0))?;
    asked(rt, "code 17", board, 17, None)?;
    listed(rt, "code 2, no start row", 2, &none)?;
    listed(rt, "code 3, no start row", 3, &none)?;
    listed(rt, "code 0 from numeral 30", 0, &thirty)
}

// A refused build leaves both slices all zero.
fn zeroed(
    rt: &impl Print,
    name: &str,
    code: u32,
    index: &mut [u32],
    totals: &mut [i64],
) -> io::Result<()> {
    let built = over_zero(cases::sample_board(), code, None, index, totals);
    let words = yes_or_no(index.iter().all(|word| *word == 0));
    let sums = yes_or_no(totals.iter().all(|total| *total == 0));
    report(rt, name, built)?;
    println!(rt; ", index all zero {words}, totals all zero {sums}")
}

// Eight nodes need 56 words and 9 totals.
fn short_slices(rt: &impl Print) -> io::Result<()> {
    let mut short = [7u32; 55];
    let mut enough = [7u32; 56];
    let mut few = [7i64; 8];
    let mut totals = [7i64; 9];
    zeroed(rt, "code 12, 55 words", 12, &mut short, &mut totals)?;
    totals = [7i64; 9];
    zeroed(rt, "code 12, 8 totals", 12, &mut enough, &mut few)?;
    enough = [7u32; 56];
    zeroed(rt, "code 12, 56 words", 12, &mut enough, &mut totals)
}

// The words beyond the 56th and the totals beyond the 9th are as they were.
fn long_slices(rt: &impl Print) -> io::Result<()> {
    let mut index = [7u32; 70];
    let mut totals = [7i64; 12];
    let built = over_zero(cases::sample_board(), 0, None, &mut index, &mut totals);
    let words = yes_or_no(index[56..].iter().all(|word| *word == 7));
    let sums = yes_or_no(totals[9..].iter().all(|total| *total == 7));
    report(rt, "code 0, 70 words of 7", built)?;
    println!(rt; ", words beyond are 7 {words}, totals beyond are 7 {sums}")
}

fn main(rt: HostRuntime) -> io::Result<()> {
    marked(&rt)?;
    by_default(&rt)?;
    first_refusals(&rt)?;
    short_slices(&rt)?;
    long_slices(&rt)
}
