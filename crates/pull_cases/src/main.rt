// Pulls rows of the index of paper 01's listing, whole and damaged in a word or a total, and prints what each answers and the totals that it leaves, one line a case.
#![tactic(auto)]

use cases::{INDEX, TOTALS, changed};
use std::io;

fn pulled(
    rt: &impl Print,
    title: &str,
    index: &[u32],
    totals: &mut [i64],
    row: u32,
    difference: i64,
) -> io::Result<()> {
    let refusal = match pull::pull(index, totals, row, difference) {
        Ok(()) => 0,
        Err(refusal) => refusal.number(),
    };
    print!(rt; "{title}: row {row} by {difference}: refusal {refusal} totals")?;
    for total in totals.iter() {
        print!(rt; " {total}")?;
    }
    println!(rt; "")
}

// One pull on the example.
fn example(rt: &impl Print, title: &str, row: u32, difference: i64) -> io::Result<()> {
    let mut totals = TOTALS;
    pulled(rt, title, &INDEX, &mut totals, row, difference)
}

// One pull on the example with a word changed.
fn with_word(
    rt: &impl Print,
    title: &str,
    at: usize,
    word: u32,
    row: u32,
    difference: i64,
) -> io::Result<()> {
    let mut totals = TOTALS;
    pulled(
        rt,
        title,
        &changed(INDEX, at, word),
        &mut totals,
        row,
        difference,
    )
}

// One pull on the example with a total changed.
fn with_total(
    rt: &impl Print,
    title: &str,
    at: usize,
    total: i64,
    row: u32,
    difference: i64,
) -> io::Result<()> {
    pulled(
        rt,
        title,
        &INDEX,
        &mut changed(TOTALS, at, total),
        row,
        difference,
    )
}

fn rows(rt: &impl Print) -> io::Result<()> {
    example(rt, "two nodes", 6, 10)?;
    example(rt, "two nodes, fewer minutes", 6, -10)?;
    example(rt, "two closing nodes", 4, 5)?;
    example(rt, "by nothing", 1, 0)?;
    example(rt, "no node", 8, 9223372036854775807)?;
    example(rt, "row number 0", 0, 1)
}

fn bounds(rt: &impl Print) -> io::Result<()> {
    example(rt, "to 2^47", 7, 140737488355306)?;
    example(rt, "to 2^47 + 1", 7, 140737488355307)?;
    example(rt, "to -2^47", 7, -140737488355350)?;
    example(rt, "to -2^47 - 1", 7, -140737488355351)?;
    example(rt, "the largest difference", 1, 9223372036854775807)?;
    example(rt, "the smallest difference", 1, -9223372036854775808)
}

fn damaged_totals(rt: &impl Print) -> io::Result<()> {
    with_total(rt, "the first total is 2^47", 0, 140737488355328, 8, 0)?;
    with_total(rt, "the first total is 2^47 + 1", 0, 140737488355329, 8, 0)?;
    with_total(rt, "the last total is -2^47 - 1", 9, -140737488355329, 7, 1)?;
    with_total(rt, "a total comes back to 2^47", 9, 140737488355329, 7, -1)
}

fn damaged_words(rt: &impl Print) -> io::Result<()> {
    with_word(rt, "three nodes", 15, 6, 6, 10)?;
    with_word(rt, "the largest row number", 9, 4294967295, 4294967295, -1)?;
    with_word(rt, "bodies at 9, row number 0", 1, 9, 0, 1)?;
    with_word(rt, "bodies at 9", 1, 9, 6, 1)?;
    with_word(rt, "n is 10", 0, 10, 6, 1)?;
    with_word(rt, "n is 8", 0, 8, 7, 1)
}

fn there_and_back(rt: &impl Print) -> io::Result<()> {
    let mut totals = TOTALS;
    pulled(rt, "there", &INDEX, &mut totals, 2, 1000000)?;
    pulled(rt, "and back", &INDEX, &mut totals, 2, -1000000)
}

fn few_totals(rt: &impl Print) -> io::Result<()> {
    let mut totals = [0i64; 9];
    pulled(rt, "nine totals", &INDEX, &mut totals, 6, 1)
}

fn main(rt: HostRuntime) -> io::Result<()> {
    rows(&rt)?;
    bounds(&rt)?;
    damaged_totals(&rt)?;
    damaged_words(&rt)?;
    there_and_back(&rt)?;
    few_totals(&rt)
}
