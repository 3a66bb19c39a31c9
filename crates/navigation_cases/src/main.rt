// Runs each navigation call on the index of the listing of paper 01, and on slices that are damaged in one word; prints one line a case.
#![tactic(auto)]

ghost use Rattle.std.specs.Prelude.{◌≤◌};

use cases::{INDEX, TOTALS, changed, yes_or_no};
use climb::Climbed;
use climber::ClimbedOne;
use hops::Hopped;
use meet::Meeting;
use navigate::Listed;
use std::io;
use sums::Summed;

fn words(rt: &impl Print, list: &[u32]) -> io::Result<()> {
    for n in list {
        print!(rt; " {n}")?;
    }
    println!(rt; "")
}

// Lends a call the places from one on of nine words that are 7; the call prints its answer, and what the nine are after it follows.
fn on_places<F: FnOnce(&mut [u32]) -> io::Result<()>>(
    rt: &impl Print,
    from: usize,
    call: F,
) -> io::Result<()>
    requires { F.IsAlwaysCallable call }
{
    let mut places = [7u32; 9];
    if from <= 9 {
        call(&mut places[from..])?;
        print!(rt; " slice")?;
        words(rt, &places)?;
    }
    Ok(())
}

fn descendants(
    rt: &impl Print,
    index: &[u32],
    rank: u32,
    lo: i32,
    hi: i32,
    from: usize,
) -> io::Result<()> {
    on_places(rt, from, |out| {
        let found = Listed::from(navigate::descendants(index, rank, lo, hi, out));
        print!(rt;
            "descendants of {rank} from {lo} to {hi}: refusal {} length {}",
            found.refusal, found.len
        )
    })
}

fn ancestors(
    rt: &impl Print,
    index: &[u32],
    rank: u32,
    lo: i32,
    hi: i32,
    from: usize,
) -> io::Result<()> {
    on_places(rt, from, |out| {
        let found = Climbed::from(climb::ancestors(index, rank, lo, hi, out));
        print!(rt;
            "ancestors of {rank} from {lo} to {hi}: refusal {} length {} links {}",
            found.refusal, found.len, found.links
        )
    })
}

// Both calls for siblings.
fn siblings(rt: &impl Print, index: &[u32], rank: u32, from: usize) -> io::Result<()> {
    on_places(rt, from, |out| {
        let found = Listed::from(navigate::siblings(index, rank, out));
        print!(rt;
            "siblings of {rank}: refusal {} length {}",
            found.refusal, found.len
        )
    })?;
    on_places(rt, from, |out| {
        let found = Hopped::from(hops::siblings_by_hops(index, rank, out));
        print!(rt;
            "siblings by hops of {rank}: refusal {} length {} hops {}",
            found.refusal, found.len, found.hops
        )
    })
}

fn meet(rt: &impl Print, index: &[u32], a: u32, b: u32) -> io::Result<()> {
    let met = Meeting::from(meet::meet(index, a, b));
    println!(rt;
        "meeting of {a} and {b}: refusal {} found {} rank {}",
        met.refusal,
        yes_or_no(met.found),
        met.rank
    )
}

// One call of a climber; the rank that it has come to.
fn climb(rt: &impl Print, index: &[u32], rank: u32) -> io::Result<u32> {
    let found = ClimbedOne::at(rank, climber::climb(index, rank));
    println!(rt;
        "climb from {rank}: refusal {} root {} rank {}",
        found.refusal,
        yes_or_no(found.root),
        found.rank
    )?;
    Ok(found.rank)
}

fn span(rt: &impl Print, index: &[u32], rank: u32) -> io::Result<()> {
    let refusal = match spans::check_span(index, rank) {
        Ok(()) => 0,
        Err(refusal) => refusal.number(),
    };
    print!(rt; "span of {rank}: refusal {refusal} words")?;
    words(rt, spans::span(index, rank))
}

// Both calls for sums.
fn sums(rt: &impl Print, index: &[u32], totals: &[i64], rank: u32) -> io::Result<()> {
    let below = Summed::from(sums::subtree_sum(index, totals, rank));
    println!(rt;
        "subtree sum of {rank}: refusal {} sum {}",
        below.refusal, below.sum
    )?;
    let above = Summed::from(sums::path_sum(index, totals, rank));
    println!(rt;
        "path sum of {rank}: refusal {} sum {}",
        above.refusal, above.sum
    )
}

// Every call on one index.
fn each_call(rt: &impl Print, index: &[u32], totals: &[i64], rank: u32) -> io::Result<()> {
    span(rt, index, rank)?;
    descendants(rt, index, rank, 0, 9, 0)?;
    ancestors(rt, index, rank, -9, 0, 0)?;
    siblings(rt, index, rank, 0)?;
    meet(rt, index, rank, 8)?;
    climb(rt, index, rank)?;
    sums(rt, index, totals, rank)
}

// Every call on the first words of the index and the first of its totals.
fn short(rt: &impl Print, title: &str, length: usize, held: usize) -> io::Result<()>
    requires { (length ≤ 62) × (held ≤ 10) }
{
    println!(rt; "{title}")?;
    each_call(rt, &INDEX[..length], &TOTALS[..held], 1)
}

fn ranks(rt: &impl Print) -> io::Result<()> {
    for rank in [1, 5, 9, 0, 10, 4294967295] {
        println!(rt; "rank {rank}")?;
        each_call(rt, &INDEX, &TOTALS, rank)?;
    }
    Ok(())
}

fn limits_of_lists(rt: &impl Print) -> io::Result<()> {
    println!(rt; "limits")?;
    descendants(rt, &INDEX, 2, 2, 3, 0)?;
    ancestors(rt, &INDEX, 5, -4, 0, 0)?;
    ancestors(rt, &INDEX, 5, -4, -3, 0)?;
    descendants(rt, &INDEX, 1, 1, 1, 0)
}

fn wide_limits(rt: &impl Print) -> io::Result<()> {
    println!(rt; "a lower limit above the upper, no places; the widest limits, eight places")?;
    descendants(rt, &INDEX, 1, 3, 2, 9)?;
    descendants(rt, &INDEX, 1, -2147483648, 2147483647, 1)
}

fn short_lists(rt: &impl Print) -> io::Result<()> {
    println!(rt; "one place too few")?;
    descendants(rt, &INDEX, 1, 0, 9, 2)?;
    ancestors(rt, &INDEX, 5, -4, 0, 5)?;
    siblings(rt, &INDEX, 1, 8)
}

fn short_slices(rt: &impl Print) -> io::Result<()> {
    short(rt, "seven words", 7, 10)?;
    short(rt, "one word too few", 61, 10)?;
    short(rt, "nine totals", 62, 9)
}

fn with_word(rt: &impl Print, title: &str, at: usize, word: u32, rank: u32) -> io::Result<()> {
    println!(rt; "{title}")?;
    each_call(rt, &changed(INDEX, at, word), &TOTALS, rank)
}

fn damaged_contents(rt: &impl Print) -> io::Result<()> {
    with_word(rt, "word 1 is 7", 1, 7, 1)?;
    with_word(rt, "word 2 is 5", 2, 5, 1)?;
    with_word(rt, "n is 10", 0, 10, 1)?;
    with_word(rt, "n is 65536", 0, 65536, 1)?;
    with_word(rt, "n is 4294967295", 0, 4294967295, 1)
}

fn damaged_bodies(rt: &impl Print) -> io::Result<()> {
    with_word(rt, "size 0", 16, 0, 2)?;
    with_word(rt, "an end at n", 16, 8, 2)?;
    with_word(rt, "an end above n", 16, 9, 2)?;
    with_word(rt, "size 4294967295", 16, 4294967295, 2)?;
    with_word(rt, "a parent rank that is its own", 17, 2, 2)?;
    with_word(
        rt,
        "a parent rank above n, met on the climb",
        17,
        4294967295,
        4,
    )?;
    with_word(rt, "level 65535, bits 16 to 29 set", 19, 1073741823, 2)
}

// Both calls for siblings of a rank on the index with one word changed; the places before `from` are not lent.
fn both_siblings(
    rt: &impl Print,
    title: &str,
    at: usize,
    word: u32,
    rank: u32,
    from: usize,
) -> io::Result<()> {
    println!(rt; "{title}")?;
    siblings(rt, &changed(INDEX, at, word), rank, from)
}

fn damaged_hops(rt: &impl Print) -> io::Result<()> {
    both_siblings(rt, "the parent's size is 0", 10, 0, 2, 0)?;
    both_siblings(rt, "the parent's end is n", 10, 9, 2, 0)?;
    both_siblings(rt, "the parent's end is above n", 10, 10, 2, 0)?;
    both_siblings(rt, "the parent rank is n, a leaf", 17, 9, 2, 0)?;
    both_siblings(rt, "the parent rank is above n", 17, 10, 2, 0)?;
    both_siblings(rt, "a hop into a tree", 16, 3, 2, 0)?;
    both_siblings(rt, "a size of 0, met with no place left", 40, 0, 2, 8)?;
    both_siblings(rt, "a size of 0, not met", 40, 0, 3, 8)
}

// One meeting after the other.
fn meetings(rt: &impl Print, title: &str, index: &[u32], pairs: &[(u32, u32)]) -> io::Result<()> {
    println!(rt; "{title}")?;
    for (a, b) in pairs {
        meet(rt, index, *a, *b)?;
    }
    Ok(())
}

// Five calls of a climber.
fn way_up(rt: &impl Print, title: &str, index: &[u32]) -> io::Result<()> {
    println!(rt; "{title}")?;
    let mut rank = 5;
    for _ in 0..5 {
        rank = climb(rt, index, rank)?;
    }
    Ok(())
}

fn links(rt: &impl Print) -> io::Result<()> {
    meetings(
        rt,
        "meetings",
        &INDEX,
        &[(5, 3), (3, 5), (5, 5), (8, 5), (9, 9)],
    )?;
    way_up(rt, "up to a root, where it stays", &INDEX)?;
    way_up(
        rt,
        "up to a broken link, where it stays",
        &changed(INDEX, 17, 2),
    )
}

fn broken_links(rt: &impl Print) -> io::Result<()> {
    meetings(
        rt,
        "the parent rank of 8 is 8",
        &changed(INDEX, 53, 8),
        &[(8, 1), (1, 8), (8, 8), (8, 10), (7, 5)],
    )?;
    meetings(
        rt,
        "the parent rank of 2 is 2",
        &changed(INDEX, 17, 2),
        &[(4, 5)],
    )?;
    meetings(
        rt,
        "the parent rank of 8 is 5",
        &changed(INDEX, 53, 5),
        &[(8, 4)],
    )
}

// Both sums of rank 1, with a total changed.
fn with_total(rt: &impl Print, title: &str, at: usize, total: i64) -> io::Result<()> {
    println!(rt; "{title}")?;
    sums(rt, &INDEX, &changed(TOTALS, at, total), 1)
}

fn damaged_totals(rt: &impl Print) -> io::Result<()> {
    with_total(rt, "a total of 2^47", 8, 140737488355328)?;
    with_total(rt, "a total of 2^47 + 1", 8, 140737488355329)?;
    with_total(rt, "a total of -2^47", 0, -140737488355328)?;
    with_total(rt, "a total of -2^47 - 1", 0, -140737488355329)?;
    with_total(rt, "a total that is not used", 9, 9223372036854775807)?;
    with_total(rt, "own minutes of 2147483647", 1, 2147483647)?;
    with_total(rt, "own minutes of 2147483648", 1, 2147483648)?;
    with_total(rt, "own minutes of -2147483648", 1, -2147483648)?;
    with_total(rt, "own minutes of -2147483649", 1, -2147483649)
}

fn main(rt: HostRuntime) -> io::Result<()> {
    ranks(&rt)?;
    limits_of_lists(&rt)?;
    wide_limits(&rt)?;
    short_lists(&rt)?;
    short_slices(&rt)?;
    damaged_contents(&rt)?;
    damaged_bodies(&rt)?;
    damaged_hops(&rt)?;
    links(&rt)?;
    broken_links(&rt)?;
    damaged_totals(&rt)
}
