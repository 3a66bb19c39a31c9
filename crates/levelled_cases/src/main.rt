// Runs the levelled build on the guide's table T_DEMO_LVL, on lists with blanks, equal lines and blank lines, at the limits and where it is refused. Writes one line a build, and where it lists
// nodes one line for each: rank, tree size, parent rank, level, root rank, numeral, row number.
#![tactic(auto)]

use built::Built;
use cases::yes_or_no;
use levelled::build_levelled;
use std::io;

// L1 is 11, M1 and M2 are 21 and 22, N1 and N2 are 31 and 32, O1 to O3 are 41 to 43, NULL is 0.
const SIX_COLUMNS: [u32; 24] = [
    11, 21, 1, 31, 41, 10, 11, 21, 2, 0, 42, 20, 11, 22, 3, 0, 0, 0, 11, 0, 0, 32, 43, 30,
];

// Without ATTR_2 and ATTR_4; the last line first.
const FOUR_COLUMNS: [u32; 16] = [11, 0, 32, 43, 11, 22, 0, 0, 11, 21, 0, 42, 11, 21, 31, 41];

// A blank in front, between and behind.
const GAPS: [u32; 9] = [0, 5, 0, 1, 0, 5, 1, 5, 0];

// Of five lines two are equal and two wholly blank: three nodes.
const DOUBLED: [u32; 10] = [7, 9, 0, 0, 7, 8, 0, 0, 7, 8];

fn all_are<T: PartialEq + Copy>(list: &[T], value: T) -> bool {
    list.iter().all(|item| *item == value)
}

// Whether so many totals in front are 0, and all others 7.
fn zeros_in_front(totals: &[i64], zeros: usize) -> bool {
    totals
        .iter()
        .enumerate()
        .all(|(i, total)| *total == if i < zeros { 0 } else { 7 })
}

fn report(rt: &impl Print, name: &str, built: Built) -> io::Result<()> {
    print!(rt;
        "{name}: refusal {}, nodes {}, blank lines {}",
        built.refusal, built.nodes, built.left
    )
}

fn node(rt: &impl Print, index: &[u32], rank: u32) -> io::Result<()> {
    let k = rank as usize;
    let size = image::size_at(index, k);
    let parent = image::parent_at(index, k);
    let level = packed::level_of(image::word_at(index, k));
    let root = image::root_at(index, k);
    let numeral = image::numeral_at(index, k);
    let row = image::row_at(index, k);
    println!(rt; " {rank} {size} {parent} {level} {root} {numeral} {row}")
}

// A build into slices for fifteen nodes, filled with 7.
fn listed(rt: &impl Print, name: &str, lines: &[u32], width: u32) -> io::Result<()> {
    let mut index = [7u32; 98];
    let mut totals = [7i64; 16];
    let built = Built::from(build_levelled(lines, width, &mut index, &mut totals));
    report(rt, name, built)?;
    let accepted = yes_or_no(index_check::index_check(&index));
    let beyond = index.get(image::bodies_end(built.nodes)..);
    let unchanged = yes_or_no(beyond.is_none_or(|words| all_are(words, 7)));
    let zeros = yes_or_no(zeros_in_front(&totals, built.nodes as usize + 1));
    println!(rt;
        ", index accepted {accepted}, words beyond unchanged {unchanged}, one zero total more than nodes {zeros}"
    )?;
    for rank in 1..=built.nodes {
        node(rt, &index, rank)?;
    }
    Ok(())
}

// A build into slices of any lengths.
fn asked(
    rt: &impl Print,
    name: &str,
    lines: &[u32],
    width: u32,
    index: &mut [u32],
    totals: &mut [i64],
) -> io::Result<()> {
    let built = Built::from(build_levelled(lines, width, index, totals));
    report(rt, name, built)?;
    let zero = yes_or_no(all_are(index, 0));
    println!(rt;
        ", index zero {zero}, totals zero {}",
        yes_or_no(all_are(totals, 0))
    )
}

// The numbers from 4,096 down to 1.
fn falling() -> [u32; 4096] {
    let mut lines = [0u32; 4096];
    for (line, number) in lines.iter_mut().zip((1..=4096).rev()) {
        *line = number;
    }
    lines
}

// 512 lines of eight cells, each cell less than the one before it: every cell is a node.
fn largest(rt: &impl Print) -> io::Result<()> {
    let lines = falling();
    let mut index = [7u32; 24584];
    let mut totals = [7i64; 4097];
    report(
        rt,
        "512 lines of 8 cells",
        Built::from(build_levelled(&lines, 8, &mut index, &mut totals)),
    )?;
    let accepted = yes_or_no(index_check::index_check(&index));
    println!(rt;
        ", index accepted {accepted}, last row number {}",
        image::row_at(&index, 4096)
    )
}

fn tables(rt: &impl Print) -> io::Result<()> {
    listed(rt, "guide, six columns", &SIX_COLUMNS, 6)?;
    listed(rt, "guide, four columns", &FOUR_COLUMNS, 4)?;
    listed(rt, "blanks in front, between and behind", &GAPS, 3)?;
    listed(rt, "equal and blank lines", &DOUBLED, 2)?;
    listed(rt, "the widest numbers", &[4294967295, 0, 1, 4294967294], 1)?;
    listed(rt, "blank lines alone", &[0, 0, 0, 0, 0, 0], 3)?;
    listed(rt, "no lines", &[], 8)
}

fn line_limits(rt: &impl Print) -> io::Result<()> {
    asked(rt, "width 0", &DOUBLED, 0, &mut [7; 26], &mut [7; 4])?;
    asked(
        rt,
        "width 9",
        &[1, 2, 3, 4, 5, 6, 7, 8, 9],
        9,
        &mut [7; 26],
        &mut [7; 4],
    )?;
    asked(
        rt,
        "a cell short of whole lines",
        &DOUBLED[..9],
        2,
        &mut [7; 26],
        &mut [7; 4],
    )?;
    asked(rt, "513 lines", &[5; 513], 1, &mut [7; 26], &mut [7; 4])?;
    asked(
        rt,
        "512 equal lines",
        &[5; 512],
        1,
        &mut [7; 14],
        &mut [7; 2],
    )
}

fn slice_limits(rt: &impl Print) -> io::Result<()> {
    asked(
        rt,
        "index as long as needed",
        &DOUBLED,
        2,
        &mut [7; 26],
        &mut [7; 4],
    )?;
    asked(
        rt,
        "index one word short",
        &DOUBLED,
        2,
        &mut [7; 25],
        &mut [7; 4],
    )?;
    asked(
        rt,
        "totals one short",
        &DOUBLED,
        2,
        &mut [7; 26],
        &mut [7; 3],
    )?;
    asked(
        rt,
        "seven words for no nodes",
        &[],
        1,
        &mut [7; 7],
        &mut [7; 4],
    )
}

fn refusals_in_order(rt: &impl Print) -> io::Result<()> {
    asked(rt, "18 before 19", &[5; 1027], 2, &mut [7; 26], &mut [7; 4])?;
    asked(rt, "19 before 9", &[5; 513], 1, &mut [7; 0], &mut [7; 0])?;
    asked(rt, "18 before 9", &[5; 3], 2, &mut [7; 0], &mut [7; 0])
}

fn main(rt: HostRuntime) -> io::Result<()> {
    tables(&rt)?;
    largest(&rt)?;
    line_limits(&rt)?;
    slice_limits(&rt)?;
    refusals_in_order(&rt)
}
