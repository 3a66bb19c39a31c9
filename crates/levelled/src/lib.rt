// The index of a levelled part list: change request 2.5. The lines are only read; their numbers are put in order, their nodes counted, and each line is written beside the one before it.
#![tactic(auto)]

ghost use Rattle.std.specs.Prelude.{◌≡◌, false, ◌+◌, ◌/◌, ◌≤◌, length};
ghost use Rattle.levels.specs.Levelled.{refusal18, refusal19, levelled_built, levelled_index, levelled_totals};
ghost use Rattle.built.specs.Answered.{built};
ghost use Rattle.levelled.specs.AttemptedLayer.{ListAttempted};

use built::Counts;
use line_counts::{blank_lines, count_nodes};
use line_order::{Lines, Sorted, order_lines};
use line_writing::write_lines;
use refusal::Refusal;

// The build of lines that are in order. Where it is refused, nothing is written.
fn finish(
    sorted: Sorted,
    firsts: &mut [u32],
    index: &mut [u32],
    totals: &mut [i64],
) -> Result<Counts, Refusal>
    requires { (refusal18 sorted.lines.cells.now sorted.lines.width ≡ false) × (refusal19 sorted.lines.cells.now sorted.lines.width ≡ false) × (length firsts.old ≡ length sorted.order.now + 1) }
    ensures { ListAttempted sorted.entry.lines.cells.now sorted.entry.lines.width index.old index.new totals.old totals.new (built result) }
{
    let n = count_nodes(sorted, firsts);
    let room = image::bodies_end(n);
    let end = n as usize + 1;
    if index.len() < room || totals.len() < end {
        return Err(Refusal::TooManyNodes);
    }
    let left = blank_lines(sorted);
    write_lines(sorted, firsts, index);
    let check = image::add_words(&index[8..room], 0);
    image::write_contents(index, n, check);
    totals[..end].fill(0);
    Ok(Counts { nodes: n, left })
}

// The build of whole lines, few enough, with working slices.
fn run(
    lines: Lines,
    order: &mut [u32],
    shared: &mut [u32],
    firsts: &mut [u32],
    index: &mut [u32],
    totals: &mut [i64],
) -> Result<Counts, Refusal>
    requires { (refusal18 lines.cells.now lines.width ≡ false) × (refusal19 lines.cells.now lines.width ≡ false) × (length order.old ≤ 512) × (length order.old ≡ length lines.cells.now / lines.width) × (length shared.old ≡ length order.old) × (length firsts.old ≡ length order.old + 1) }
    ensures { ListAttempted lines.entry.cells.now lines.entry.width index.old index.new totals.old totals.new (built result) }
{
    order_lines(lines, order, shared);
    let sorted = Sorted {
        lines,
        order,
        shared,
    };
    finish(sorted, firsts, index, totals)
}

// The build of a list. Where it is refused, both slices may hold anything.
fn attempt(
    lines: &[u32],
    width: u32,
    index: &mut [u32],
    totals: &mut [i64],
) -> Result<Counts, Refusal>
    ensures { ListAttempted lines.now width index.old index.new totals.old totals.new (built result) }
{
    if width == 0 || 8 < width {
        return Err(Refusal::NotWholeLines);
    }
    let w = width as usize;
    let ragged = lines.len() % w != 0;
    if ragged {
        return Err(Refusal::NotWholeLines);
    }
    let count = lines.len() / w;
    let too_many = 512 < count;
    if too_many {
        return Err(Refusal::TooManyLines);
    }
    let mut order = [0u32; 512];
    let mut shared = [0u32; 512];
    let mut firsts = [0u32; 513];
    run(
        Lines {
            cells: lines,
            width: w,
        },
        &mut order[..count],
        &mut shared[..count],
        &mut firsts[..count + 1],
        index,
        totals,
    )
}

// Builds the index of a levelled list: its cells line by line, each line `width` cells wide, 0 for blank. The totals are zeros. A refused build leaves both slices all zero.
pub fn build_levelled(
    lines: &[u32],
    width: u32,
    index: &mut [u32],
    totals: &mut [i64],
) -> Result<Counts, Refusal>
    ensures value { built result ≡ levelled_built lines.now width (length index.old) (length totals.old) }
    ensures index_after { index.new ≡ levelled_index lines.now width index.old (length totals.old) }
    ensures totals_after { totals.new ≡ levelled_totals lines.now width (length index.old) totals.old }
{
    let answer = attempt(lines, width, index, totals);
    built::settle(answer, index, totals)
}
