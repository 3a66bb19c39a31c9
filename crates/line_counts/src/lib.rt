// How many nodes the lines of a levelled list stand for, line by line in their order, and how many of the lines are wholly blank.
#![tactic(auto)]

ghost use Rattle.std.specs.Prelude.{◌≡◌, ◌==◌, not, [], ℕ, ◌+◌, ◌<◌, length, get_or, drop, count_by};
ghost use Rattle.std.specs.List.{list_all};
ghost use Rattle.lists.specs.Lists.{filter};
ghost use Rattle.levels.specs.Levelled.{sorted_lines, levelled_nodes, blank_line};
ghost use Rattle.levels.specs.LineLayer.{lines_at};
ghost use Rattle.levels.specs.PassLayer.{line_beside, fresh_beginnings};
ghost use Rattle.line_counts.specs.CountLayer.{CountsBefore};

use line_order::Sorted;

// How many cells of a line are filled, from a column on, counted from 0.
fn filled_from(line: &[u32], column: usize) -> usize
    ensures { result ≡ count_by (λ c. not (c == 0)) (drop column line.now) }
{
    match line.get(column..) {
        Some(cells) => cells.iter().filter(|cell| **cell != 0).count(),
        None => 0,
    }
}

// How many nodes the line at a place of the order is the first to have.
fn new_count(sorted: Sorted, place: usize) -> u32
    requires { place < length sorted.order.now }
    ensures { result ≡ length (fresh_beginnings (line_beside (sorted_lines sorted.entry.lines.cells.now sorted.entry.lines.width) place) (get_or (sorted_lines sorted.entry.lines.cells.now sorted.entry.lines.width) place [])) }
{
    filled_from(sorted.line(place), sorted.shared[place] as usize) as u32
}

// For each line, and past the last, how many nodes the lines before it are the first to have; and how many there are in all.
pub fn count_nodes(sorted: Sorted, firsts: &mut [u32]) -> u32
    requires { length firsts.old ≡ length sorted.order.now + 1 }
    ensures { (result ≡ length (levelled_nodes (sorted_lines sorted.entry.lines.cells.now sorted.entry.lines.width))) × (CountsBefore (sorted_lines sorted.entry.lines.cells.now sorted.entry.lines.width) firsts.new) }
{
    let count = sorted.order.len();
    let mut n = 0;
    for place in 0..count {
        firsts[place] = n;
        n += new_count(sorted, place);
    }
    firsts[count] = n;
    n
}

// Whether a line is wholly blank.
fn is_blank(line: &[u32]) -> bool
    ensures { result ≡ list_all (λ c. c == 0) line.now }
{
    line.iter().all(|cell| *cell == 0)
}

// How many of the lines are wholly blank.
fn count_blank(sorted: Sorted) -> u32
    ensures { result ≡ count_by blank_line (sorted_lines sorted.entry.lines.cells.now sorted.entry.lines.width) }
{
    let mut n = 0;
    for place in 0..sorted.order.len() {
        if is_blank(sorted.line(place)) {
            n += 1;
        }
    }
    n
}

// The same of lines in order: the blank ones are the last.
pub fn blank_lines(sorted: Sorted) -> u32
    ensures { result ≡ length (filter blank_line (lines_at sorted.entry.lines.cells.now sorted.entry.lines.width sorted.entry.order.now)) }
{
    let n = sorted.order.len();
    if 0 < n && is_blank(sorted.line(n - 1)) {
        count_blank(sorted)
    } else {
        0
    }
}
