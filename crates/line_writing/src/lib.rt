// The bodies of the nodes of a levelled list, written line by line in order of rank, each line beside the one before it.
#![tactic(auto)]

ghost use Rattle.std.specs.Prelude.{◌≡◌, cond, ℕ, ◌+◌, ◌*◌, ◌<◌, ◌≤◌, eqb, length, drop};
ghost use Rattle.std.specs.List.{take_while};
ghost use Rattle.std.proofs.lemmas.List.Edits.{sets};
ghost use Rattle.image.specs.Layout.{flat};
ghost use Rattle.levels.specs.Levelled.{sorted_lines, levelled_nodes, levelled_bodies};
ghost use Rattle.line_counts.specs.CountLayer.{CountsBefore};
ghost use Rattle.line_writing.specs.WriteLayer.{NextLine, TreeEnds, EndsAt, end_of, InPlace, Between, Lined};

use image::Body;
use line_order::Sorted;
use lists::get;

// A line: its place among the sorted lines, counted from 0; how many cells it shares with the line before it there, and how many with the next; how many nodes there are up to the next line.
#[derive(Clone, Copy)]
pub struct Line {
    pub place: usize,
    pub shared: usize,
    pub next: usize,
    pub after: u32,
}

// The nodes written, and the root of the last line's.
#[derive(Clone, Copy)]
struct Met {
    count: u32,
    root: u32,
}

// The first place from `from` on whose line shares at most c cells with the one before it, or one past the last. A `for` over places: a chain that skips to `from` steps through all before it.
fn next_line(shared: &[u32], from: usize, c: usize) -> usize
    requires { from ≤ length shared.now }
    ensures { NextLine shared.now c from result }
{
    for j in from..shared.len() {
        if shared[j] as usize <= c {
            return j;
        }
    }
    shared.len()
}

// Of the columns of the line at place i, from the shared ones to `to`: how many nodes there are up to the end of the tree of a node that ends there.
// The tree of a column ends no earlier than those of the columns to its right.
fn fill_ends(shared: &[u32], firsts: &[u32], i: usize, to: usize, ends: &mut [u32])
    requires { (i < length shared.now) × (to ≤ 8) × (length ends.old ≡ 8) }
    ensures { TreeEnds shared.now firsts.now i to ends.new }
{
    let from = shared[i] as usize;
    let mut j = i + 1;
    for c in (from..to).rev() {
        j = next_line(shared, j, c);
        ends[c] = get(firsts, j);
    }
}

// The root where there is one, else the node itself. `walk` has the same for paths; a crate below both for this one line would be no plainer.
fn root_of(root: u32, rank: u32) -> u32
    ensures { result ≡ cond (eqb root 0) rank root }
{
    if root == 0 { rank } else { root }
}

// The root of the line before, where a node of that line stands above; else none.
fn root_above(parent: u32, root: u32) -> u32
    ensures { result ≡ cond (eqb parent 0) 0 root }
{
    if parent == 0 { 0 } else { root }
}

// How many nodes there are up to the end of the tree of a node that ends in column c.
fn end_of(line: Line, ends: &[u32], c: usize) -> u32
    requires { c < length ends.now }
    ensures { result ≡ end_of line ends.now c }
{
    if c < line.next { ends[c] } else { line.after }
}

// Writes the bodies of the nodes that a line is the first to have; for each of its columns keeps the parent of a node that ends there.
fn write_columns(
    sorted: Sorted,
    line: Line,
    met: Met,
    ends: &[u32],
    parents: &mut [u32],
    index: &mut [u32],
) -> Met
    requires placed { InPlace sorted.lines.cells.now sorted.lines.width line × (line.shared < sorted.lines.width) × Between (sorted_lines sorted.lines.cells.now sorted.lines.width) line.place met.count met.root parents.old }
    requires by_index { (c : ℕ) → line.shared ≤ c → c < sorted.lines.width → EndsAt (sorted_lines sorted.lines.cells.now sorted.lines.width) line.place c (end_of line ends.now c) }
    requires room { let n = length (levelled_nodes (sorted_lines sorted.lines.cells.now sorted.lines.width)) in (length ends.now ≡ 8) × (length parents.old ≡ 8) × (n ≤ 4096) × (8 + 6 * n ≤ length index.old) }
    ensures { Lined (sorted_lines sorted.entry.lines.cells.now sorted.entry.lines.width) line.place met.count result.count result.root parents.new index.old index.new }
{
    let cells = sorted.line(line.place);
    let mut parent = parents[line.shared];
    let mut root = root_above(parent, met.root);
    let mut n = met.count;
    for c in line.shared..cells.len() {
        parents[c] = parent;
        let cell = cells[c];
        let end = end_of(line, ends, c);
        let filled = cell != 0;
        if filled {
            let rank = n + 1;
            root = root_of(root, rank);
            let body = Body {
                numeral: cell,
                row: line.place as u32 + 1,
                size: end - n,
                parent,
                root,
                level: c as u32 + 1,
                closing: false,
                orphan: false,
            };
            image::put_body(index, n, body, 0);
            parent = rank;
            n = rank;
        }
    }
    Met { count: n, root }
}

// Writes the bodies of the nodes that the line at place i of the order is the first to have.
fn write_line(
    sorted: Sorted,
    firsts: &[u32],
    i: usize,
    met: Met,
    parents: &mut [u32],
    index: &mut [u32],
) -> Met
    requires between { CountsBefore (sorted_lines sorted.lines.cells.now sorted.lines.width) firsts.now × (i < length sorted.order.now) × Between (sorted_lines sorted.lines.cells.now sorted.lines.width) i met.count met.root parents.old }
    requires room { (length parents.old ≡ 8) × (8 + 6 * length (levelled_nodes (sorted_lines sorted.lines.cells.now sorted.lines.width)) ≤ length index.old) }
    ensures { Lined (sorted_lines sorted.entry.lines.cells.now sorted.entry.lines.width) i met.count result.count result.root parents.new index.old index.new }
{
    let from = sorted.shared[i] as usize;
    if sorted.lines.width <= from {
        return met;
    }
    let next = get(sorted.shared, i + 1) as usize;
    let mut ends = [0u32; 8];
    fill_ends(sorted.shared, firsts, i, next, &mut ends[..]);
    let line = Line {
        place: i,
        shared: from,
        next,
        after: get(firsts, i + 1),
    };
    write_columns(sorted, line, met, &ends[..], parents, index)
}

// Writes the bodies of all nodes.
pub fn write_lines(sorted: Sorted, firsts: &[u32], index: &mut [u32])
    requires { CountsBefore (sorted_lines sorted.lines.cells.now sorted.lines.width) firsts.now × (8 + 6 * length (levelled_nodes (sorted_lines sorted.lines.cells.now sorted.lines.width)) ≤ length index.old) }
    ensures { index.new ≡ sets index.old 8 (flat (levelled_bodies (sorted_lines sorted.entry.lines.cells.now sorted.entry.lines.width))) }
{
    let mut parents = [0u32; 8];
    let mut met = Met { count: 0, root: 0 };
    for i in 0..sorted.order.len() {
        met = write_line(sorted, firsts, i, met, &mut parents[..], index);
    }
}
