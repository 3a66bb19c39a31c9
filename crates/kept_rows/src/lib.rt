// The rows that end the kept paths of the shortest placement, over the positions of a table of rows in sibling order: a breadth-first search finds them, then each is linked
// below the kept row that stands above it, and the kept start rows are flagged.
#![tactic(auto)]

ghost use Rattle.std.specs.Prelude.{◌≡◌, Bool, List, [], ◌∷◌, ℕ, ◌+◌, ◌*◌, ◌≤◌, ◌<◌, length, take};
ghost use Rattle.std.proofs.Math.Seq.{slice};
ghost use Rattle.rows.specs.declared.Row.{Row};
ghost use Rattle.table.specs.TableLayer.{row_column, class_column, flag_column};
ghost use Rattle.links.specs.PreparedLayer.{Prepared, StartFlags, WithNumerals, AnyPrepared};
ghost use Rattle.walk.specs.WalkLayer.{Clear, Walked, flagged};
ghost use Rattle.rings.specs.RingsLayer.{RowsKept};
ghost use Rattle.shortest.specs.Shortest.{shortest_bodies};
ghost use Rattle.enumerate.specs.EnumerateLayer.{ClearWorkspace};
ghost use Rattle.kept_rows.specs.KeptRowsLayer.{Searchable, Seen, Met, SiblingsMet, Searched, RowsAt, others_marked, rows_at, Flagged, KeptLinked};

use walk::{Bounds, Place, Progress};

// Meets the row at p: where its class isn't marked, marks it and puts p at the end of the queue. Answers the queue's end.
fn meet(p: u32, tail: usize, table: &[u32], flags: &mut [u32], queue: &mut [u32]) -> usize
    requires { (p < length (class_column table.now)) × Searchable table.now (length queue.old) (length flags.old) × Seen (class_column table.now) queue.old tail flags.old }
    ensures { Met (class_column table.now) (p ∷ []) queue.old queue.new tail result flags.new }
{
    let c = table::class(table, p) as usize;
    if 0 < lists::get(flags, c) {
        return tail;
    }
    flags[c] = 1;
    queue[tail] = p;
    tail + 1
}

// Meets the row at `first` and its later siblings.
fn meet_siblings(
    first: u32,
    tail: usize,
    table: &[u32],
    flags: &mut [u32],
    queue: &mut [u32],
) -> usize
    requires { Searchable table.now (length queue.old) (length flags.old) × Seen (class_column table.now) queue.old tail flags.old }
    ensures { SiblingsMet table.now first queue.old queue.new tail result flags.new }
{
    let n = table::rows(table);
    let mut q = first;
    let mut end = tail;
    while (q as usize) < n {
        end = meet(q, end, table, flags, queue);
        q = table::next(table, q);
    }
    end
}

// Meets the flagged rows, from an empty queue.
fn meet_starts(table: &[u32], flags: &mut [u32], queue: &mut [u32]) -> usize
    requires { Searchable table.now (length queue.old) (length flags.old) × Clear flags.old }
    ensures { Met (class_column table.now) (flagged (flag_column table.now) 0 (length (class_column table.now))) queue.old queue.new 0 result flags.new }
{
    let n = table::rows(table) as u32;
    let mut end: usize = 0;
    for p in 0..n {
        let is_start = table::flag(table, p) == 1;
        if is_start {
            end = meet(p, end, table, flags, queue);
        }
    }
    end
}

// Goes on from the rows met, in the order met, until no row is new. Answers the queue's end.
fn search(tail: usize, table: &[u32], flags: &mut [u32], queue: &mut [u32]) -> usize
    requires { Searchable table.now (length queue.old) (length flags.old) × Seen (class_column table.now) queue.old tail flags.old }
    ensures { Searched table.now queue.old queue.new tail result flags.new }
{
    let mut head = 0;
    let mut end = tail;
    while head < end {
        let first = table::child(table, lists::get(queue, head));
        end = meet_siblings(first, end, table, flags, queue);
        head += 1;
    }
    end
}

// Flags each row, by its number, but those at the positions that the queue has from `tops` to before `end`.
fn mark_others(tops: usize, end: usize, table: &[u32], flags: &mut [u32], queue: &[u32])
    requires { (tops ≤ end) × (end ≤ length queue.now) × RowsAt (row_column table.now) queue.now end (length flags.old) }
    ensures { flags.new ≡ others_marked (rows_at (row_column table.now) (slice tops end queue.now)) (length flags.old) }
{
    flags.fill(1);
    for p in &queue[tops..end] {
        let x = table::row(table, *p) as usize;
        flags[x - 1] = 0;
    }
}

// Flags the rows at the first positions of the queue.
fn flag_kept(tops: usize, table: &mut [u32], queue: &[u32])
    requires { (tops ≤ length queue.now) × RowsAt (row_column table.old) queue.now tops (length (row_column table.old)) }
    ensures { Flagged (take tops queue.now) table.old table.new }
{
    for p in &queue[..tops] {
        table::set_flag(table, *p, 1);
    }
}

// Links the rows that end a kept path below another kept row, and flags the kept start rows alone.
fn keep_shortest(table: &mut [u32], flags: &mut [u32], queue: &mut [u32])
    requires any_prepared { AnyPrepared table.old }
    requires clear_workspace { ClearWorkspace (length (row_column table.old)) flags.old queue.old }
    ensures kept_linked { (R : List Row) (start : Row → Bool) → Prepared R table.old → StartFlags R start table.old → WithNumerals R → KeptLinked R start table.old table.new }
    ensures clear { Clear queue.new }
{
    let tops = meet_starts(table, flags, queue);
    let end = search(tops, table, flags, queue);
    mark_others(tops, end, table, flags, queue);
    orphans::link_outside(table, flags);
    flag_kept(tops, table, queue);
    queue.fill(0);
}

// The nodes of shortest placement: their bodies go to the index from word 8 on. A count above `cap` says that there are more.
pub fn walk_shortest(
    cap: u32,
    table: &mut [u32],
    flags: &mut [u32],
    queue: &mut [u32],
    index: &mut [u32],
) -> Progress
    requires any_prepared { AnyPrepared table.old }
    requires cap_bound { (cap ≤ 65535) × (8 + 6 * cap ≤ length index.old) }
    requires clear_workspace { ClearWorkspace (length (row_column table.old)) flags.old queue.old }
    ensures walked { (R : List Row) (start : Row → Bool) → Prepared R table.old → StartFlags R start table.old → WithNumerals R → Walked (shortest_bodies R start) 0 cap 0 queue.old queue.new index.old index.new result }
    ensures rows_kept { RowsKept table.old table.new }
{
    keep_shortest(table, flags, queue);
    let n = table::rows(table) as u32;
    let top = Place {
        level: 1,
        parent: 0,
        root: 0,
        orphan: false,
    };
    let bounds = Bounds { limit: n + 1, cap };
    let none = Progress { count: 0, check: 0 };
    walk::roots(0, n, top, bounds, none, table, queue, index)
}
