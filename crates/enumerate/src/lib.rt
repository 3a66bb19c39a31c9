// The enumeration of a board's nodes: the regular paths, then under adopt and root the orphan paths and the entries of islands.
#![tactic(auto)]

ghost use Rattle.std.specs.Prelude.{◌≡◌, ◌+◌, ◌*◌, ◌<◌, ◌≤◌, Bool, List, length, slice_index, None};
ghost use Rattle.rows.specs.declared.Row.{Row};
ghost use Rattle.table.specs.TableLayer.{row_column, child_column, flag_column};
ghost use Rattle.links.specs.PreparedLayer.{Prepared, StartFlags, WithNumerals, AnyPrepared};
ghost use Rattle.nodes.specs.Bodies.{bodies};
ghost use Rattle.nodes.specs.Refusals.{orphan_choice};
ghost use Rattle.walk.specs.WalkLayer.{Walkable, Walked, rows_of};
ghost use Rattle.rings.specs.RingsLayer.{RowsKept};
ghost use Rattle.enumerate.specs.EnumerateLayer.{ClearWorkspace, StartsWalked, orphan_level, TopsWalked, outside_from, RegularWritten, AnyRegularWritten, Raised, Adopted};

use walk::{Bounds, Place, Progress};

// The walk of the start rows: how many nodes those before a position have, and what was met of all.
#[derive(Clone, Copy)]
pub struct StartProgress {
    pub before: u32,
    pub all: Progress,
}

// Walks the start rows before the position `last`, then those from it on.
fn walk_starts(
    last: u32,
    bounds: Bounds,
    table: &[u32],
    marks: &mut [u32],
    index: &mut [u32],
) -> StartProgress
    requires walkable { Walkable (rows_of table.now) (length marks.old) }
    requires last_in_bounds { (last ≤ length (child_column table.now)) × (length (child_column table.now) ≤ 1024) × (bounds.cap ≤ 65535) × (8 + 6 * bounds.cap ≤ length index.old) }
    ensures { StartsWalked (rows_of table.now) (flag_column table.now) last bounds.limit bounds.cap marks.old marks.new index.old index.new result }
{
    let top = Place {
        level: 1,
        parent: 0,
        root: 0,
        orphan: false,
    };
    let none = Progress { count: 0, check: 0 };
    let first = walk::roots(0, last, top, bounds, none, table, marks, index);
    if bounds.cap < first.count {
        return StartProgress {
            before: first.count,
            all: first,
        };
    }
    let n = table::rows(table) as u32;
    let all = walk::roots(last, n, top, bounds, first, table, marks, index);
    StartProgress {
        before: first.count,
        all,
    }
}

fn level_under(rank: u32) -> u32
    ensures { result ≡ orphan_level rank }
{
    if rank == 0 { 1 } else { 2 }
}

// Walks the flagged rows of a table and what is below them as orphan paths, under the node of a rank, or as roots where the rank is 0.
fn walk_tops(
    rank: u32,
    progress: Progress,
    cap: u32,
    table: &[u32],
    marks: &mut [u32],
    index: &mut [u32],
) -> Progress
    requires walkable { Walkable (rows_of table.now) (length marks.old) × (length (row_column table.now) ≤ 1024) }
    requires count_le_cap { (progress.count ≤ cap) × (cap ≤ 65535) × (8 + 6 * cap ≤ length index.old) }
    ensures { TopsWalked table.now rank cap progress marks.old marks.new index.old index.new result }
{
    let level = level_under(rank);
    let n = table::rows(table) as u32;
    let place = Place {
        level,
        parent: rank,
        root: rank,
        orphan: true,
    };
    let bounds = Bounds {
        limit: n + level,
        cap,
    };
    walk::roots(0, n, place, bounds, progress, table, marks, index)
}

// Walks the orphan paths and then the entries of the islands, under the node of a rank, or as roots where the rank is 0.
fn walk_outside(
    rank: u32,
    progress: Progress,
    cap: u32,
    table: &mut [u32],
    reached: &mut [u32],
    marks: &mut [u32],
    index: &mut [u32],
) -> Progress
    requires any_regular_written { AnyRegularWritten table.old index.old progress.count }
    requires count_le_cap { (progress.count ≤ cap) × (cap ≤ 65535) × (8 + 6 * cap ≤ length index.old) }
    requires clear_workspace { ClearWorkspace (length (row_column table.old)) reached.old marks.old }
    ensures walked { (R : List Row) (start : Row → Bool) → RegularWritten R start table.old index.old progress.count → Walked (outside_from R start rank progress.count) progress.count cap progress.check marks.old marks.new index.old index.new result }
    ensures rows_kept { RowsKept table.old table.new }
{
    passes::mark_rows(index, 0, progress.count as usize, reached);
    if passes::count_clear(reached) == 0 {
        return progress;
    }
    orphans::link_outside(table, reached);
    let orphan = walk_tops(rank, progress, cap, table, marks, index);
    if cap < orphan.count {
        return orphan;
    }
    passes::mark_rows(
        index,
        progress.count as usize,
        orphan.count as usize,
        reached,
    );
    if passes::count_clear(reached) == 0 {
        return orphan;
    }
    rings::enter_islands(
        rank,
        level_under(rank),
        cap,
        orphan,
        table,
        reached,
        marks,
        index,
    )
}

// Raises the tree size of the node of rank before + 1, and the check word with it.
fn raise(before: u32, more: u32, progress: Progress, index: &mut [u32]) -> Progress
    requires { (before ≤ 65535) × (slice_index index.old (8 + 6 * before + 2) + more ≤ 65536) }
    ensures { Raised before more progress index.old index.new result }
{
    let rank = before as usize + 1;
    let size = image::size_at(index, rank) + more;
    image::set_size(index, rank, size);
    Progress {
        check: progress.check.wrapping_add(more),
        ..progress
    }
}

// Walks the orphan paths and the entries under the last start row's node, whose tree size counts them.
fn adopt(
    starts: StartProgress,
    cap: u32,
    table: &mut [u32],
    reached: &mut [u32],
    marks: &mut [u32],
    index: &mut [u32],
) -> Progress
    requires any_regular_written { AnyRegularWritten table.old index.old starts.all.count }
    requires before_lt_count { (starts.before < starts.all.count) × (starts.all.count ≤ cap) × (cap ≤ 65535) × (8 + 6 * cap ≤ length index.old) × (slice_index index.old (8 + 6 * starts.before + 2) ≤ starts.all.count) }
    requires clear_workspace { ClearWorkspace (length (row_column table.old)) reached.old marks.old }
    ensures adopted { (R : List Row) (start : Row → Bool) → RegularWritten R start table.old index.old starts.all.count → Adopted R start cap starts marks.old marks.new index.old index.new result }
    ensures rows_kept { RowsKept table.old table.new }
{
    let before = starts.before;
    let progress = walk_outside(before + 1, starts.all, cap, table, reached, marks, index);
    if cap < progress.count {
        return progress;
    }
    raise(before, progress.count - starts.all.count, progress, index)
}

// The nodes of a board: their bodies go to the index from word 8 on. A count above `cap` says that there are more.
pub fn enumerate(
    orphan: u32,
    depth: Option<i32>,
    cap: u32,
    table: &mut [u32],
    reached: &mut [u32],
    marks: &mut [u32],
    index: &mut [u32],
) -> Progress
    requires any_prepared { AnyPrepared table.old }
    requires orphan_bound { (orphan ≤ 3) × (1 < orphan → depth ≡ None) × (cap ≤ 65535) × (8 + 6 * cap ≤ length index.old) }
    requires clear_workspace { ClearWorkspace (length (row_column table.old)) reached.old marks.old }
    ensures walked { (R : List Row) (start : Row → Bool) → Prepared R table.old → StartFlags R start table.old → WithNumerals R → Walked (bodies R start depth (orphan_choice orphan)) 0 cap 0 marks.old marks.new index.old index.new result }
    ensures rows_kept { RowsKept table.old table.new }
{
    let n = table::rows(table) as u32;
    let last = orphans::last_flag(table);
    let bounds = Bounds {
        limit: options::level_limit(depth, n),
        cap,
    };
    let starts = walk_starts(last, bounds, table, marks, index);
    if cap < starts.all.count {
        return starts.all;
    }
    if orphan < 2 {
        return starts.all;
    }
    if orphan == 3 {
        return walk_outside(0, starts.all, cap, table, reached, marks, index);
    }
    if n <= last {
        return starts.all;
    }
    adopt(starts, cap, table, reached, marks, index)
}
