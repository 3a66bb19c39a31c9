// Entries into islands: the walk of an entry with all that is below it, and the pass over the row numbers that enters one island after the other.
#![tactic(auto)]

ghost use Rattle.std.specs.Prelude.{ℕ, ◌+◌, ◌*◌, ◌<◌, ◌≤◌, Bool, List, length, slice_index};
ghost use Rattle.rows.specs.declared.Row.{Row};
ghost use Rattle.table.specs.TableLayer.{row_column, child_column, flag_column, Stored};
ghost use Rattle.walk.specs.WalkLayer.{Walkable, Walked, Clear, rows_of};
ghost use Rattle.islands.specs.Entries.{islands, entries};
ghost use Rattle.islands.specs.EntryLayer.{entry_walks, scan};
ghost use Rattle.rings.specs.EnterLayer.{Unnamed, EntryFrom};
ghost use Rattle.rings.specs.RingsLayer.{RowsKept, PositionsStand, Joinable, AnyJoinable, Enterable, AnyEnterable, Room, IslandTaken, EntryKept};

use walk::{Bounds, Place, Progress};

// Takes the row number of the node of rank n + 1 away, and from the check word.
fn unname(n: u32, progress: Progress, index: &mut [u32]) -> Progress
    requires { (n ≤ 65535) × (14 + 6 * n ≤ length index.old) }
    ensures { Unnamed n progress index.old index.new result }
{
    let at = image::bodies_end(n) + 1;
    let x = index[at];
    index[at] = 0;
    Progress {
        check: progress.check.wrapping_sub(x),
        ..progress
    }
}

// Walks the entry that is taken from the row at p, and all that is below it.
fn enter(
    p: u32,
    place: Place,
    bounds: Bounds,
    progress: Progress,
    table: &mut [u32],
    marks: &mut [u32],
    index: &mut [u32],
) -> Progress
    requires walkable { Walkable (rows_of table.old) (length marks.old) }
    requires p_in_bounds { (p < length (child_column table.old)) × (length (child_column table.old) ≤ 1024) × (progress.count ≤ bounds.cap) × (bounds.cap ≤ 65535) × (8 + 6 * bounds.cap ≤ length index.old) }
    ensures entry_from { EntryFrom table.old place bounds p progress marks.old marks.new index.old index.new result }
    ensures stored { Stored 7 p 1 table.old table.new }
{
    table::set_flag(table, p, 1);
    let n = progress.count;
    if bounds.cap <= n {
        return Progress {
            count: bounds.cap + 1,
            ..progress
        };
    }
    let after = walk::roots(p, p + 1, place, bounds, progress, table, marks, index);
    if bounds.cap < after.count {
        return after;
    }
    unname(n, after, index)
}

// Walks the entry that is taken from the row at p, flags the rows below it and cuts the links to them: those of the classes that the walk met.
fn take_island(
    p: u32,
    place: Place,
    bounds: Bounds,
    progress: Progress,
    table: &mut [u32],
    reached: &mut [u32],
    marks: &mut [u32],
    index: &mut [u32],
) -> Progress
    requires any_enterable { AnyEnterable (rows_of table.old) reached.old }
    requires room { Room table.old place bounds progress marks.old index.old × PositionsStand table.old × (p < length (row_column table.old)) }
    ensures island_taken { (R : List Row) (pool : List ℕ) → Enterable R pool (rows_of table.old) reached.old → IslandTaken R pool table.old place bounds p progress table.new reached.new marks.old marks.new index.old index.new result }
    ensures entry_kept { EntryKept p table.old table.new }
{
    let n = progress.count;
    let after = enter(p, place, bounds, progress, table, marks, index);
    if bounds.cap < after.count {
        return after;
    }
    passes::mark_rows(index, n as usize + 1, after.count as usize, reached);
    cuts::cut_class(p, table);
    cuts::cut_rows(n + 1, after.count, table, index);
    after
}

// Takes the row numbers in order: a row that is not reached yet and lies on a ring is entered.
fn enter_rings(
    place: Place,
    bounds: Bounds,
    progress: Progress,
    table: &mut [u32],
    reached: &mut [u32],
    marks: &mut [u32],
    index: &mut [u32],
) -> Progress
    requires any_enterable { AnyEnterable (rows_of table.old) reached.old }
    requires room { Room table.old place bounds progress marks.old index.old × PositionsStand table.old × ((c : ℕ) → slice_index (flag_column table.old) c ≤ 1) }
    ensures walked { (R : List Row) (pool : List ℕ) → Enterable R pool (rows_of table.old) reached.old → Walked (entry_walks R pool (scan R (length R) 1 pool) place.parent place.root place.level (progress.count + 1)) progress.count bounds.cap progress.check marks.old marks.new index.old index.new result }
    ensures rows_kept { RowsKept table.old table.new }
{
    let n = table::rows(table) as u32;
    let mut met = progress;
    for x in 0..n {
        if reached[x as usize] != 0 {
            continue;
        }
        let p = table::word(table, x, table::PARENT_POSITION) % cuts::LATER;
        if !ring_search::is_ringed(p, x + 2, table) {
            continue;
        }
        let after = take_island(p, place, bounds, met, table, reached, marks, index);
        if bounds.cap < after.count {
            return after;
        }
        met = after;
    }
    met
}

// Enters the islands that are left beside the orphan paths, under the node of a rank, or as roots where the rank is 0. The links are those of the rows that end no regular path;
// `reached` flags, by row number, all rows but those of the islands.
pub fn enter_islands(
    rank: u32,
    level: u32,
    cap: u32,
    progress: Progress,
    table: &mut [u32],
    reached: &mut [u32],
    marks: &mut [u32],
    index: &mut [u32],
) -> Progress
    requires any_joinable { AnyJoinable table.old reached.old }
    requires level_bound { (level ≤ 2) × (progress.count ≤ cap) × (cap ≤ 65535) × (8 + 6 * cap ≤ length index.old) × (length (row_column table.old) ≤ length marks.old) × Clear marks.old }
    ensures walked { (R : List Row) (start : Row → Bool) → Joinable R start table.old reached.old → Walked (entry_walks R (islands R start) (entries R start) rank rank level (progress.count + 1)) progress.count cap progress.check marks.old marks.new index.old index.new result }
    ensures rows_kept { RowsKept table.old table.new }
{
    cuts::cut_children(table, reached);
    cuts::positions_by_row(table);
    cuts::chain_classes(table);
    let n = table::rows(table) as u32;
    let place = Place {
        level,
        parent: rank,
        root: rank,
        orphan: true,
    };
    let bounds = Bounds {
        limit: n + level + 1,
        cap,
    };
    enter_rings(place, bounds, progress, table, reached, marks, index)
}
