// The nodes of a dated build: the walk of the paths with days left, and then their days, rank by rank.
#![tactic(auto)]

ghost use Rattle.std.specs.Prelude.{◌≡◌, Bool, List, ℕ, ◌+◌, ◌*◌, ◌≤◌, ◌<◌, length};
ghost use Rattle.lists.specs.Lists.{front};
ghost use Rattle.rows.specs.declared.Row.{Row};
ghost use Rattle.rows.specs.declared.Days.{Days};
ghost use Rattle.table.specs.TableLayer.{row_column};
ghost use Rattle.links.specs.PreparedLayer.{Prepared, StartFlags, AnyPrepared};
ghost use Rattle.walk.specs.WalkLayer.{Clear, Walked};
ghost use Rattle.dated.specs.Dated.{dated_bodies};
ghost use Rattle.ordering.specs.OrderingLayer.{spans_of};
ghost use Rattle.dated_walk.specs.DatedWalkLayer.{KeptFrom};
ghost use Rattle.dated_nodes.specs.DatedNodesLayer.{days_above, DaysPass, day_pairs};

use rows::Days;
use walk::{Bounds, Progress};

// The nodes of a dated build: their bodies go to the index from word 8 on. A count above `cap` says that there are more. Words of `days` that belong to no node are as they were.
pub fn walk_dated(
    window: Days,
    depth: Option<i32>,
    cap: u32,
    spans: &[u32],
    table: &[u32],
    marks: &mut [u32],
    index: &mut [u32],
    days: &mut [u32],
) -> Progress
    requires any_prepared { AnyPrepared table.now }
    requires cap_bound { (cap ≤ 65535) × (8 + 6 * cap ≤ length index.old) × (2 * cap ≤ length days.old) }
    requires table_in_bounds { (length (row_column table.now) ≤ length marks.old) × Clear marks.old }
    ensures walked { (R : List Row) (start : Row → Bool) → Prepared R table.now → StartFlags R start table.now → spans.now ≡ spans_of R → Walked (dated_bodies R window start depth) 0 cap 0 marks.old marks.new index.old index.new result }
    ensures kept_from { KeptFrom (2 * result.count) days.old days.new }
{
    let n = table::rows(table) as u32;
    let bounds = Bounds {
        limit: options::level_limit(depth, n),
        cap,
    };
    dated_walk::roots(window, bounds, spans, table, marks, index, days)
}

// The days of the node of a parent's rank, or the window for rank 0.
fn days_above(rank: u32, window: Days, days: &[u32]) -> Days
    ensures { result ≡ days_above days.now window rank }
{
    if rank == 0 {
        return window;
    }
    dated_walk::days_at(rank, days)
}

// Writes the days of the first n ranks to the front of the slice: those of the parent, or of the window, that are the row's too.
pub fn fill_days(window: Days, n: usize, spans: &[u32], index: &[u32], days: &mut [u32])
    requires { (n ≤ 65535) × (2 * n ≤ length days.old) }
    ensures { (D : ℕ → Days) → DaysPass window spans.now index.now n D → days.new ≡ front (day_pairs D n) days.old }
{
    for k in 0..n {
        let rank = k + 1;
        let above = days_above(image::parent_at(index, rank), window, days);
        let row = dated_walk::days_at(image::row_at(index, rank), spans);
        let own = dated_walk::common_days(above, row);
        let at = 2 * k;
        days[at] = own.first;
        days[at + 1] = own.last;
    }
}
