// The walk of the paths with days left: each row cuts the days down, and a row with which none is left is passed over with all that is below it.
#![tactic(auto)]

ghost use Rattle.std.specs.Prelude.{◌≡◌, ◌+◌, ◌*◌, ◌≤◌, length};
ghost use Rattle.dated.specs.Dated.{some_day, common};
ghost use Rattle.table.specs.TableLayer.{child_column};
ghost use Rattle.walk.specs.WalkLayer.{Walkable, rows_of, RootsPruned};
ghost use Rattle.dated_walk.specs.DatedWalkLayer.{word_days, node_days, with_days, two_a_node, cut, KeptFrom, top, none};
ghost use Rattle.dated_walk.specs.KeptDaysLaws.{days_laws};

use rows::Days;
use walk::{Bounds, Carrying, Outset, Place, Progress};

// The days of the node of rank n + 1, of words that have two for each.
fn node_days(n: u32, words: &[u32]) -> Days
    ensures { result ≡ node_days words.now n }
{
    let at = 2 * (n as usize);
    Days {
        first: lists::get(words, at),
        last: lists::get(words, at + 1),
    }
}

// The days of row number x, or of the node of rank x, of words that have two for each; numbers are counted from 1.
pub fn days_at(x: u32, words: &[u32]) -> Days
    ensures { result ≡ word_days words.now x }
{
    if x == 0 {
        return Days { first: 0, last: 0 };
    }
    node_days(x - 1, words)
}

// The common days of two.
pub fn common_days(s: Days, t: Days) -> Days
    ensures { result ≡ common s t }
{
    Days {
        first: s.first.max(t.first),
        last: s.last.min(t.last),
    }
}

// The days of a path are carried down it. Those of the siblings of an open row are kept where the days of that row's node will be written.
struct DaysLeft;

impl Carrying for DaysLeft {
    type Carried = Days;

    ghost cut = { cut };

    ghost is_left = { some_day };

    ghost size = { two_a_node };

    ghost kept = { node_days };

    ghost keep = { with_days };

    ghost laws = { days_laws };

    fn cut(left: Days, p: u32, spans: &[u32], table: &[u32]) -> Days {
        common_days(left, days_at(table::row(table, p), spans))
    }

    fn is_left(left: Days) -> bool {
        left.first <= left.last
    }

    fn keep(left: Days, n: u32, words: &mut [u32]) {
        let at = 2 * (n as usize);
        words[at] = left.first;
        words[at + 1] = left.last;
    }

    fn take_back(n: u32, words: &[u32]) -> Days {
        node_days(n, words)
    }
}

// The rows that are flagged with 1, with the nodes below them, where the days of the window are carried to them. Words of `days` that belong to no node met are as they were.
pub fn roots(
    window: Days,
    bounds: Bounds,
    spans: &[u32],
    table: &[u32],
    marks: &mut [u32],
    index: &mut [u32],
    days: &mut [u32],
) -> Progress
    requires walkable { Walkable (rows_of table.now) (length marks.old) }
    requires table_len_bound { (length (child_column table.now) ≤ 1024) × (bounds.cap ≤ 65535) × (8 + 6 * bounds.cap ≤ length index.old) × (2 * bounds.cap ≤ length days.old) }
    ensures roots_pruned { RootsPruned (cut spans.now) some_day window table.now top bounds 0 (length (child_column table.now)) none marks.old marks.new index.old index.new result }
    ensures kept_from { KeptFrom (2 * result.count) days.old days.new }
{
    let start = Outset {
        place: Place {
            level: 1,
            parent: 0,
            root: 0,
            orphan: false,
        },
        bounds,
        progress: Progress { count: 0, check: 0 },
    };
    let end = table::rows(table) as u32;
    walk::cut_roots::<DaysLeft>(0, end, window, start, spans, table, marks, index, days)
}
