// The tests of a build before its nodes are walked: refusals 7 and 8, and how many nodes the slices hold (refusal 9).
#![tactic(auto)]

ghost use Rattle.std.specs.Prelude.{◌≡◌, ◌≤◌, length};
ghost use Rattle.nodes.specs.Refusals.{refusal7};
ghost use Rattle.table.specs.TableLayer.{row_column};
ghost use Rattle.refusal.specs.Numbers.{refusal_of};
ghost use Rattle.refusals.specs.TestsLayer.{capacity_of, dated_capacity_of, lacks_start, early_refusal};

use refusal::Refusal;

// How many nodes the two slices hold, at most 65,535.
#[tactic(auto, unfolding(crate::specs::TestsLayer::capacity_of))]
pub fn capacity(words: usize, totals: usize) -> u32
    requires { (8 ≤ words) × (1 ≤ totals) }
    ensures { result ≡ capacity_of words totals }
{
    let held = ((words - 8) / 6).min(totals - 1);
    held.min(65535) as u32
}

// How many nodes they hold where each has two words of a third slice as well.
#[tactic(auto, unfolding(crate::specs::TestsLayer::dated_capacity_of))]
pub fn dated_capacity(words: usize, totals: usize, days: usize) -> u32
    requires { (8 ≤ words) × (1 ≤ totals) }
    ensures { result ≡ dated_capacity_of words totals days }
{
    let held = capacity(words, totals) as usize;
    held.min(days / 2) as u32
}

// Whether a depth is given and orphan isn't 0.
pub fn is_depth_refused(orphan: u32, depth: Option<i32>) -> bool
    ensures { result ≡ refusal7 orphan depth }
{
    orphan != 0 && depth.is_some()
}

// Whether adopt meets a top orphan or an island and there is no start row: without one every row is outside the regular paths.
#[tactic(auto, unfolding(crate::specs::TestsLayer::lacks_start))]
fn lacks_start(orphan: u32, table: &[u32]) -> bool
    requires { length (row_column table.now) ≤ 1024 }
    ensures { result ≡ lacks_start orphan table.now }
{
    if orphan != 2 {
        return false;
    }
    let n = table::rows(table);
    for p in 0..n as u32 {
        if table::flag(table, p) == 1 {
            return false;
        }
    }
    0 < n
}

// Refuses adopt without a start row, and slices that have no room for an index or totals of no node.
#[tactic(auto, unfolding(crate::specs::TestsLayer::early_refusal))]
pub fn check_room(orphan: u32, table: &[u32], words: usize, totals: usize) -> Result<(), Refusal>
    requires { length (row_column table.now) ≤ 1024 }
    ensures { refusal_of result ≡ early_refusal (lacks_start orphan table.now) words totals }
{
    if lacks_start(orphan, table) {
        return Err(Refusal::NoStartRow);
    }
    if words < 8 || totals < 1 {
        return Err(Refusal::TooManyNodes);
    }
    Ok(())
}
