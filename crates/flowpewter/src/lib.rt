// The calls that C and Rust link to. Each has the contract of the call that it wraps; flat types only, and a slice is a pointer and a length.
#![tactic(auto)]

ghost use Rattle.std.specs.Prelude.{◌≡◌, length};
ghost use Rattle.board.specs.Edits.{empty_of, sound_of, add_of, withdraw_of, remark_of, undo_of, redo_of};
ghost use Rattle.navigate.specs.Navigate.{descendants_answer, descendants_out, siblings_answer, siblings_out};
ghost use Rattle.climb.specs.Climb.{ancestors_answer, ancestors_out};
ghost use Rattle.hops.specs.Hops.{siblings_by_hops_answer, siblings_by_hops_out};
ghost use Rattle.climber.specs.Climber.{climb_one_answer};
ghost use Rattle.meet.specs.Meet.{meet_answer};
ghost use Rattle.sums.specs.Sums.{subtree_answer, path_answer};
ghost use Rattle.pull.specs.Pull.{pull_refusal, pull_out};
ghost use Rattle.index_check.specs.IndexCheck.{accepts};
ghost use Rattle.request.specs.Build.{start_rule, built_of, index_after, totals_after, by_default};
ghost use Rattle.shortest.specs.Shortest.{shortest_built, shortest_index, shortest_totals};
ghost use Rattle.dated.specs.Dated.{dated_built, dated_index, dated_totals, dated_days};
ghost use Rattle.levels.specs.Levelled.{levelled_built, levelled_index, levelled_totals};
ghost use Rattle.history.specs.Encoding.{replayed_of, refusals_of};
ghost use Rattle.flowpewter.specs.Spans.{span_of};
ghost use Rattle.flowpewter.specs.Requests.{depth_of, start_of};

use board::{Board, Edited};
use built::Built;
use climb::Climbed;
use climber::ClimbedOne;
use history::Replayed;
use hops::Hopped;
use meet::Meeting;
use navigate::Listed;
use request::Start;
use rows::{Days, Row};
use sums::Summed;

// Where a node's span stands in the index slice: its first word, counted from 0, and its number of words. A number and two words, 0 where it is refused, since C has no Result.
#[repr(C)]
#[derive(Clone, Copy)]
pub struct Span {
    pub refusal: u32,
    pub start: usize,
    pub words: usize,
}

// C has no Option: it gives a flag and a depth.
fn depth_of(has_depth: bool, depth: i32) -> Option<i32>
    ensures { result ≡ depth_of has_depth depth }
{
    if has_depth { Some(depth) } else { None }
}

// C gives a flag for the start rule.
fn start_of(by_list: bool) -> Start
    ensures { result ≡ start_of by_list }
{
    if by_list {
        Start::Listed
    } else {
        Start::ParentZero
    }
}

#[unsafe(no_mangle)]
pub extern "C" fn flowpewter_empty() -> Board
    ensures { result ≡ empty_of }
{
    Board::empty()
}

#[unsafe(no_mangle)]
pub extern "C" fn flowpewter_sound(board: Board) -> bool
    ensures { result ≡ sound_of board }
{
    board.sound()
}

#[unsafe(no_mangle)]
pub extern "C" fn flowpewter_add(board: Board, row: Row) -> Edited
    ensures { result ≡ add_of board row }
{
    board.add(row)
}

#[unsafe(no_mangle)]
pub extern "C" fn flowpewter_withdraw(board: Board, k: usize) -> Edited
    ensures { result ≡ withdraw_of board k }
{
    board.withdraw(k)
}

#[unsafe(no_mangle)]
pub extern "C" fn flowpewter_remark(board: Board, k: usize, minutes: i32) -> Edited
    ensures { result ≡ remark_of board k minutes }
{
    board.remark(k, minutes)
}

#[unsafe(no_mangle)]
pub extern "C" fn flowpewter_undo(board: Board) -> Edited
    ensures { result ≡ undo_of board }
{
    board.undo()
}

#[unsafe(no_mangle)]
pub extern "C" fn flowpewter_redo(board: Board) -> Edited
    ensures { result ≡ redo_of board }
{
    board.redo()
}

#[unsafe(no_mangle)]
pub extern "C" fn flowpewter_replay(words: &[u32], refusals: &mut [u32]) -> Replayed
    ensures value { result ≡ replayed_of words.now (length refusals.old) }
    ensures refusals_after { refusals.new ≡ refusals_of words.now refusals.old }
{
    history::replay(words, refusals)
}

// Without `has_depth` the depth is ignored, and without `by_list` the list is.
#[unsafe(no_mangle)]
pub extern "C" fn flowpewter_build(
    board: Board,
    code: u32,
    has_depth: bool,
    depth: i32,
    by_list: bool,
    list: &[u32],
    index: &mut [u32],
    totals: &mut [i64],
) -> Built
    ensures value { result ≡ built_of board code (depth_of has_depth depth) (start_rule (start_of by_list) list.now) (length index.old) (length totals.old) }
    ensures index_after { index.new ≡ index_after board code (depth_of has_depth depth) (start_rule (start_of by_list) list.now) index.old (length totals.old) }
    ensures totals_after { totals.new ≡ totals_after board code (depth_of has_depth depth) (start_rule (start_of by_list) list.now) (length index.old) totals.old }
{
    let limit = depth_of(has_depth, depth);
    let start = start_of(by_list);
    Built::from(build::build(board, code, limit, start, list, index, totals))
}

#[unsafe(no_mangle)]
pub extern "C" fn flowpewter_build_default(
    board: Board,
    index: &mut [u32],
    totals: &mut [i64],
) -> Built
    ensures value { result ≡ by_default (built_of board) (length index.old) (length totals.old) }
    ensures index_after { index.new ≡ by_default (index_after board) index.old (length totals.old) }
    ensures totals_after { totals.new ≡ by_default (totals_after board) (length index.old) totals.old }
{
    Built::from(build::build_default(board, index, totals))
}

// Without `by_list` the list is ignored.
#[unsafe(no_mangle)]
pub extern "C" fn flowpewter_build_shortest(
    board: Board,
    by_list: bool,
    list: &[u32],
    index: &mut [u32],
    totals: &mut [i64],
) -> Built
    ensures value { result ≡ shortest_built board (start_rule (start_of by_list) list.now) (length index.old) (length totals.old) }
    ensures index_after { index.new ≡ shortest_index board (start_rule (start_of by_list) list.now) index.old (length totals.old) }
    ensures totals_after { totals.new ≡ shortest_totals board (start_rule (start_of by_list) list.now) (length index.old) totals.old }
{
    let rule = start_of(by_list);
    Built::from(build::build_shortest(board, rule, list, index, totals))
}

// The window is the days from `first_day` to `last_day`, both included. Without `has_depth` the depth is ignored, and without `by_list` the list is.
#[unsafe(no_mangle)]
pub extern "C" fn flowpewter_build_dated(
    board: Board,
    code: u32,
    has_depth: bool,
    depth: i32,
    by_list: bool,
    list: &[u32],
    first_day: u32,
    last_day: u32,
    index: &mut [u32],
    totals: &mut [i64],
    days: &mut [u32],
) -> Built
    ensures value { result ≡ dated_built board code (depth_of has_depth depth) (start_rule (start_of by_list) list.now) (record { first = first_day; last = last_day }) (length index.old) (length totals.old) (length days.old) }
    ensures index_after { index.new ≡ dated_index board code (depth_of has_depth depth) (start_rule (start_of by_list) list.now) (record { first = first_day; last = last_day }) index.old (length totals.old) (length days.old) }
    ensures totals_after { totals.new ≡ dated_totals board code (depth_of has_depth depth) (start_rule (start_of by_list) list.now) (record { first = first_day; last = last_day }) (length index.old) totals.old (length days.old) }
    ensures days_after { days.new ≡ dated_days board code (depth_of has_depth depth) (start_rule (start_of by_list) list.now) (record { first = first_day; last = last_day }) (length index.old) (length totals.old) days.old }
{
    let limit = depth_of(has_depth, depth);
    let start = start_of(by_list);
    let window = Days {
        first: first_day,
        last: last_day,
    };
    Built::from(build::build_dated(board, code, limit, window, start, list, index, totals, days))
}

#[unsafe(no_mangle)]
pub extern "C" fn flowpewter_build_levelled(
    cells: &[u32],
    width: u32,
    index: &mut [u32],
    totals: &mut [i64],
) -> Built
    ensures value { result ≡ levelled_built cells.now width (length index.old) (length totals.old) }
    ensures index_after { index.new ≡ levelled_index cells.now width index.old (length totals.old) }
    ensures totals_after { totals.new ≡ levelled_totals cells.now width (length index.old) totals.old }
{
    Built::from(levelled::build_levelled(cells, width, index, totals))
}

// A returned part of a slice can't be exported: the caller cuts it out by start and length.
#[unsafe(no_mangle)]
#[tactic(auto, unfolding(crate::specs::Spans::span_of))]
pub extern "C" fn flowpewter_span(index: &[u32], rank: u32) -> Span
    ensures { result ≡ span_of index.now rank }
{
    if let Err(refusal) = spans::check_span(index, rank) {
        return Span {
            refusal: refusal.number(),
            start: 0,
            words: 0,
        };
    }
    let size = image::size_at(index, rank as usize) as usize;
    Span {
        refusal: 0,
        start: image::body_at(rank as usize),
        words: 6 * size,
    }
}

#[unsafe(no_mangle)]
pub extern "C" fn flowpewter_descendants(
    index: &[u32],
    rank: u32,
    lo: i32,
    hi: i32,
    out: &mut [u32],
) -> Listed
    ensures value { result ≡ descendants_answer index.now rank lo hi out.old }
    ensures out_after { out.new ≡ descendants_out index.now rank lo hi out.old }
{
    Listed::from(navigate::descendants(index, rank, lo, hi, out))
}

#[unsafe(no_mangle)]
pub extern "C" fn flowpewter_ancestors(
    index: &[u32],
    rank: u32,
    lo: i32,
    hi: i32,
    out: &mut [u32],
) -> Climbed
    ensures value { result ≡ ancestors_answer index.now rank lo hi out.old }
    ensures out_after { out.new ≡ ancestors_out index.now rank lo hi out.old }
{
    Climbed::from(climb::ancestors(index, rank, lo, hi, out))
}

#[unsafe(no_mangle)]
pub extern "C" fn flowpewter_siblings(index: &[u32], rank: u32, out: &mut [u32]) -> Listed
    ensures value { result ≡ siblings_answer index.now rank out.old }
    ensures out_after { out.new ≡ siblings_out index.now rank out.old }
{
    Listed::from(navigate::siblings(index, rank, out))
}

#[unsafe(no_mangle)]
pub extern "C" fn flowpewter_siblings_by_hops(index: &[u32], rank: u32, out: &mut [u32]) -> Hopped
    ensures value { result ≡ siblings_by_hops_answer index.now rank out.old }
    ensures out_after { out.new ≡ siblings_by_hops_out index.now rank out.old }
{
    Hopped::from(hops::siblings_by_hops(index, rank, out))
}

#[unsafe(no_mangle)]
pub extern "C" fn flowpewter_meet(index: &[u32], a: u32, b: u32) -> Meeting
    ensures { result ≡ meet_answer index.now a b }
{
    Meeting::from(meet::meet(index, a, b))
}

#[unsafe(no_mangle)]
pub extern "C" fn flowpewter_climb(index: &[u32], rank: u32) -> ClimbedOne
    ensures { result ≡ climb_one_answer index.now rank }
{
    ClimbedOne::at(rank, climber::climb(index, rank))
}

#[unsafe(no_mangle)]
pub extern "C" fn flowpewter_subtree_sum(index: &[u32], totals: &[i64], rank: u32) -> Summed
    ensures { result ≡ subtree_answer index.now totals.now rank }
{
    Summed::from(sums::subtree_sum(index, totals, rank))
}

#[unsafe(no_mangle)]
pub extern "C" fn flowpewter_path_sum(index: &[u32], totals: &[i64], rank: u32) -> Summed
    ensures { result ≡ path_answer index.now totals.now rank }
{
    Summed::from(sums::path_sum(index, totals, rank))
}

#[unsafe(no_mangle)]
pub extern "C" fn flowpewter_pull(
    index: &[u32],
    totals: &mut [i64],
    row: u32,
    difference: i64,
) -> u32
    ensures value { result ≡ pull_refusal index.now totals.old row difference }
    ensures totals_after { totals.new ≡ pull_out index.now totals.old row difference }
{
    match pull::pull(index, totals, row, difference) {
        Ok(()) => 0,
        Err(refusal) => refusal.number(),
    }
}

#[unsafe(no_mangle)]
pub extern "C" fn flowpewter_index_check(index: &[u32]) -> bool
    ensures { result ≡ accepts index.now }
{
    index_check::index_check(index)
}
