// The builds of a board: its hierarchy index over all its paths, over the shortest to each numeral, or over those with days left in a window, and the running totals.
#![tactic(auto)]

ghost use Rattle.std.specs.Prelude.{◌≡◌, length};
ghost use Rattle.request.specs.Build.{start_rule, built_of, index_after, totals_after, by_default};
ghost use Rattle.built.specs.Answered.{built};
ghost use Rattle.build.specs.declared.Asked.TheVariants.{ByCode, ByDays};
ghost use Rattle.build.specs.AttemptedLayer.{judged, AskedAttempted};
ghost use Rattle.build.specs.Asked.{asked_built, asked_index, asked_totals, asked_days};
ghost use Rattle.dated.specs.Dated.{dated_built, dated_index, dated_totals, dated_days};
ghost use Rattle.shortest.specs.Shortest.{shortest_built, shortest_index, shortest_totals};

use assemble::Placement;
use board::Board;
use built::Counts;
use refusal::Refusal;
use request::Start;
use rows::Days;

// What is asked of a build: all paths, by an option code and a depth, for each numeral the shortest, or by a code and a depth the paths with days left in a window.
#[derive(Clone, Copy)]
pub enum Asked {
    ByCode(u32, Option<i32>),
    ByShortest,
    ByDays(u32, Option<i32>, Days),
}

fn judge_code(code: u32, depth: Option<i32>) -> Result<Placement, Refusal>
    ensures { result ≡ judged (ByCode code depth) }
{
    if 23 < code {
        return Err(Refusal::UnknownCode);
    }
    let choice = options::choices(code);
    if refusals::is_depth_refused(choice.orphan, depth) {
        return Err(Refusal::DepthWithOrphans);
    }
    Ok(Placement::AllPaths(choice, depth))
}

fn judge_days(code: u32, depth: Option<i32>, window: Days) -> Result<Placement, Refusal>
    ensures { result ≡ judged (ByDays code depth window) }
{
    if code > 23 {
        return Err(Refusal::UnknownCode);
    }
    if window.last < window.first {
        return Err(Refusal::NoDays);
    }
    let choice = options::choices(code);
    if choice.orphan != 0 {
        return Err(Refusal::DepthWithOrphans);
    }
    Ok(Placement::Dated(choice, depth, window))
}

// What comes of what is asked: a refusal, or the placement.
fn judge(asked: Asked) -> Result<Placement, Refusal>
    ensures { result ≡ judged asked }
{
    match asked {
        Asked::ByCode(code, depth) => judge_code(code, depth),
        Asked::ByShortest => Ok(Placement::Shortest),
        Asked::ByDays(code, depth, window) => judge_days(code, depth, window),
    }
}

// The build of a board. Where it is refused, the slices may hold anything.
fn attempt(
    board: Board,
    asked: Asked,
    start: Start,
    list: &[u32],
    index: &mut [u32],
    totals: &mut [i64],
    days: &mut [u32],
) -> Result<Counts, Refusal>
    ensures { AskedAttempted asked board (start_rule start list.now) index.old index.new totals.old totals.new days.old days.new (built result) }
{
    if !board.sound() {
        return Err(Refusal::UnsoundBoard);
    }
    let placement = judge(asked)?;
    let rows = board.rows;
    let n = board.count;
    assemble::build_rows(rows, n, placement, start, list, index, totals, days)
}

// Builds the index of a board and its running totals by what is asked. A refused build leaves the slices all zero; the days are written by a dated one alone. The builds below only say what is asked, so that
// there is one copy of this code, and no copy of the board is made for it.
pub fn build_asked(
    board: Board,
    asked: Asked,
    start: Start,
    list: &[u32],
    index: &mut [u32],
    totals: &mut [i64],
    days: &mut [u32],
) -> Result<Counts, Refusal>
    ensures value { built result ≡ asked_built asked board (start_rule start list.now) (length index.old) (length totals.old) (length days.old) }
    ensures index_after { index.new ≡ asked_index asked board (start_rule start list.now) index.old (length totals.old) (length days.old) }
    ensures totals_after { totals.new ≡ asked_totals asked board (start_rule start list.now) (length index.old) totals.old (length days.old) }
    ensures days_after { days.new ≡ asked_days asked board (start_rule start list.now) (length index.old) (length totals.old) days.old }
{
    let answer = attempt(board, asked, start, list, index, totals, days);
    built::settle_days(answer, days);
    built::settle(answer, index, totals)
}

// Builds the index of a board and its running totals. A refused build leaves both slices all zero.
pub fn build(
    board: Board,
    code: u32,
    depth: Option<i32>,
    start: Start,
    list: &[u32],
    index: &mut [u32],
    totals: &mut [i64],
) -> Result<Counts, Refusal>
    ensures value { built result ≡ built_of board code depth (start_rule start list.now) (length index.old) (length totals.old) }
    ensures index_after { index.new ≡ index_after board code depth (start_rule start list.now) index.old (length totals.old) }
    ensures totals_after { totals.new ≡ totals_after board code depth (start_rule start list.now) (length index.old) totals.old }
{
    let mut unwritten = [0u32; 1];
    build_asked(
        board,
        Asked::ByCode(code, depth),
        start,
        list,
        index,
        totals,
        &mut unwritten,
    )
}

// The option code of a build by default: orphans are roots, numerals may be shared, cycles are broken up.
const DEFAULT_CODE: u32 = 3;

// The build by default: code 3, no depth, the rows with parent 0. Every row ends a node of an accepted one.
pub fn build_default(board: Board, index: &mut [u32], totals: &mut [i64]) -> Result<Counts, Refusal>
    ensures value { built result ≡ by_default (built_of board) (length index.old) (length totals.old) }
    ensures index_after { index.new ≡ by_default (index_after board) index.old (length totals.old) }
    ensures totals_after { totals.new ≡ by_default (totals_after board) (length index.old) totals.old }
{
    let unread = [0u32; 1];
    build(
        board,
        DEFAULT_CODE,
        None,
        Start::ParentZero,
        &unread,
        index,
        totals,
    )
}

// Builds the index of a board in which each numeral stands once, as close to a start row as it can, and its running totals. A refused build leaves both slices all zero.
pub fn build_shortest(
    board: Board,
    start: Start,
    list: &[u32],
    index: &mut [u32],
    totals: &mut [i64],
) -> Result<Counts, Refusal>
    ensures value { built result ≡ shortest_built board (start_rule start list.now) (length index.old) (length totals.old) }
    ensures index_after { index.new ≡ shortest_index board (start_rule start list.now) index.old (length totals.old) }
    ensures totals_after { totals.new ≡ shortest_totals board (start_rule start list.now) (length index.old) totals.old }
{
    let asked = Asked::ByShortest;
    let mut unwritten = [0u32; 1];
    build_asked(board, asked, start, list, index, totals, &mut unwritten)
}

// Builds the index of a board over the paths with days left in a window, its running totals, and the days of each node, two words a node. A refused build leaves the three slices all zero.
pub fn build_dated(
    board: Board,
    code: u32,
    depth: Option<i32>,
    window: Days,
    start: Start,
    list: &[u32],
    index: &mut [u32],
    totals: &mut [i64],
    days: &mut [u32],
) -> Result<Counts, Refusal>
    ensures value { built result ≡ dated_built board code depth (start_rule start list.now) window (length index.old) (length totals.old) (length days.old) }
    ensures index_after { index.new ≡ dated_index board code depth (start_rule start list.now) window index.old (length totals.old) (length days.old) }
    ensures totals_after { totals.new ≡ dated_totals board code depth (start_rule start list.now) window (length index.old) totals.old (length days.old) }
    ensures days_after { days.new ≡ dated_days board code depth (start_rule start list.now) window (length index.old) (length totals.old) days.old }
{
    build_asked(
        board,
        Asked::ByDays(code, depth, window),
        start,
        list,
        index,
        totals,
        days,
    )
}
