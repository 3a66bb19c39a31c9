// The build of rows in working slices: prepared, enumerated, finished.
#![tactic(auto)]

ghost use Rattle.std.specs.Prelude.{◌≡◌, Bool, false, List, ℕ, ◌*◌, ◌≤◌, ◌<◌, length, take, None};
ghost use Rattle.rows.specs.declared.Row.{Row};
ghost use Rattle.options.specs.Options.{orphan_of, choice_of};
ghost use Rattle.paths.specs.Nodes.{starts, tops};
ghost use Rattle.islands.specs.Entries.{islands};
ghost use Rattle.nodes.specs.Refusals.{refusal6, refusal7, refusal8};
ghost use Rattle.request.specs.Build.{start_rule};
ghost use Rattle.table.specs.TableLayer.{row_column};
ghost use Rattle.ordering.specs.OrderingLayer.{spans_of};
ghost use Rattle.links.specs.PreparedLayer.{WithNumerals};
ghost use Rattle.refusals.specs.TestsLayer.{capacity_of, dated_capacity_of};
ghost use Rattle.enumerate.specs.EnumerateLayer.{ClearWorkspace};
ghost use Rattle.built.specs.Answered.{built};
ghost use Rattle.assemble.specs.AssembledLayer.{RowsBuilt, ShortestRowsBuilt, DatedRowsBuilt, Placeable, RowsPlaced, SpansRead, dated_rows, PreparedRows, AnyPreparedRows, AnyRead};
ghost use Rattle.assemble.specs.declared.Placement.TheVariants.{Dated};

use built::Counts;
use options::Choice;
use refusal::Refusal;
use request::Start;
use rows::{Days, Row};

// Which paths of the rows are nodes: all of them, by these choices and this depth, for each numeral the shortest alone, or by choices and a depth those with days left in a window.
#[derive(Clone, Copy)]
pub enum Placement {
    AllPaths(Choice, Option<i32>),
    Shortest,
    Dated(Choice, Option<i32>, Days),
}

// Enumerates the nodes and finishes the build of rows that are prepared. Where it is refused, both slices may hold anything.
fn write_nodes(
    choice: Choice,
    depth: Option<i32>,
    cap: u32,
    minutes: &[i32],
    table: &mut [u32],
    reached: &mut [u32],
    marks: &mut [u32],
    index: &mut [u32],
    totals: &mut [i64],
) -> Result<Counts, Refusal>
    requires any_prepared_rows { AnyPreparedRows table.old minutes.now }
    requires orphan_bound { (choice.orphan ≤ 3) × (1 < choice.orphan → depth ≡ None) × (8 ≤ length index.old) × (1 ≤ length totals.old) × (cap ≡ capacity_of (length index.old) (length totals.old)) }
    requires clear_workspace { ClearWorkspace (length (row_column table.old)) reached.old marks.old }
    ensures { (R : List Row) (start : Row → Bool) (code : ℕ) → PreparedRows R start table.old minutes.now → choice ≡ choice_of code → refusal6 code ≡ false → refusal7 (orphan_of code) depth ≡ false → refusal8 (orphan_of code) (tops R start depth) (islands R start) (starts R start) ≡ false → RowsBuilt R code depth start index.old index.new totals.old totals.new (built result) }
{
    let progress = enumerate::enumerate(choice.orphan, depth, cap, table, reached, marks, index);
    if cap < progress.count {
        return Err(Refusal::TooManyNodes);
    }
    finish::finish(choice, progress, minutes, table, reached, index, totals)
}

// The build over all paths of rows that are prepared. Where it is refused, both slices may hold anything.
fn place_paths(
    choice: Choice,
    depth: Option<i32>,
    minutes: &[i32],
    table: &mut [u32],
    reached: &mut [u32],
    marks: &mut [u32],
    index: &mut [u32],
    totals: &mut [i64],
) -> Result<Counts, Refusal>
    requires any_prepared_rows { AnyPreparedRows table.old minutes.now }
    requires orphan_bound { (choice.orphan ≤ 3) × (refusal7 choice.orphan depth ≡ false) }
    requires clear_workspace { ClearWorkspace (length (row_column table.old)) reached.old marks.old }
    ensures { (R : List Row) (start : Row → Bool) (code : ℕ) → PreparedRows R start table.old minutes.now → choice ≡ choice_of code → refusal6 code ≡ false → RowsBuilt R code depth start index.old index.new totals.old totals.new (built result) }
{
    refusals::check_room(choice.orphan, table, index.len(), totals.len())?;
    let cap = refusals::capacity(index.len(), totals.len());
    write_nodes(
        choice, depth, cap, minutes, table, reached, marks, index, totals,
    )
}

// Walks the kept paths and finishes the build of rows that are prepared. Where it is refused, both slices may hold anything.
fn write_shortest(
    cap: u32,
    minutes: &[i32],
    table: &mut [u32],
    reached: &mut [u32],
    marks: &mut [u32],
    index: &mut [u32],
    totals: &mut [i64],
) -> Result<Counts, Refusal>
    requires any_prepared_rows { AnyPreparedRows table.old minutes.now }
    requires in_bounds { (8 ≤ length index.old) × (1 ≤ length totals.old) × (cap ≡ capacity_of (length index.old) (length totals.old)) }
    requires clear_workspace { ClearWorkspace (length (row_column table.old)) reached.old marks.old }
    ensures { (R : List Row) (start : Row → Bool) → PreparedRows R start table.old minutes.now → ShortestRowsBuilt R start index.old index.new totals.old totals.new (built result) }
{
    let progress = kept_rows::walk_shortest(cap, table, reached, marks, index);
    if cap < progress.count {
        return Err(Refusal::TooManyNodes);
    }
    let none = Choice {
        orphan: 0,
        multi: 0,
        cycle: 0,
    };
    finish::finish(none, progress, minutes, table, reached, index, totals)
}

// The build of shortest placement of rows that are prepared. Where it is refused, both slices may hold anything.
fn place_shortest(
    minutes: &[i32],
    table: &mut [u32],
    reached: &mut [u32],
    marks: &mut [u32],
    index: &mut [u32],
    totals: &mut [i64],
) -> Result<Counts, Refusal>
    requires any_prepared_rows { AnyPreparedRows table.old minutes.now }
    requires clear_workspace { ClearWorkspace (length (row_column table.old)) reached.old marks.old }
    ensures { (R : List Row) (start : Row → Bool) → PreparedRows R start table.old minutes.now → ShortestRowsBuilt R start index.old index.new totals.old totals.new (built result) }
{
    refusals::check_room(0, table, index.len(), totals.len())?;
    let cap = refusals::capacity(index.len(), totals.len());
    write_shortest(cap, minutes, table, reached, marks, index, totals)
}

// Walks the paths with days left and finishes the build of rows that are prepared. Where it is refused, the slices may hold anything.
fn write_dated(
    choice: Choice,
    depth: Option<i32>,
    window: Days,
    cap: u32,
    minutes: &[i32],
    spans: &[u32],
    table: &mut [u32],
    reached: &mut [u32],
    marks: &mut [u32],
    index: &mut [u32],
    totals: &mut [i64],
    days: &mut [u32],
) -> Result<Counts, Refusal>
    requires any_read { AnyRead (Dated choice depth window) table.old minutes.now spans.now }
    requires orphan_value { (choice.orphan ≡ 0) × (8 ≤ length index.old) × (1 ≤ length totals.old) × (cap ≡ dated_capacity_of (length index.old) (length totals.old) (length days.old)) }
    requires clear_workspace { ClearWorkspace (length (row_column table.old)) reached.old marks.old }
    ensures { (R : List Row) (start : Row → Bool) (code : ℕ) → PreparedRows R start table.old minutes.now → spans.now ≡ spans_of R → choice ≡ choice_of code → DatedRowsBuilt R code depth start window index.old index.new totals.old totals.new days.old days.new (built result) }
{
    let progress = dated_nodes::walk_dated(window, depth, cap, spans, table, marks, index, days);
    if cap < progress.count {
        return Err(Refusal::TooManyNodes);
    }
    let counts = finish::finish(choice, progress, minutes, table, reached, index, totals)?;
    dated_nodes::fill_days(window, progress.count as usize, spans, index, days);
    Ok(counts)
}

// The dated build of rows that are prepared. Where it is refused, the slices may hold anything.
fn place_dated(
    choice: Choice,
    depth: Option<i32>,
    window: Days,
    minutes: &[i32],
    spans: &[u32],
    table: &mut [u32],
    reached: &mut [u32],
    marks: &mut [u32],
    index: &mut [u32],
    totals: &mut [i64],
    days: &mut [u32],
) -> Result<Counts, Refusal>
    requires any_read { AnyRead (Dated choice depth window) table.old minutes.now spans.now }
    requires orphan_value { choice.orphan ≡ 0 }
    requires clear_workspace { ClearWorkspace (length (row_column table.old)) reached.old marks.old }
    ensures { (R : List Row) (start : Row → Bool) (code : ℕ) → PreparedRows R start table.old minutes.now → spans.now ≡ spans_of R → choice ≡ choice_of code → DatedRowsBuilt R code depth start window index.old index.new totals.old totals.new days.old days.new (built result) }
{
    refusals::check_room(0, table, index.len(), totals.len())?;
    let cap = refusals::dated_capacity(index.len(), totals.len(), days.len());
    write_dated(
        choice, depth, window, cap, minutes, spans, table, reached, marks, index, totals, days,
    )
}

// The build of rows that are prepared. Where it is refused, the slices may hold anything.
fn place_nodes(
    placement: Placement,
    minutes: &[i32],
    spans: &[u32],
    table: &mut [u32],
    reached: &mut [u32],
    marks: &mut [u32],
    index: &mut [u32],
    totals: &mut [i64],
    days: &mut [u32],
) -> Result<Counts, Refusal>
    requires any_read { AnyRead placement table.old minutes.now spans.now }
    requires placeable { Placeable placement }
    requires clear_workspace { ClearWorkspace (length (row_column table.old)) reached.old marks.old }
    ensures { (R : List Row) (start : Row → Bool) → PreparedRows R start table.old minutes.now → SpansRead placement R spans.now → RowsPlaced placement R start index.old index.new totals.old totals.new days.old days.new (built result) }
{
    match placement {
        Placement::AllPaths(choice, depth) => place_paths(
            choice, depth, minutes, table, reached, marks, index, totals,
        ),
        Placement::Shortest => place_shortest(minutes, table, reached, marks, index, totals),
        Placement::Dated(choice, depth, window) => place_dated(
            choice, depth, window, minutes, spans, table, reached, marks, index, totals, days,
        ),
    }
}

// How many of n rows have their days read: all for a dated build, else none.
fn dated_rows(placement: Placement, n: usize) -> usize
    ensures { result ≡ dated_rows placement n }
{
    match placement {
        Placement::AllPaths(_, _) => 0,
        Placement::Shortest => 0,
        Placement::Dated(_, _, _) => n,
    }
}

// The build of at most ROWS rows, in working arrays of its own: a table of eight cells a row, and two words of days a row.
fn build_within<const ROWS: usize, const CELLS: usize, const DAYS: usize>(
    rows: [Row; 1024],
    n: usize,
    placement: Placement,
    start: Start,
    list: &[u32],
    index: &mut [u32],
    totals: &mut [i64],
    days: &mut [u32],
) -> Result<Counts, Refusal>
    requires sizes { (n ≤ ROWS) × (ROWS ≤ 1024) × (8 * ROWS ≤ CELLS) × (CELLS ≤ 8192) × (2 * ROWS ≤ DAYS) × (DAYS ≤ 2048) }
    requires rows_placeable { Placeable placement × WithNumerals (take n rows) }
    ensures { RowsPlaced placement (take n rows) (start_rule start list.now) index.old index.new totals.old totals.new days.old days.new (built result) }
{
    let mut table = [0u32; CELLS];
    let mut minutes = [0i32; ROWS];
    let mut keys = [0u64; ROWS];
    let mut fields = [0u64; ROWS];
    let mut scratch = [0u64; ROWS];
    let mut spans = [0u32; DAYS];
    let m = 8 * n;
    let dated = dated_rows(placement, n);
    let d = 2 * dated;
    ordering::read_rows(
        rows,
        dated,
        &mut minutes[..n],
        &mut keys[..n],
        &mut fields[..n],
        &mut spans[..d],
    );
    links::prepare(
        start,
        list,
        &mut table[..m],
        &mut keys[..n],
        &mut fields[..n],
        &mut scratch[..n],
    );
    let mut reached = [0u32; ROWS];
    let mut marks = [0u32; ROWS];
    place_nodes(
        placement,
        &minutes[..n],
        &spans[..d],
        &mut table[..m],
        &mut reached[..n],
        &mut marks[..n],
        index,
        totals,
        days,
    )
}

// The build of n rows. Clearing working arrays for 1,024 rows would be most of the time of a build of few.
pub fn build_rows(
    rows: [Row; 1024],
    n: usize,
    placement: Placement,
    start: Start,
    list: &[u32],
    index: &mut [u32],
    totals: &mut [i64],
    days: &mut [u32],
) -> Result<Counts, Refusal>
    requires { (n ≤ 1024) × Placeable placement × WithNumerals (take n rows) }
    ensures { RowsPlaced placement (take n rows) (start_rule start list.now) index.old index.new totals.old totals.new days.old days.new (built result) }
{
    if n <= 64 {
        return build_within::<64, 512, 128>(rows, n, placement, start, list, index, totals, days);
    }
    build_within::<1024, 8192, 2048>(rows, n, placement, start, list, index, totals, days)
}
