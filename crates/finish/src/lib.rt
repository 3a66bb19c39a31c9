// What is left to do once the bodies of all nodes stand in the index: its table of contents, refusals 10 to 12, the rows left over, the running totals.
#![tactic(auto)]

ghost use Rattle.std.specs.Prelude.{◌≡◌, not, ◌&&◌, List, map, ℕ, ◌≤◌, ◌<◌, eqb, length};
ghost use Rattle.rows.specs.declared.Row.{Row};
ghost use Rattle.image.specs.declared.Body.{Body};
ghost use Rattle.passes.specs.PassesLayer.{Named, rows_to, any_closing};
ghost use Rattle.nodes.specs.Refusals.{refusal11};
ghost use Rattle.table.specs.TableLayer.{row_column, class_column};
ghost use Rattle.built.specs.Answered.{built};
ghost use Rattle.finish.specs.FinishLayer.{NodesWritten, Classes, AnyNodesWritten, NodesHeld, AnyNodesHeld, left_over, left_count, Finished};

use built::Counts;
use options::Choice;
use refusal::Refusal;
use walk::Progress;

// Whether a node closes and that is refused.
fn is_closed(cycle: u32, index: &[u32], n: usize) -> bool
    requires { n ≤ 65535 }
    ensures { result ≡ (eqb cycle 1 && any_closing index.now n) }
{
    cycle == 1 && passes::any_closing(index, n)
}

// Whether nodes share a numeral in a way that is refused. Classes and counts go into the table's columns of links, which nothing reads after the walk.
fn is_shared(multi: u32, index: &[u32], n: usize, table: &mut [u32]) -> bool
    requires { AnyNodesHeld table.old index.now n }
    ensures { (R : List Row) (bs : List Body) → NodesHeld R bs index.now n → Classes R (row_column table.old) (class_column table.old) → result ≡ refusal11 multi bs }
{
    if multi == 0 || 2 < multi || n == 0 {
        return false;
    }
    if passes::any_entry(index, n) {
        return true;
    }
    passes::classes_by_row(table);
    passes::clear_counts(table);
    passes::count_classes(index, n, table);
    passes::any_shared(index, n, table, multi == 1)
}

// How many rows end no node. Under adopt and root no row is left over.
fn count_left(orphan: u32, n: usize, index: &[u32], reached: &mut [u32]) -> u32
    requires { (n ≤ 65535) × (orphan ≤ 1 → Named index.now 0 n (length reached.old)) × (length reached.old ≤ 1024) }
    ensures { result ≡ left_count orphan (rows_to index.now n) (length reached.old) }
{
    let all_end_nodes = 1 < orphan;
    if all_end_nodes {
        return 0;
    }
    reached.fill(0);
    passes::mark_rows(index, 0, n, reached);
    passes::count_clear(reached) as u32
}

// Whether rows are left over and that is refused.
fn is_left(orphan: u32, left: u32) -> bool
    ensures { result ≡ (eqb orphan 1 && not (eqb left 0)) }
{
    orphan == 1 && left != 0
}

// Finishes a build whose bodies are written. Where it is refused, the index and the totals may hold anything.
pub fn finish(
    choice: Choice,
    progress: Progress,
    minutes: &[i32],
    table: &mut [u32],
    reached: &mut [u32],
    index: &mut [u32],
    totals: &mut [i64],
) -> Result<Counts, Refusal>
    requires any_nodes_written { AnyNodesWritten choice.orphan table.old minutes.now index.old progress }
    requires reached_len { (length reached.old ≡ length (row_column table.old)) × (progress.count < length totals.old) }
    ensures { (R : List Row) (bs : List Body) (before : List ℕ) → NodesWritten R choice.orphan bs before index.old progress → (1 < choice.orphan → left_over R bs ≡ 0) → Classes R (row_column table.old) (class_column table.old) → minutes.now ≡ map (λ (r : Row). r.minutes) R → Finished R choice bs before index.new totals.old totals.new (built result) }
{
    let n = progress.count as usize;
    image::write_contents(index, progress.count, progress.check);
    if is_closed(choice.cycle, index, n) {
        return Err(Refusal::ClosingNode);
    }
    if is_shared(choice.multi, index, n, table) {
        return Err(Refusal::SharedNumeral);
    }
    let left = count_left(choice.orphan, n, index, reached);
    if is_left(choice.orphan, left) {
        return Err(Refusal::UnreachedRow);
    }
    passes::fill_totals(index, n, minutes, totals);
    Ok(Counts {
        nodes: progress.count,
        left: left,
    })
}
