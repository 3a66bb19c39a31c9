// Links to first children cut, over the positions of a table of rows in sibling order: those to rows that are flagged, or those of the classes of rows that were met.
#![tactic(auto)]

ghost use Rattle.std.specs.Prelude.{◌+◌, ◌*◌, ◌≤◌, ◌<◌, length};
ghost use Rattle.table.specs.TableLayer.{row_column, child_column};
ghost use Rattle.passes.specs.PassesLayer.{Named, RowsOnce};
ghost use Rattle.cuts.specs.CutLayer.{Cut};
ghost use Rattle.cuts.specs.ChainLayer.{PositionsByRow, Unchained, ChainsMade, LinksCut, Cuttable, ClassOf, RowMet};

// A word w at i of the column of parent positions holds three numbers: w % LATER is the position of row number i + 1, w / LATER % 2048 the next position with the class of position i,
// w / FIRST the first position of class i. The last two are the number of rows where there is none.
pub const LATER: u32 = 1024;

pub const FIRST: u32 = 2097152;

// Cuts the links to first children whose rows are flagged.
pub fn cut_children(table: &mut [u32], reached: &[u32])
    requires { RowsOnce (row_column table.old) (length reached.now) × (length (row_column table.old) ≤ 1024) }
    ensures { Cut reached.now table.old table.new }
{
    let n = table::rows(table) as u32;
    for p in 0..n {
        let q = table::word(table, p, table::CHILD);
        if n <= q {
            continue;
        }
        let x = table::word(table, q, table::ROW) as usize;
        let unflagged = reached[x - 1] == 0;
        if unflagged {
            continue;
        }
        table::set_child(table, p, n);
    }
}

// The position of each row, by row number, in the column of parent positions. No class has a first position yet.
pub fn positions_by_row(table: &mut [u32])
    requires { RowsOnce (row_column table.old) (length (row_column table.old)) × (length (row_column table.old) ≤ 1024) }
    ensures { PositionsByRow table.old table.new }
{
    let n = table::rows(table) as u32;
    let none = n * FIRST;
    for p in 0..n {
        let x = table::word(table, p, table::ROW);
        table::store(table, x - 1, table::PARENT_POSITION, none + p);
    }
}

// Chains the positions of each class, the lowest first.
pub fn chain_classes(table: &mut [u32])
    requires { Unchained table.old }
    ensures { ChainsMade table.old table.new }
{
    for p in (0..table::rows(table) as u32).rev() {
        let c = table::word(table, p, table::CLASS);
        let first = table::word(table, c, table::PARENT_POSITION) / FIRST;
        let w = table::word(table, p, table::PARENT_POSITION);
        table::store(
            table,
            p,
            table::PARENT_POSITION,
            w % LATER + first * LATER + w / FIRST * FIRST,
        );
        let v = table::word(table, c, table::PARENT_POSITION);
        table::store(table, c, table::PARENT_POSITION, v % FIRST + p * FIRST);
    }
}

// Cuts the links to the first children of all positions with the class of p. Where p has no child, none of them has.
pub fn cut_class(p: u32, table: &mut [u32])
    requires { Cuttable table.old × (p < length (child_column table.old)) }
    ensures { LinksCut (ClassOf table.old p) table.old table.new }
{
    let n = table::rows(table) as u32;
    if n <= table::word(table, p, table::CHILD) {
        return;
    }
    let c = table::word(table, p, table::CLASS);
    let mut q = table::word(table, c, table::PARENT_POSITION) / FIRST;
    while q < n {
        table::set_child(table, q, n);
        q = table::word(table, q, table::PARENT_POSITION) / LATER % 2048;
    }
}

// Cuts the links to the first children of all positions with the class of a row of the ranks after `from` to n.
pub fn cut_rows(from: u32, n: u32, table: &mut [u32], index: &[u32])
    requires { Cuttable table.old × Named index.now from n (length (child_column table.old)) × (from ≤ n) × (n ≤ 65535) × (8 + 6 * n ≤ length index.now) }
    ensures { LinksCut (RowMet table.old index.now from n) table.old table.new }
{
    for k in from..n {
        let x = index[image::bodies_end(k) + 1];
        let q = table::word(table, x - 1, table::PARENT_POSITION) % LATER;
        cut_class(q, table);
    }
}
