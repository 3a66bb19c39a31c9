// The rows outside the regular paths, over the positions of a table of rows in sibling order: they are linked among themselves, and the top orphans are flagged.
#![tactic(auto)]

ghost use Rattle.std.specs.Prelude.{◌≡◌, List, ℕ, ◌+◌, ◌≤◌, ◌<◌, length};
ghost use Rattle.table.specs.TableLayer.{row_column, flag_column};
ghost use Rattle.orphans.specs.OutsideLayer.{outside_at, last_flag, Linkable, LinkedFrom, ChildrenCleared, ChildrenShared, OutsideLinked};

// Whether the row at a position ends no regular path.
fn is_outside(table: &[u32], reached: &[u32], p: u32) -> bool
    ensures { result ≡ outside_at (row_column table.now) reached.now p }
{
    let x = table::row(table, p) as usize;
    lists::get(reached, x.saturating_sub(1)) == 0
}

// No row has a first child.
fn clear_children(table: &mut [u32])
    requires { length (row_column table.old) ≤ 1024 }
    ensures { ChildrenCleared table.old table.new }
{
    let n = table::rows(table) as u32;
    for p in 0..n {
        table::set_child(table, p, n);
    }
}

// Takes the row at k, after all later ones: where it is outside it is flagged as a top orphan, or is put before the later rows of its parent, at the first position with the parent's numeral.
// No numeral is 0, so a parent of 0 has no position.
fn link_row(k: u32, table: &mut [u32], reached: &[u32])
    requires { k < length (row_column table.old) }
    ensures { (t : List ℕ) → LinkedFrom reached.now t table.old (k + 1) → LinkedFrom reached.now t table.new k }
{
    if !is_outside(table, reached, k) {
        table::set_flag(table, k, 0);
        return;
    }
    let above = table::parent_position(table, k);
    if table::rows(table) <= above as usize {
        table::set_flag(table, k, 1);
        return;
    }
    let later = table::child(table, above);
    table::set_flag(table, k, 0);
    table::set_next(table, k, later);
    table::set_child(table, above, k);
}

// Links all rows, from the last to the first.
fn link_rows(table: &mut [u32], reached: &[u32])
    requires { length (row_column table.old) ≤ 1024 }
    ensures { (t : List ℕ) → LinkedFrom reached.now t table.old (length (row_column table.old)) → LinkedFrom reached.now t table.new 0 }
{
    for k in (0..table::rows(table) as u32).rev() {
        link_row(k, table, reached);
    }
}

// Each row has the first child of the first row with its numeral.
fn share_children(table: &mut [u32])
    requires { Linkable table.old }
    ensures { ChildrenShared table.old table.new }
{
    let n = table::rows(table) as u32;
    for p in 0..n {
        let c = table::class(table, p);
        let first = table::child(table, c);
        table::set_child(table, p, first);
    }
}

// Links the rows outside the regular paths by the positions of their parents, and flags the top orphans among them with 1, the other rows with 0.
pub fn link_outside(table: &mut [u32], reached: &[u32])
    requires { Linkable table.old }
    ensures { OutsideLinked reached.now table.old table.new }
{
    clear_children(table);
    link_rows(table, reached);
    share_children(table);
}

// The last flagged position, or the number of rows where none is.
#[tactic(auto, unfolding(crate::specs::OutsideLayer::last_flag), using(crate::specs::OutsideLaws::last_here))]
pub fn last_flag(table: &[u32]) -> u32
    requires { length (flag_column table.now) ≤ 1024 }
    ensures { result ≡ last_flag (flag_column table.now) }
{
    let n = table::rows(table) as u32;
    for k in (0..n).rev() {
        if table::flag(table, k) == 1 {
            return k;
        }
    }
    n
}
