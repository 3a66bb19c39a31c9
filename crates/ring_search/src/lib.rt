// The search for a ring: whether the numeral of a row can be reached from itself by linked rows, over the positions of a table of rows in sibling order.
#![tactic(auto)]

ghost use Rattle.std.specs.Prelude.{ℕ, ◌≤◌, ◌<◌, length, get_or};
ghost use Rattle.table.specs.TableLayer.{child_column, flag_column};
ghost use Rattle.walk.specs.WalkLayer.{Walkable, rows_of};
ghost use Rattle.ring_search.specs.SearchLayer.{Stamped, SearchIn, Turned, Answered};

// Stamps the classes of the children of the position at the queue's head, and puts those children at its end that bring a new class: the new tail, or none where a child has the class of p.
// The queue stands in the column of parents, the stamps by class in the column of flags.
fn turn(p: u32, head: u32, tail: u32, stamp: u32, table: &mut [u32]) -> Option<u32>
    requires walkable { Walkable (rows_of table.old) (length (flag_column table.old)) × (length (flag_column table.old) ≤ 1024) × (head < tail) }
    requires search_in { SearchIn table.old p stamp table.old head tail × Stamped (flag_column table.old) stamp }
    ensures { Turned table.old p stamp head table.new result }
{
    let n = table::rows(table) as u32;
    let target = table::class(table, p);
    let a = table::word(table, head, table::PARENT);
    let mut q = table::child(table, a);
    let mut after = tail;
    while q < n {
        let c = table::word(table, q, table::CLASS);
        if c == target {
            return None;
        }
        if table::word(table, c, table::FLAG) == stamp {
            q = table::word(table, q, table::NEXT);
            continue;
        }
        table::set_flag(table, c, stamp);
        table::set_parent(table, after, q);
        after += 1;
        q = table::word(table, q, table::NEXT);
    }
    Some(after)
}

// Whether the numeral of the row at p can be reached from itself by the linked rows: a search breadth first. All flags are below `stamp` before, and none is above it after.
pub fn is_ringed(p: u32, stamp: u32, table: &mut [u32]) -> bool
    requires walkable { Walkable (rows_of table.old) (length (flag_column table.old)) × (length (flag_column table.old) ≤ 1024) × (p < length (child_column table.old)) }
    requires by_index { (c : ℕ) → get_or (flag_column table.old) c 0 < stamp }
    ensures { Answered table.old p stamp table.new result }
{
    table::set_parent(table, 0, p);
    let mut head = 0;
    let mut tail = 1;
    while head < tail {
        let Some(after) = turn(p, head, tail, stamp, table) else {
            return true;
        };
        tail = after;
        head += 1;
    }
    false
}
