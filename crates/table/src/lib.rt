// Rows by position in one lent table, eight words a row: read and written by position and column.
#![tactic(auto)]

ghost use Rattle.std.specs.Prelude.{◌≡◌, ℕ, ◌<◌, length, get_or};
ghost use Rattle.table.specs.TableLayer.{column, Stored, row_column, parent_column, numeral_column, child_column, next_column, class_column, parent_position_column, flag_column};

// The columns are numbers, and no enum: the contracts of `cell`, `word` and `store`, which may not change, count them.
pub const ROW: usize = 0;

pub const PARENT: usize = 1;

pub const NUMERAL: usize = 2;

pub const CHILD: usize = 3;

pub const NEXT: usize = 4;

pub const CLASS: usize = 5;

pub const PARENT_POSITION: usize = 6;

pub const FLAG: usize = 7;

// How many rows a table has.
#[tactic(auto, using(crate::specs::TableLaws::column_length))]
pub fn rows(table: &[u32]) -> usize
    ensures { (k : ℕ) → result ≡ length (column k table.now) }
{
    table.len() / 8
}

// The word at position p of a column, 0 past the last row.
#[tactic(auto, using(crate::specs::TableLaws::column_past))]
pub fn cell(table: &[u32], p: u32, k: usize) -> u32
    requires { k < 8 }
    ensures { result ≡ get_or (column k table.now) p 0 }
{
    if (p as usize) < rows(table) {
        word(table, p, k)
    } else {
        0
    }
}

// The word at position p of a column, for loops that know where they are.
#[tactic(auto, using(crate::specs::TableLaws::column_length, crate::specs::TableLaws::column_at))]
pub fn word(table: &[u32], p: u32, k: usize) -> u32
    requires { (k < 8) × (p < length (column k table.now)) }
    ensures { result ≡ get_or (column k table.now) p 0 }
{
    table[8 * p as usize + k]
}

// Stores a word at position p of a column.
#[tactic(auto, using(crate::specs::TableLaws::column_length))]
pub fn store(table: &mut [u32], p: u32, k: usize, v: u32)
    requires { (k < 8) × (p < length (column k table.old)) }
    ensures { Stored k p v table.old table.new }
{
    table[8 * p as usize + k] = v;
}

// The functions from here on are `cell` and `store` at one column, under its name: the contracts that other crates cite name the columns and may not change.
pub fn row(table: &[u32], p: u32) -> u32
    ensures { result ≡ get_or (row_column table.now) p 0 }
{
    cell(table, p, ROW)
}

pub fn numeral(table: &[u32], p: u32) -> u32
    ensures { result ≡ get_or (numeral_column table.now) p 0 }
{
    cell(table, p, NUMERAL)
}

// The position of the first child, or any past the last row.
pub fn child(table: &[u32], p: u32) -> u32
    ensures { result ≡ get_or (child_column table.now) p 0 }
{
    cell(table, p, CHILD)
}

// The position of the next sibling, or any past the last row.
pub fn next(table: &[u32], p: u32) -> u32
    ensures { result ≡ get_or (next_column table.now) p 0 }
{
    cell(table, p, NEXT)
}

// The class of equal numerals.
pub fn class(table: &[u32], p: u32) -> u32
    ensures { result ≡ get_or (class_column table.now) p 0 }
{
    cell(table, p, CLASS)
}

// The position of the first row whose numeral is the parent, or any past the last row.
pub fn parent_position(table: &[u32], p: u32) -> u32
    ensures { result ≡ get_or (parent_position_column table.now) p 0 }
{
    cell(table, p, PARENT_POSITION)
}

pub fn flag(table: &[u32], p: u32) -> u32
    ensures { result ≡ get_or (flag_column table.now) p 0 }
{
    cell(table, p, FLAG)
}

pub fn set_row(table: &mut [u32], p: u32, v: u32)
    requires { p < length (row_column table.old) }
    ensures { Stored 0 p v table.old table.new }
{
    store(table, p, ROW, v);
}

pub fn set_parent(table: &mut [u32], p: u32, v: u32)
    requires { p < length (parent_column table.old) }
    ensures { Stored 1 p v table.old table.new }
{
    store(table, p, PARENT, v);
}

pub fn set_numeral(table: &mut [u32], p: u32, v: u32)
    requires { p < length (numeral_column table.old) }
    ensures { Stored 2 p v table.old table.new }
{
    store(table, p, NUMERAL, v);
}

pub fn set_child(table: &mut [u32], p: u32, v: u32)
    requires { p < length (child_column table.old) }
    ensures { Stored 3 p v table.old table.new }
{
    store(table, p, CHILD, v);
}

pub fn set_next(table: &mut [u32], p: u32, v: u32)
    requires { p < length (next_column table.old) }
    ensures { Stored 4 p v table.old table.new }
{
    store(table, p, NEXT, v);
}

pub fn set_flag(table: &mut [u32], p: u32, v: u32)
    requires { p < length (flag_column table.old) }
    ensures { Stored 7 p v table.old table.new }
{
    store(table, p, FLAG, v);
}
