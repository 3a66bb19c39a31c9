// Rows of a parts list, the entries that change them, and when both make a sound board, by numbers. Row numbers are counted from 1, places from 0.
#![tactic(auto)]

ghost use Rattle.std.specs.Prelude.{◌≡◌, cond, eqb};
ghost use Rattle.rows.specs.Journal.{blank, remarked, undated};
ghost use Rattle.rows.specs.KindLayer.{KindOf};
ghost use Rattle.rows.specs.SoundLayer.{can_do, none_or, sound_by};

// The days from the first to the last, both included; none where the first is after the last.
#[repr(C)]
#[derive(Clone, Copy, Debug, Default, PartialEq, Eq)]
pub struct Days {
    pub first: u32,
    pub last: u32,
}

// A row of the parts list: parent 0 is none, minutes below 0 are a deduction.
#[repr(C)]
#[derive(Clone, Copy, Debug, Default, PartialEq, Eq)]
pub struct Row {
    pub parent: u32,
    pub numeral: u32,
    pub order: u32,
    pub minutes: i32,
    pub days: Days,
}

// What an entry does to the rows: it takes out the row at its place, puts its row in there, or sets the place to its row.
#[derive(Clone, Copy, Debug, PartialEq, Eq)]
pub enum Kind {
    TakeOut = 0,
    PutIn = 1,
    Set = 2,
}

// A number that stands for no kind.
#[derive(Clone, Copy, Debug, PartialEq, Eq)]
pub struct UnknownKind(pub u32);

impl TryFrom<u32> for Kind {
    type Error = UnknownKind;

    ghost try_from_gives = { KindOf };

    fn try_from(number: u32) -> Result<Self, UnknownKind> {
        match number {
            0 => Ok(Kind::TakeOut),
            1 => Ok(Kind::PutIn),
            2 => Ok(Kind::Set),
            _ => Err(UnknownKind(number)),
        }
    }
}

// An operation on the rows. Its kind is a number, since a board comes by value from C, with any words in its journal.
#[repr(C)]
#[derive(Clone, Copy, Debug, Default, PartialEq, Eq)]
pub struct Entry {
    pub kind: u32,
    pub at: u32,
    pub row: Row,
}

// An edit as a value.
#[derive(Clone, Copy, Debug, PartialEq, Eq)]
pub enum Call {
    Add(Row),
    Withdraw(usize),
    Remark(usize, i32),
    Undo,
    Redo,
}

// The row with other minutes.
pub fn with_minutes(row: Row, minutes: i32) -> Row
    ensures { result ≡ remarked row minutes }
{
    Row { minutes, ..row }
}

// A row entered without days: all days are its days.
pub fn undated_row(parent: u32, numeral: u32, order: u32, minutes: i32) -> Row
    ensures { result ≡ undated parent numeral order minutes }
{
    Row {
        parent,
        numeral,
        order,
        minutes,
        days: Days {
            first: 0,
            last: u32::MAX,
        },
    }
}

// A row of no numbers.
pub fn blank_row() -> Row
    ensures { result ≡ blank }
{
    Row::default()
}

pub fn entry_of(kind: u32, at: u32, row: Row) -> Entry
    ensures { result ≡ record { kind = kind; at = at; row = row } }
{
    Entry { kind, at, row }
}

// The inverse of an entry, `old` being the row at its place.
pub fn inverse_of(kind: u32, at: u32, row: Row, old: Row) -> Entry
    ensures { result ≡ cond (eqb kind 0) (record { kind = 1; at = at; row = old }) (cond (eqb kind 1) (record { kind = 0; at = at; row = row }) (record { kind = 2; at = at; row = old })) }
{
    match Kind::try_from(kind) {
        Ok(Kind::TakeOut) => entry_of(Kind::PutIn as u32, at, old),
        Ok(Kind::PutIn) => entry_of(Kind::TakeOut as u32, at, row),
        Ok(Kind::Set) | Err(_) => entry_of(Kind::Set as u32, at, old),
    }
}

// Whether an entry can be carried out on n rows with numerals of 1 or more.
#[tactic(auto, unfolding(crate::specs::SoundLayer::can_do))]
fn can_do(e: Entry, n: usize) -> bool
    ensures { result ≡ can_do e n }
{
    let at = e.at as usize;
    match Kind::try_from(e.kind) {
        Ok(Kind::TakeOut) => at < n,
        Ok(Kind::PutIn) => e.row.numeral != 0 && n < 1024 && at <= n,
        Ok(Kind::Set) => e.row.numeral != 0 && at < n,
        Err(_) => false,
    }
}

// The same, if there are entries of its sort.
fn none_or(many: usize, e: Entry, n: usize) -> bool
    ensures { result ≡ none_or many e n }
{
    many == 0 || can_do(e, n)
}

// Whether a board is sound, by its numbers, its newest entries and whether all its rows have numerals of 1 or more.
#[tactic(auto, unfolding(crate::specs::SoundLayer::sound_by))]
pub fn sound_by(
    count: usize,
    kept: usize,
    undone: usize,
    numbered: bool,
    newest: Entry,
    next: Entry,
) -> bool
    ensures { result ≡ sound_by count kept undone numbered newest next }
{
    count <= 1024
        && kept <= 256
        && undone <= 256
        && numbered
        && none_or(kept, newest, count)
        && none_or(undone, next, count)
}
