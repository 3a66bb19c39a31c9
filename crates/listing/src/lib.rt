// The listing program as a library: the bytes of its input become the rows of a board, and the words of an index become the columns of its nodes.
#![tactic(auto)]

ghost use Rattle.std.specs.Prelude.{◌≡◌};
ghost use Rattle.listing.specs.Nodes.{columns_of};
ghost use Rattle.listing.specs.Loading.{start_of, enter_of, is_bad, feed_of, end_of};

use board::Board;
use lines::{BadLine, Found, Scan, Values};
use printing::Columns;

// What is wrong with an input: a line that is no row, or a row that the board refuses, with the number that the edit answers.
#[derive(Clone, Copy)]
pub enum Wrong {
    BadLine,
    Refused(u32),
}

// How far the input has been read: the first thing that is wrong with it, the number of the line that is being read,
// the scan of that line, and the rows so far.
#[derive(Clone, Copy)]
pub struct Load {
    pub wrong: Option<Wrong>,
    pub line: u64,
    pub scan: Scan,
    pub board: Board,
}

impl Load {
    pub fn start() -> Load
        ensures { result ≡ start_of }
    {
        Load {
            wrong: None,
            line: 1,
            scan: Scan::new(),
            board: Board::empty(),
        }
    }

    // The line that is being read is a row. In place, so that the board isn't copied to the call and back as well.
    fn enter(&mut self, values: Values)
        ensures { self.new ≡ enter_of self.old values }
    {
        let row = rows::undated_row(values.parent, values.numeral, values.order, values.minutes);
        let edited = self.board.add(row);
        self.wrong = match edited.refusal {
            0 => None,
            refusal => Some(Wrong::Refused(refusal)),
        };
        self.line = self.line % 4294967296 + 1;
        self.scan = Scan::new();
        self.board = edited.board;
    }

    // The line that is being read is no row.
    fn bad_line(self) -> Load
        ensures { result ≡ is_bad self }
    {
        Load {
            wrong: Some(Wrong::BadLine),
            scan: Scan::new(),
            ..self
        }
    }

    // The input has ended; its last newline may be missing.
    #[tactic(auto, unfolding(crate::specs::Loading::end_of))]
    pub fn end(self) -> Load
        ensures { result ≡ end_of self }
    {
        let scan = self.scan;
        if self.wrong.is_some() || scan.blank() {
            return self;
        }
        match scan.finish() {
            Ok(values) => {
                let mut now = self;
                now.enter(values);
                now
            }
            Err(BadLine) => self.bad_line(),
        }
    }
}

// Goes on with the bytes of a chunk, a line at each turn.
#[tactic(auto, using(crate::proofs::Turns::feed_turn, crate::proofs::Turns::feed_over, crate::proofs::Turns::feed_still))]
pub fn feed(load: Load, chunk: &[u8]) -> Load
    ensures { result ≡ feed_of load chunk.now }
{
    let mut now = load;
    let mut at = 0;
    while at < chunk.len() && now.wrong.is_none() {
        let scan = now.scan;
        match lines::next(chunk, at, scan) {
            Ok(Found::Row(values, next)) => {
                at = next;
                now.enter(values);
            }
            Ok(Found::More(more)) => {
                now.scan = more;
                return now;
            }
            Err(BadLine) => return now.bad_line(),
        }
    }
    now
}

// What is printed of the node of a rank.
pub fn columns(index: &[u32], totals: &[i64], rank: u32) -> Columns
    ensures { result ≡ columns_of index.now totals.now rank }
{
    let at = rank as usize;
    let word = image::word_at(index, at);
    Columns {
        rank,
        size: image::size_at(index, at),
        parent: image::parent_at(index, at),
        level: packed::level_of(word),
        root: image::root_at(index, at),
        closing: packed::closing_of(word),
        orphan: packed::orphan_of(word),
        numeral: image::numeral_at(index, at),
        sum: sums::subtree_sum(index, totals, rank).unwrap_or(0),
    }
}
