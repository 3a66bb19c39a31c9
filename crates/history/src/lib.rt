// Calls on a board in order, from the empty board, told by words, seven to a call.
#![tactic(auto)]

ghost use Rattle.std.specs.Prelude.{◌≡◌, ◌*◌, ◌/◌, ◌≤◌, length, MatchResult};
ghost use Rattle.lists.specs.Lists.{front};
ghost use Rattle.board.specs.Edits.{empty_of};
ghost use Rattle.machine.specs.Calls.{edits, final};
ghost use Rattle.history.specs.Encoding.{call_of, call_at, first_calls, all_known, replay_refusal, replayed_of, refusals_of};
ghost use Rattle.history.specs.ReplayNumbers.{number_of};

use board::Board;
use rows::{Call, Days, Row};

// The last of the kinds of calls, which are numbered from 0.
const LAST_KIND: u32 = 4;

// What `replay` answers: its own refusal number (101 to 103), or 0, the number of calls and the board after them. It goes to C by value.
#[repr(C)]
#[derive(Clone, Copy)]
pub struct Replayed {
    pub refusal: u32,
    pub calls: usize,
    pub board: Board,
}

// Why the words are refused: the replay's own reasons, each with its number.
#[derive(Clone, Copy, Debug, PartialEq, Eq)]
pub enum ReplayRefusal {
    // They are no whole number of calls.
    PartOfCall = 101,
    // A call is of no known kind.
    UnknownCall = 102,
    // There is less than one lent word for each call's refusal number.
    FewWords = 103,
}

impl ReplayRefusal {
    // The number that C knows it by.
    pub fn number(self) -> u32
        ensures { result ≡ number_of self }
    {
        self as u32
    }
}

// The call of these seven words; those that a call doesn't use are ignored.
#[tactic(auto, unfolding(crate::specs::Encoding::call_of))]
fn decode(kind: u32, a: u32, b: u32, c: u32, d: u32, e: u32, f: u32) -> Call
    ensures { result ≡ call_of kind a b c d e f }
{
    match kind {
        0 => Call::Add(Row {
            parent: a,
            numeral: b,
            order: c,
            minutes: d.cast_signed(),
            days: Days { first: e, last: f },
        }),
        1 => Call::Withdraw(a as usize),
        2 => Call::Remark(a as usize, b.cast_signed()),
        3 => Call::Undo,
        _ => Call::Redo,
    }
}

// Call i of the words.
#[tactic(auto, unfolding(crate::specs::Encoding::call_at))]
fn call_at(words: &[u32], i: usize) -> Call
    requires { i * 7 ≤ length words.now }
    ensures { result ≡ call_at words.now i }
{
    let at = i * 7;
    decode(
        lists::get(words, at),
        lists::get(words, at + 1),
        lists::get(words, at + 2),
        lists::get(words, at + 3),
        lists::get(words, at + 4),
        lists::get(words, at + 5),
        lists::get(words, at + 6),
    )
}

// Whether each of the first n calls has a known kind.
fn known(words: &[u32], n: usize) -> bool
    requires { n * 7 ≤ length words.now }
    ensures { result ≡ all_known words.now n }
{
    for i in 0..n {
        if LAST_KIND < lists::get(words, i * 7) {
            return false;
        }
    }
    true
}

// How many calls there are, or why the words are refused.
#[tactic(auto, unfolding(crate::specs::Encoding::replay_refusal))]
fn judged(words: &[u32], room: usize) -> Result<usize, ReplayRefusal>
    ensures { MatchResult result (λ calls. (replay_refusal words.now room ≡ 0) × (calls ≡ length words.now / 7)) (λ r. number_of r ≡ replay_refusal words.now room) }
{
    if words.len() % 7 != 0 {
        return Err(ReplayRefusal::PartOfCall);
    }
    let calls = words.len() / 7;
    if !known(words, calls) {
        return Err(ReplayRefusal::UnknownCall);
    }
    if room < calls {
        return Err(ReplayRefusal::FewWords);
    }
    Ok(calls)
}

// The board after the first n calls; the refusal number of each goes to the lent words.
fn run(words: &[u32], n: usize, refusals: &mut [u32]) -> Board
    requires { (n * 7 ≤ length words.now) × (n ≤ length refusals.old) }
    ensures value { result ≡ final empty_of (first_calls words.now n) }
    ensures refusals_after { refusals.new ≡ front (edits empty_of (first_calls words.now n)) refusals.old }
{
    let mut board = Board::EMPTY;
    for i in 0..n {
        let edited = board.edit(call_at(words, i));
        refusals[i] = edited.refusal;
        board = edited.board;
    }
    board
}

// Runs the calls that the words tell, in order, from the empty board.
pub fn replay(words: &[u32], refusals: &mut [u32]) -> Replayed
    ensures value { result ≡ replayed_of words.now (length refusals.old) }
    ensures refusals_after { refusals.new ≡ refusals_of words.now refusals.old }
{
    let calls = match judged(words, refusals.len()) {
        Ok(calls) => calls,
        Err(refusal) => {
            return Replayed {
                refusal: refusal.number(),
                calls: 0,
                board: Board::EMPTY,
            };
        }
    };
    let board = run(words, calls, refusals);
    Replayed {
        refusal: 0,
        calls,
        board,
    }
}
