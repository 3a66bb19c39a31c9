// Demand 3 run whole: a list of calls from the empty board, a build on the board they leave, and the navigation on that build. The theorem is in `guarantee`, specs/Guarantee.antt.
#![tactic(auto)]

ghost use Rattle.std.specs.Prelude.{◌≡◌, length};
ghost use Rattle.history.specs.Encoding.{decoded, replayed_of, refusals_of};
ghost use Rattle.request.specs.Build.{start_rule};
ghost use Rattle.whole_replay.specs.Running.{not_replayed, replay_all_answer, index_left, totals_left, days_left, out_left, Demand3};

use build::Asked;
use built::Built;
use navigate::Listed;
use request::Start;
use sums::Summed;

// What is to be built: all paths, the shortest, or those with days left in a window, and the start rule.
#[derive(Clone, Copy)]
pub struct BuildOptions {
    pub asked: Asked,
    pub start: Start,
}

// What is asked of the index: a rank, and the limits of the distance of its descendants.
#[derive(Clone, Copy)]
pub struct Question {
    pub rank: u32,
    pub lower: i32,
    pub upper: i32,
}

// What `replay_all` answers, in numbers and flat, as demand 3 speaks of it: the replay's own refusal number (101 to 103), or 0, the number of calls, the numbers of the board's kept steps, undone steps and rows after them, and the answers of the build, the descendants and the subtree sum.
#[repr(C)]
#[derive(Clone, Copy)]
pub struct ReplayedAll {
    pub replayed: u32,
    pub calls: usize,
    pub kept: usize,
    pub undone: usize,
    pub count: usize,
    pub built: Built,
    pub listed: Listed,
    pub summed: Summed,
}

// What `replay_all` answers to words that the replay refuses: nothing was built or asked, and each part bears the replay's number.
fn not_replayed(replayed: u32) -> ReplayedAll
    ensures { result ≡ not_replayed replayed }
{
    ReplayedAll {
        replayed,
        calls: 0,
        kept: 0,
        undone: 0,
        count: 0,
        built: Built {
            refusal: replayed,
            nodes: 0,
            left: 0,
        },
        listed: Listed {
            refusal: replayed,
            len: 0,
        },
        summed: Summed {
            refusal: replayed,
            sum: 0,
        },
    }
}

// Runs the calls that the words tell from the empty board, builds the board they leave, and asks for the descendants and the subtree sum of a rank. Where the replay is refused nothing is built or
// asked, and all slices stay as they were.
pub fn replay_all(
    words: &[u32],
    refusals: &mut [u32],
    options: BuildOptions,
    list: &[u32],
    index: &mut [u32],
    totals: &mut [i64],
    days: &mut [u32],
    question: Question,
    out: &mut [u32],
) -> ReplayedAll
    ensures value { result ≡ replay_all_answer (replayed_of words.now (length refusals.old)) options.asked (start_rule options.start list.now) index.old totals.old days.old question.rank question.lower question.upper out.old }
    ensures refusals_after { refusals.new ≡ refusals_of words.now refusals.old }
    ensures index_after { index.new ≡ index_left (replayed_of words.now (length refusals.old)) options.asked (start_rule options.start list.now) index.old totals.old days.old }
    ensures totals_after { totals.new ≡ totals_left (replayed_of words.now (length refusals.old)) options.asked (start_rule options.start list.now) index.old totals.old days.old }
    ensures days_after { days.new ≡ days_left (replayed_of words.now (length refusals.old)) options.asked (start_rule options.start list.now) index.old totals.old days.old }
    ensures out_after { out.new ≡ out_left (replayed_of words.now (length refusals.old)) options.asked (start_rule options.start list.now) index.old totals.old days.old question.rank question.lower question.upper out.old }
    ensures demand3 { result.replayed ≡ 0 → Demand3 (decoded words.now) refusals.old options.asked options.start list.now index.old totals.old days.old question.rank question.lower question.upper out.old result refusals.new index.new totals.new days.new out.new }
{
    let done = history::replay(words, refusals);
    let replayed = done.refusal;
    if replayed != 0 {
        return not_replayed(replayed);
    }
    let board = done.board;
    let built = build::build_asked(
        board,
        options.asked,
        options.start,
        list,
        index,
        totals,
        days,
    );
    let listed = navigate::descendants(index, question.rank, question.lower, question.upper, out);
    let summed = sums::subtree_sum(index, totals, question.rank);
    ReplayedAll {
        replayed,
        calls: done.calls,
        kept: board.kept,
        undone: board.undone,
        count: board.count,
        built: Built::from(built),
        listed: Listed::from(listed),
        summed: Summed::from(summed),
    }
}
