// The pull of one part: the running totals of an index, corrected for new minutes of one row without a build. Over an index and totals that anybody may have written.
#![tactic(auto)]

ghost use Rattle.std.specs.Prelude.{◌≡◌, cond, ◌||◌, map, ◌+◌, ◌≤◌, ◌<◌, neg_ℤ, ◌+ℤ◌, length};
ghost use Rattle.std.specs.Int.Signed.{mag};
ghost use Rattle.lists.specs.Lists.{numbers, front};
ghost use Rattle.refusal.specs.Numbers.{refusal_of};
ghost use Rattle.image.specs.Layout.{node_count, bodies_end};
ghost use Rattle.sums.specs.Sums.{beyond, summed};
ghost use Rattle.sums.specs.SumsLayer.{found};
ghost use Rattle.pull.specs.Pull.{ends_in, moved_at, bad_pull, pull_refusal, moved, pull_out};
ghost use Rattle.pull.specs.PullLayer.{next_shift, far, moves_to};

use refusal::Refusal;

// Whether the node of a rank ends in the row.
fn ends_in(index: &[u32], rank: usize, row: u32) -> bool
    requires { (1 ≤ rank) × (bodies_end rank ≤ length index.now) }
    ensures { result ≡ ends_in index.now row rank }
{
    image::body_of(index, rank).row == row
}

// What the totals from a node on move by, where those before it move by `shift`.
fn shifted(shift: i64, difference: i64, own: bool) -> i64
    requires { mag (next_shift shift difference own) < 9223372036854775808 }
    ensures { result ≡ next_shift shift difference own }
{
    if own { shift + difference } else { shift }
}

// Whether a difference is beyond 2^50 either side.
#[tactic(auto, unfolding(crate::specs::PullLayer::far))]
fn is_far(difference: i64) -> bool
    ensures { result ≡ far difference }
{
    1125899906842624 < difference || difference < -1125899906842624
}

// What a total moves by, of one that neither is nor would come beyond 2^47.
fn judge(total: i64, shift: i64) -> Result<i64, Refusal>
    requires { mag shift ≤ 2251799813685248 }
    ensures { summed result ≡ found (beyond total || beyond (total +ℤ shift)) shift }
{
    if sums::is_beyond(total) || sums::is_beyond(total + shift) {
        return Err(Refusal::DamagedIndex);
    }
    Ok(shift)
}

// The same of the total at a node, by any difference. One beyond 2^50 is never added: it would bring the total beyond 2^47, since the shift so far is far smaller.
fn judge_node(total: i64, shift: i64, difference: i64, own: bool) -> Result<i64, Refusal>
    requires { mag shift ≤ 562949953421312 }
    ensures { summed result ≡ found (beyond total || beyond (total +ℤ next_shift shift difference own)) (next_shift shift difference own) }
{
    if own && is_far(difference) {
        return Err(Refusal::DamagedIndex);
    }
    judge(total, shifted(shift, difference, own))
}

// Moves the totals from rank 1 to a last one, up to the first that is or would come beyond 2^47; that and all later ones stay. The rank of the last one moved.
fn move_totals(index: &[u32], totals: &mut [i64], last: usize, row: u32, difference: i64) -> usize
    requires { (last ≤ 65535) × (bodies_end last ≤ length index.now) × (last < length totals.old) }
    ensures value { result ≡ moves_to index.now totals.old row difference 0 last }
    ensures totals_after { totals.new ≡ front (map (moved_at index.now totals.old row difference) (numbers 0 (result + 1))) totals.old }
{
    let mut shift: i64 = 0;
    for k in 0..last {
        let own = ends_in(index, k + 1, row);
        let total = totals[k + 1];
        let Ok(next) = judge_node(total, shift, difference, own) else {
            return k;
        };
        shift = next;
        totals[k + 1] = total + shift;
    }
    last
}

// Takes the moves back from the totals up to a rank. A difference beyond 2^50 has moved none of them.
fn take_back(index: &[u32], totals: &mut [i64], last: usize, row: u32, difference: i64)
    requires { (last ≤ 65535) × (bodies_end last ≤ length index.now) × (last < length totals.old) }
    ensures { totals.new ≡ cond (far difference) totals.old (front (map (moved_at index.now totals.old row (neg_ℤ difference)) (numbers 0 (moves_to index.now totals.old row (neg_ℤ difference) 0 last + 1))) totals.old) }
{
    if !is_far(difference) {
        move_totals(index, totals, last, row, -difference);
    }
}

// Moves the totals of an index, or leaves them where one of them is or would come beyond 2^47.
fn move_all(index: &[u32], totals: &mut [i64], row: u32, difference: i64) -> Result<(), Refusal>
    requires { (8 ≤ length index.now) × (node_count index.now ≤ 65535) × (bodies_end (node_count index.now) ≤ length index.now) × (node_count index.now < length totals.old) }
    ensures value { refusal_of result ≡ cond (bad_pull index.now totals.old row difference) 15 0 }
    ensures totals_after { totals.new ≡ cond (bad_pull index.now totals.old row difference) totals.old (front (moved index.now totals.old row difference) totals.old) }
{
    let n = index[0] as usize;
    if sums::is_beyond(totals[0]) {
        return Err(Refusal::DamagedIndex);
    }
    let reached = move_totals(index, totals, n, row, difference);
    if reached < n {
        take_back(index, totals, reached, row, difference);
        return Err(Refusal::DamagedIndex);
    }
    Ok(())
}

// Each node that ends in the row gets so many minutes more, and the totals from it on move by as much. A pull is judged as it moves them; where it is refused, those moved are moved back, so that all are as they were.
pub fn pull(index: &[u32], totals: &mut [i64], row: u32, difference: i64) -> Result<(), Refusal>
    ensures value { refusal_of result ≡ pull_refusal index.now totals.old row difference }
    ensures totals_after { totals.new ≡ pull_out index.now totals.old row difference }
{
    if row == 0 {
        return Err(Refusal::NoSuchRow);
    }
    sums::check_totals(index, totals)?;
    move_all(index, totals, row, difference)
}
