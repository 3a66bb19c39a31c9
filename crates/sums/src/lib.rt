// Sums over the running totals of an index image that anybody may have written.
#![tactic(auto)]

ghost use Rattle.std.specs.Prelude.{◌≡◌, ◌||◌, ◌≤◌, ◌<◌, ◌-ℤ◌, length};
ghost use Rattle.refusal.specs.Numbers.{refusal_of};
ghost use Rattle.image.specs.Layout.{bodies_end};
ghost use Rattle.sums.specs.Sums.{totals_refusal, beyond, bad_totals, bad_path, path_sum, summed, subtree_answer, path_answer};
ghost use Rattle.sums.specs.SumsLayer.{found};

use refusal::Refusal;

// The answer to a call that sums minutes, as C has it.
#[repr(C)]
#[derive(Clone, Copy)]
pub struct Summed {
    pub refusal: u32,
    pub sum: i64,
}

impl From<Result<i64, Refusal>> for Summed {
    ghost from_gives = { λ answer s. s ≡ summed answer };

    fn from(answer: Result<i64, Refusal>) -> Summed {
        match answer {
            Ok(sum) => Summed { refusal: 0, sum },
            Err(refusal) => Summed {
                refusal: refusal.number(),
                sum: 0,
            },
        }
    }
}

// Refuses a slice that is no index, and totals that are too few for it.
#[tactic(auto, unfolding(image::specs::Layout::bad_contents))]
pub fn check_totals(index: &[u32], totals: &[i64]) -> Result<(), Refusal>
    ensures { refusal_of result ≡ totals_refusal index.now totals.now }
{
    image::check_contents(index)?;
    let n = index[0] as usize;
    if totals.len() < n + 1 {
        return Err(Refusal::NoIndex);
    }
    Ok(())
}

// Whether a total is beyond 2^47 either side.
#[tactic(auto, unfolding(crate::specs::Sums::beyond))]
pub fn is_beyond(total: i64) -> bool
    ensures { result ≡ beyond total }
{
    140737488355328 < total || total < -140737488355328
}

// A total less another, neither of them beyond 2^47.
fn difference(last: i64, first: i64) -> Result<i64, Refusal>
    ensures { summed result ≡ found (beyond last || beyond first) (last -ℤ first) }
{
    if is_beyond(last) || is_beyond(first) {
        return Err(Refusal::DamagedIndex);
    }
    Ok(last - first)
}

// The total at the end of a node's span less the total before the node.
pub fn subtree_sum(index: &[u32], totals: &[i64], rank: u32) -> Result<i64, Refusal>
    ensures { summed result ≡ subtree_answer index.now totals.now rank }
{
    check_totals(index, totals)?;
    spans::check_span(index, rank)?;
    let r = rank as usize;
    let size = image::body_of(index, r).size as usize;
    difference(totals[r + size - 1], totals[r - 1])
}

// A total less another, neither of them beyond 2^47, where the difference fits i32.
#[tactic(auto, unfolding(crate::specs::Sums::bad_totals, crate::specs::Sums::leaves32))]
fn own_minutes(last: i64, first: i64) -> Result<i32, Refusal>
    ensures { summed result ≡ found (bad_totals last first) (last -ℤ first) }
{
    let minutes = difference(last, first)?;
    i32::try_from(minutes).map_err(|_| Refusal::DamagedIndex)
}

// Own minutes over a climb. The climb goes from parent to parent.
fn climb_sum(index: &[u32], totals: &[i64], rank: usize) -> Result<i64, Refusal>
    requires { (1 ≤ rank) × (bodies_end rank ≤ length index.now) × (rank < length totals.now) × (rank ≤ 65535) }
    ensures { summed result ≡ found (bad_path index.now totals.now rank) (path_sum index.now totals.now rank) }
{
    let mut k = rank;
    let mut sum: i64 = 0;
    while 0 < k {
        let parent = image::body_of(index, k).parent as usize;
        if k <= parent {
            return Err(Refusal::DamagedIndex);
        }
        sum += i64::from(own_minutes(totals[k], totals[k - 1])?);
        k = parent;
    }
    Ok(sum)
}

// Own minutes over the node and all its ancestors.
pub fn path_sum(index: &[u32], totals: &[i64], rank: u32) -> Result<i64, Refusal>
    ensures { summed result ≡ path_answer index.now totals.now rank }
{
    check_totals(index, totals)?;
    spans::check_rank(index, rank)?;
    climb_sum(index, totals, rank as usize)
}
