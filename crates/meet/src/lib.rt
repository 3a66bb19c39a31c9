// Where two nodes meet, over an index image that anybody may have written: the largest rank that is an ancestor of both, themselves included.
#![tactic(auto)]

ghost use Rattle.std.specs.Prelude.{◌≡◌, ◌≤◌, length};
ghost use Rattle.refusal.specs.Numbers.{refusal_of};
ghost use Rattle.image.specs.Layout.{bodies_end};
ghost use Rattle.meet.specs.Meet.{met, meet_answer};
ghost use Rattle.meet.specs.MeetLayer.{below, climb_break, climbs_meet};

use refusal::Refusal;

// The answer as C has it: whether the two nodes meet, and the rank where they do, 0 for none.
#[repr(C)]
#[derive(Clone, Copy)]
pub struct Meeting {
    pub refusal: u32,
    pub found: bool,
    pub rank: u32,
}

impl From<Result<Option<u32>, Refusal>> for Meeting {
    ghost from_gives = { λ answer c. c ≡ met answer };

    fn from(answer: Result<Option<u32>, Refusal>) -> Meeting {
        match answer {
            Ok(rank) => Meeting {
                refusal: 0,
                found: rank.is_some(),
                rank: rank.unwrap_or(0),
            },
            Err(refusal) => Meeting {
                refusal: refusal.number(),
                found: false,
                rank: 0,
            },
        }
    }
}

// The parent of a rank; refused where it isn't below the rank.
fn parent_below(index: &[u32], k: usize) -> Result<usize, Refusal>
    requires { (1 ≤ k) × (bodies_end k ≤ length index.now) }
    ensures { result ≡ below index.now k }
{
    let parent = image::body_of(index, k).parent as usize;
    if k <= parent {
        return Err(Refusal::DamagedIndex);
    }
    Ok(parent)
}

// Climbs to rank 0; refused where a parent rank is not below its own.
fn climb_on(index: &[u32], rank: usize) -> Result<(), Refusal>
    requires { bodies_end rank ≤ length index.now }
    ensures { refusal_of result ≡ climb_break index.now rank }
{
    let mut k = rank;
    while 0 < k {
        k = parent_below(index, k)?;
    }
    Ok(())
}

// Two climbs at once: the one at the larger rank goes up, until both are at the same rank, where they meet; at rank 0 where they don't. From there on they are one climb.
fn climbs_meet(index: &[u32], a: usize, b: usize) -> Result<Option<u32>, Refusal>
    requires { (bodies_end a ≤ length index.now) × (bodies_end b ≤ length index.now) × (a ≤ 65535) × (b ≤ 65535) }
    ensures { met result ≡ climbs_meet index.now a b }
{
    let mut x = a;
    let mut y = b;
    while x != y {
        if x < y {
            y = parent_below(index, y)?;
        } else {
            x = parent_below(index, x)?;
        }
    }
    climb_on(index, x)?;
    let meets = 0 < x;
    if meets {
        return Ok(Some(x as u32));
    }
    Ok(None)
}

// The largest rank that is an ancestor of both nodes, themselves included. Both ranks are judged before either climb.
pub fn meet(index: &[u32], a: u32, b: u32) -> Result<Option<u32>, Refusal>
    ensures { met result ≡ meet_answer index.now a b }
{
    spans::check_rank(index, a)?;
    spans::check_rank(index, b)?;
    climbs_meet(index, a as usize, b as usize)
}
