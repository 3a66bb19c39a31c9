// A climber over an index image that anybody may have written: it keeps the lent index and the rank it has come to, and goes up one parent for each call.
#![tactic(auto)]

ghost use Rattle.std.specs.Prelude.{◌≡◌};
ghost use Rattle.climber.specs.Climber.{climb_one_answer, risen};

use refusal::Refusal;

// The answer to a call that goes up one parent, as C has it: whether the rank is a root, and the rank come to.
#[repr(C)]
#[derive(Clone, Copy)]
pub struct ClimbedOne {
    pub refusal: u32,
    pub root: bool,
    pub rank: u32,
}

impl ClimbedOne {
    // The answer to a call at a rank, where a climber stays at a root and where it is refused.
    pub fn at(rank: u32, answer: Result<Option<u32>, Refusal>) -> ClimbedOne
        ensures { result ≡ risen rank answer }
    {
        match answer {
            Ok(parent) => ClimbedOne {
                refusal: 0,
                root: parent.is_none(),
                rank: parent.unwrap_or(rank),
            },
            Err(refusal) => ClimbedOne {
                refusal: refusal.number(),
                root: false,
                rank,
            },
        }
    }
}

// The parent of a rank, none of a root.
fn climb_one(index: &[u32], rank: u32) -> Result<Option<u32>, Refusal>
    ensures { risen rank result ≡ climb_one_answer index.now rank }
{
    spans::check_rank(index, rank)?;
    let parent = image::body_of(index, rank as usize).parent;
    if rank <= parent {
        return Err(Refusal::DamagedIndex);
    }
    if parent == 0 {
        return Ok(None);
    }
    Ok(Some(parent))
}

// The lent index and the rank that the climber has come to.
#[derive(Clone, Copy)]
pub struct Climber<'a> {
    pub index: &'a [u32],
    pub rank: u32,
}

// The climber after a call, and what the call answered.
#[derive(Clone, Copy)]
pub struct Rise<'a> {
    pub climber: Climber<'a>,
    pub answer: Result<Option<u32>, Refusal>,
}

impl<'a> Climber<'a> {
    // From any index and any rank: its calls are refused, and not its making.
    pub fn at(index: &'a [u32], rank: u32) -> Climber<'a>
        ensures { (result.index ≡ index.entry) × (result.rank ≡ rank) }
    {
        Climber { index, rank }
    }

    // Goes to the parent, which it answers; at a root, where there is none, and where it is refused, it stays.
    pub fn up(self) -> Rise<'a>
        ensures { (result.climber.index ≡ self.entry.index) × (result.climber.rank ≡ (climb_one_answer self.entry.index.now self.entry.rank).rank) × (risen self.entry.rank result.answer ≡ climb_one_answer self.entry.index.now self.entry.rank) }
    {
        let answer = climb_one(self.index, self.rank);
        let rank = match answer {
            Ok(Some(parent)) => parent,
            Ok(None) | Err(_) => self.rank,
        };
        Rise {
            climber: Climber {
                index: self.index,
                rank,
            },
            answer,
        }
    }
}

// One call of a climber that is made for it: for callers that keep the index and the rank themselves, as those from C do.
pub fn climb(index: &[u32], rank: u32) -> Result<Option<u32>, Refusal>
    ensures { risen rank result ≡ climb_one_answer index.now rank }
{
    Climber::at(index, rank).up().answer
}
