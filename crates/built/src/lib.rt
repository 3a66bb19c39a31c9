// What a build answers.
#![tactic(auto)]

ghost use Rattle.std.specs.Prelude.{◌≡◌, cond, eqb, pos, length, replicate};
ghost use Rattle.built.specs.Answered.{built};

use refusal::Refusal;

// The number of nodes, and the second count: of a board the rows that end no node, of a levelled list the lines that are wholly blank.
#[derive(Clone, Copy, Debug, PartialEq, Eq)]
pub struct Counts {
    pub nodes: u32,
    pub left: u32,
}

// A build's answer as C has it: the refusal's number or 0, and the two counts.
#[repr(C)]
#[derive(Clone, Copy)]
pub struct Built {
    pub refusal: u32,
    pub nodes: u32,
    pub left: u32,
}

impl From<Result<Counts, Refusal>> for Built {
    ghost from_gives = { λ answer b. b ≡ built answer };

    fn from(answer: Result<Counts, Refusal>) -> Built {
        match answer {
            Ok(counts) => Built {
                refusal: 0,
                nodes: counts.nodes,
                left: counts.left,
            },
            Err(refusal) => Built {
                refusal: refusal.number(),
                nodes: 0,
                left: 0,
            },
        }
    }
}

// Where a build is refused, both slices become all zero.
pub fn settle(
    answer: Result<Counts, Refusal>,
    index: &mut [u32],
    totals: &mut [i64],
) -> Result<Counts, Refusal>
    ensures value { result ≡ answer }
    ensures index_after { index.new ≡ cond (eqb (built answer).refusal 0) index.old (replicate (length index.old) 0) }
    ensures totals_after { totals.new ≡ cond (eqb (built answer).refusal 0) totals.old (replicate (length totals.old) (pos 0)) }
{
    if answer.is_ok() {
        return answer;
    }
    index.fill(0);
    totals.fill(0);
    answer
}

// The same of the days of nodes.
pub fn settle_days(answer: Result<Counts, Refusal>, days: &mut [u32])
    ensures { days.new ≡ cond (eqb (built answer).refusal 0) days.old (replicate (length days.old) 0) }
{
    if answer.is_err() {
        days.fill(0);
    }
}
