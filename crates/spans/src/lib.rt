// Which ranks an index image has, that anybody may have written, and the span of bodies of a rank.
#![tactic(auto)]

ghost use Rattle.std.specs.Prelude.{◌≡◌};
ghost use Rattle.refusal.specs.Numbers.{refusal_of};
ghost use Rattle.spans.specs.Spans.{rank_refusal, span_refusal, span_part};

use refusal::Refusal;

// Refuses a rank that the index doesn't have.
#[tactic(auto, unfolding(crate::specs::Spans::bad_rank, image::specs::Layout::bad_contents))]
pub fn check_rank(index: &[u32], rank: u32) -> Result<(), Refusal>
    ensures { refusal_of result ≡ rank_refusal index.now rank }
{
    image::check_contents(index)?;
    if rank == 0 || index[0] < rank {
        return Err(Refusal::NoSuchRank);
    }
    Ok(())
}

// Refuses a rank that has no span.
#[tactic(auto, unfolding(crate::specs::Spans::bad_rank, crate::specs::Spans::bad_span, image::specs::Layout::bad_contents))]
pub fn check_span(index: &[u32], rank: u32) -> Result<(), Refusal>
    ensures { refusal_of result ≡ span_refusal index.now rank }
{
    check_rank(index, rank)?;
    let n = index[0] as usize;
    let r = rank as usize;
    let size = image::body_of(index, r).size as usize;
    if size == 0 || n < r + size - 1 {
        return Err(Refusal::DamagedIndex);
    }
    Ok(())
}

// The bodies of the ranks of a node's span; no words where `check_span` refuses it.
pub fn span(index: &[u32], rank: u32) -> &[u32]
    ensures { result.now ≡ span_part index.now rank }
{
    let Ok(()) = check_span(index, rank) else {
        return &index[0..0];
    };
    let r = rank as usize;
    let body = image::body_of(index, r);
    let at = image::body_at(r);
    let end = image::bodies_end(rank + body.size - 1);
    &index[at..end]
}
