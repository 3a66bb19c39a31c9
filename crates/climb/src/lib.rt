// The climb from a rank of an index image, that anybody may have written, to rank 0: ancestors.
#![tactic(auto)]

ghost use Rattle.std.specs.Prelude.{◌≡◌, false, cond, ◌≤◌, length};
ghost use Rattle.lists.specs.Lists.{filter, front};
ghost use Rattle.image.specs.Layout.{bodies_end};
ghost use Rattle.navigate.specs.Navigate.{list_out};
ghost use Rattle.rank_filter.specs.KeepLayer.{keeps_at};
ghost use Rattle.climb.specs.Climb.{ascended, chain, bad_climb, climb_answer, ancestors_answer, ancestors_out};
ghost use Rattle.climb.specs.ClimbLayer.{climbed};

use rank_filter::Keep;
use refusal::Refusal;

// What a climb to rank 0 lists: how many ranks, and how many parent links lie between those it met.
#[derive(Clone, Copy, Debug, PartialEq, Eq)]
pub struct Ascent {
    pub len: usize,
    pub links: usize,
}

// The answer to a call that lists ancestors, as C has it.
#[repr(C)]
#[derive(Clone, Copy)]
pub struct Climbed {
    pub refusal: u32,
    pub len: usize,
    pub links: usize,
}

impl From<Result<Ascent, Refusal>> for Climbed {
    ghost from_gives = { λ answer c. c ≡ ascended answer };

    fn from(answer: Result<Ascent, Refusal>) -> Climbed {
        match answer {
            Ok(Ascent { len, links }) => Climbed {
                refusal: 0,
                len,
                links,
            },
            Err(refusal) => Climbed {
                refusal: refusal.number(),
                len: 0,
                links: 0,
            },
        }
    }
}

// A climb from a rank that the index has, and which of the ranks met a list keeps.
#[derive(Clone, Copy)]
struct Climbing<'a> {
    index: &'a [u32],
    rank: usize,
    keep: Keep,
    ghost held: { (1 ≤ rank) × (bodies_end rank ≤ length index.now) × (rank ≤ 65535) },
}

impl<'a> Climbing<'a> {
    // Climbs to rank 0: refused where a parent rank is not below its own, else how many of the ranks met are kept, and the links.
    fn count(self) -> Result<Ascent, Refusal>
        ensures { ascended result ≡ climbed self.entry.index.now self.entry.keep self.entry.rank }
    {
        let mut k = self.rank;
        let mut len: usize = 0;
        let mut links: usize = 0;
        loop {
            let parent = image::body_of(self.index, k).parent as usize;
            if k <= parent {
                return Err(Refusal::DamagedIndex);
            }
            if rank_filter::keeps(self.index, k, self.keep) {
                len += 1;
            }
            if parent == 0 {
                return Ok(Ascent { len, links });
            }
            links += 1;
            k = parent;
        }
    }

    // Climbs again, and writes the ranks that are kept, in a loop of its own: one loop that is given what to do at a rank could not show that the slice has room, and would test for it at each rank.
    fn write(self, out: &mut [u32])
        requires sound { bad_climb self.index.now self.rank ≡ false }
        requires room { length (filter (keeps_at self.index.now self.keep) (chain self.index.now self.rank)) ≤ length out.old }
        ensures { out.new ≡ front (filter (keeps_at self.entry.index.now self.entry.keep) (chain self.entry.index.now self.entry.rank)) out.old }
    {
        let mut k = self.rank;
        let mut n: usize = 0;
        while 0 < k {
            let parent = image::body_of(self.index, k).parent as usize;
            if rank_filter::keeps(self.index, k, self.keep) {
                out[n] = k as u32;
                n += 1;
            }
            k = parent;
        }
    }

    // Counts first, since a climb that is refused must leave the slice as it was.
    fn list(self, out: &mut [u32]) -> Result<Ascent, Refusal>
        ensures value { ascended result ≡ climb_answer (cond (bad_climb self.entry.index.now self.entry.rank) 15 0) (chain self.entry.index.now self.entry.rank) (filter (keeps_at self.entry.index.now self.entry.keep) (chain self.entry.index.now self.entry.rank)) out.old }
        ensures out_after { out.new ≡ list_out (cond (bad_climb self.entry.index.now self.entry.rank) 15 0) (filter (keeps_at self.entry.index.now self.entry.keep) (chain self.entry.index.now self.entry.rank)) out.old }
    {
        let found = self.count()?;
        if out.len() < found.len {
            return Err(Refusal::ListTooLong);
        }
        self.write(out);
        Ok(found)
    }
}

// The node and its ancestors whose distance is within the limits, from the node up, at the front of the slice.
pub fn ancestors(
    index: &[u32],
    rank: u32,
    lo: i32,
    hi: i32,
    out: &mut [u32],
) -> Result<Ascent, Refusal>
    ensures value { ascended result ≡ ancestors_answer index.now rank lo hi out.old }
    ensures out_after { out.new ≡ ancestors_out index.now rank lo hi out.old }
{
    spans::check_rank(index, rank)?;
    let r = rank as usize;
    let body = image::body_of(index, r);
    let climbing = Climbing {
        index,
        rank: r,
        keep: Keep::Within(body.level, lo, hi),
    };
    climbing.list(out)
}
