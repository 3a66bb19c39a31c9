// Navigation over an index image that anybody may have written: descendants and siblings.
#![tactic(auto)]

ghost use Rattle.std.specs.Prelude.{◌≡◌, ◌+◌, ◌-◌, ◌≤◌, length};
ghost use Rattle.std.specs.List.{count_by, range_with_len};
ghost use Rattle.lists.specs.Lists.{filter, numbers, front};
ghost use Rattle.image.specs.Layout.{bodies_end};
ghost use Rattle.navigate.specs.Navigate.{listed, list_answer, list_out};
ghost use Rattle.navigate.specs.Navigate.{descendants_answer, descendants_out, siblings_answer, siblings_out};
ghost use Rattle.rank_filter.specs.KeepLayer.{keeps_at};

use rank_filter::Keep;
use refusal::Refusal;

// The answer to a call that lists ranks, as C has it.
#[repr(C)]
#[derive(Clone, Copy)]
pub struct Listed {
    pub refusal: u32,
    pub len: usize,
}

impl From<Result<usize, Refusal>> for Listed {
    ghost from_gives = { λ answer c. c ≡ listed answer };

    fn from(answer: Result<usize, Refusal>) -> Listed {
        match answer {
            Ok(len) => Listed { refusal: 0, len },
            Err(refusal) => Listed {
                refusal: refusal.number(),
                len: 0,
            },
        }
    }
}

// The ranks of a range, all of them in the index, and which of them a list keeps.
#[derive(Clone, Copy)]
struct RankRange<'a> {
    index: &'a [u32],
    first: usize,
    count: usize,
    keep: Keep,
    ghost held: { (1 ≤ first) × (bodies_end (first + count - 1) ≤ length index.now) × (first + count ≤ 65536) },
}

impl<'a> RankRange<'a> {
    // How many of the ranks are kept. A loop: a chain that filters and counts branches at each rank, and took half as long again where the ranks kept follow no pattern.
    fn count_kept(self) -> usize
        ensures { result ≡ count_by (keeps_at self.entry.index.now self.entry.keep) (range_with_len self.entry.first self.entry.count) }
    {
        let mut n: usize = 0;
        for k in self.first..self.first + self.count {
            if rank_filter::keeps(self.index, k, self.keep) {
                n += 1;
            }
        }
        n
    }

    // Writes those ranks to the front of the slice, in a loop of its own: one loop that is given what to do at a rank could not show that the slice has room, and would test for it at each rank.
    fn write_kept(self, out: &mut [u32])
        requires { length (filter (keeps_at self.index.now self.keep) (numbers self.first self.count)) ≤ length out.old }
        ensures { out.new ≡ front (filter (keeps_at self.entry.index.now self.entry.keep) (numbers self.entry.first self.entry.count)) out.old }
    {
        let mut n: usize = 0;
        for k in self.first..self.first + self.count {
            if rank_filter::keeps(self.index, k, self.keep) {
                out[n] = k as u32;
                n += 1;
            }
        }
    }

    // Counts first, since a list that is too long must leave the slice as it was.
    #[tactic(auto, using(crate::proofs::Ranks::kept_count))]
    fn list_kept(self, out: &mut [u32]) -> Result<usize, Refusal>
        ensures value { listed result ≡ list_answer 0 (filter (keeps_at self.entry.index.now self.entry.keep) (numbers self.entry.first self.entry.count)) out.old }
        ensures out_after { out.new ≡ list_out 0 (filter (keeps_at self.entry.index.now self.entry.keep) (numbers self.entry.first self.entry.count)) out.old }
    {
        let len = self.count_kept();
        if out.len() < len {
            return Err(Refusal::ListTooLong);
        }
        self.write_kept(out);
        Ok(len)
    }
}

// The ranks of a node's span whose distance is within the limits, rising, at the front of the slice: how many they are.
pub fn descendants(
    index: &[u32],
    rank: u32,
    lo: i32,
    hi: i32,
    out: &mut [u32],
) -> Result<usize, Refusal>
    ensures value { listed result ≡ descendants_answer index.now rank lo hi out.old }
    ensures out_after { out.new ≡ descendants_out index.now rank lo hi out.old }
{
    spans::check_span(index, rank)?;
    let first = rank as usize;
    let body = image::body_of(index, first);
    let ranks = RankRange {
        index,
        first,
        count: body.size as usize,
        keep: Keep::Within(body.level, lo, hi),
    };
    ranks.list_kept(out)
}

// All ranks with the same parent rank, rising, at the front of the slice: how many they are.
pub fn siblings(index: &[u32], rank: u32, out: &mut [u32]) -> Result<usize, Refusal>
    ensures value { listed result ≡ siblings_answer index.now rank out.old }
    ensures out_after { out.new ≡ siblings_out index.now rank out.old }
{
    spans::check_rank(index, rank)?;
    let body = image::body_of(index, rank as usize);
    let ranks = RankRange {
        index,
        first: 1,
        count: index[0] as usize,
        keep: Keep::Under(body.parent),
    };
    ranks.list_kept(out)
}
