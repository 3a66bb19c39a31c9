// Siblings by hops over an index image that anybody may have written: from the parent's first child, or from rank 1, from tree to tree up to the parent's end, or to n. The parent and the ranks
// met are read, and no others.
#![tactic(auto)]

ghost use Rattle.std.specs.Prelude.{◌≡◌, false, cond, ◌≤◌, length};
ghost use Rattle.lists.specs.Lists.{front};
ghost use Rattle.image.specs.Layout.{bad_contents};
ghost use Rattle.navigate.specs.Navigate.{list_out};
ghost use Rattle.hops.specs.Hops.{hopped, hops, zero_met, hopped_answer, siblings_by_hops_answer, siblings_by_hops_out};
ghost use Rattle.hops.specs.HopsLayer.{reached, counted};

use refusal::Refusal;

// The answer to a call that lists siblings by hops, as C has it: a hop is made from each rank that is listed.
#[repr(C)]
#[derive(Clone, Copy)]
pub struct Hopped {
    pub refusal: u32,
    pub len: usize,
    pub hops: usize,
}

impl From<Result<usize, Refusal>> for Hopped {
    ghost from_gives = { λ answer c. c ≡ hopped answer };

    fn from(answer: Result<usize, Refusal>) -> Hopped {
        match answer {
            Ok(len) => Hopped {
                refusal: 0,
                len,
                hops: len,
            },
            Err(refusal) => Hopped {
                refusal: refusal.number(),
                len: 0,
                hops: 0,
            },
        }
    }
}

// The last rank below a parent; refused where the parent is above n or has no span.
#[tactic(auto, unfolding(crate::specs::Hops::bad_parent, spans::specs::Spans::bad_rank, spans::specs::Spans::bad_span, image::specs::Layout::bad_contents))]
fn last_below(index: &[u32], parent: u32) -> Result<usize, Refusal>
    requires { bad_contents index.now ≡ false }
    ensures { result ≡ reached index.now parent }
{
    if parent == 0 {
        return Ok(index[0] as usize);
    }
    spans::check_span(index, parent).map_err(|_| Refusal::DamagedIndex)?;
    let p = parent as usize;
    let size = image::size_at(index, p) as usize;
    Ok(p + size - 1)
}

// Hops over an index from the first rank to the last.
#[derive(Clone, Copy)]
struct Hopping<'a> {
    index: &'a [u32],
    first: usize,
    last: usize,
    ghost few: { last ≤ 65535 },
}

impl<'a> Hopping<'a> {
    // Refused where a size of 0 is met, else how many ranks are met.
    fn count(self) -> Result<usize, Refusal>
        ensures { hopped result ≡ counted self.entry.index.now self.entry.last self.entry.first }
    {
        let mut k = self.first;
        let mut met: usize = 0;
        while k <= self.last {
            let size = image::size_at(self.index, k) as usize;
            if size == 0 {
                return Err(Refusal::DamagedIndex);
            }
            met += 1;
            k += size;
        }
        Ok(met)
    }

    // Hops again, and writes the ranks met, in a loop of its own: one loop that is given what to do at a rank could not show that the slice has room, and would test for it at each rank.
    fn write(self, out: &mut [u32])
        requires sound { zero_met self.index.now (hops self.index.now self.last self.first) ≡ false }
        requires room { length (hops self.index.now self.last self.first) ≤ length out.old }
        ensures { out.new ≡ front (hops self.entry.index.now self.entry.last self.entry.first) out.old }
    {
        let mut k = self.first;
        let mut n: usize = 0;
        while k <= self.last {
            let hop = image::size_at(self.index, k) as usize;
            out[n] = k as u32;
            n += 1;
            k += hop;
        }
    }

    // Counts first, since hops that are refused must leave the slice as it was.
    fn list(self, out: &mut [u32]) -> Result<usize, Refusal>
        ensures value { hopped result ≡ hopped_answer (cond (zero_met self.entry.index.now (hops self.entry.index.now self.entry.last self.entry.first)) 15 0) (hops self.entry.index.now self.entry.last self.entry.first) out.old }
        ensures out_after { out.new ≡ list_out (cond (zero_met self.entry.index.now (hops self.entry.index.now self.entry.last self.entry.first)) 15 0) (hops self.entry.index.now self.entry.last self.entry.first) out.old }
    {
        let len = self.count()?;
        if out.len() < len {
            return Err(Refusal::ListTooLong);
        }
        self.write(out);
        Ok(len)
    }
}

// The ranks that hops from the parent's first child meet, rising, at the front of the slice: the siblings, on an index that the check accepts.
pub fn siblings_by_hops(index: &[u32], rank: u32, out: &mut [u32]) -> Result<usize, Refusal>
    ensures value { hopped result ≡ siblings_by_hops_answer index.now rank out.old }
    ensures out_after { out.new ≡ siblings_by_hops_out index.now rank out.old }
{
    spans::check_rank(index, rank)?;
    let parent = image::parent_at(index, rank as usize);
    let last = last_below(index, parent)?;
    let first = parent as usize + 1;
    let hopping = Hopping { index, first, last };
    hopping.list(out)
}
