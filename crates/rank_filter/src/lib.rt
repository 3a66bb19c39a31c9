// Which ranks of an index image a list keeps: those at distances within limits, or those below one parent.
#![tactic(auto)]

ghost use Rattle.std.specs.Prelude.{◌≡◌, ◌≤◌, pos, ◌-ℤ◌, length};
ghost use Rattle.image.specs.Layout.{bodies_end};
ghost use Rattle.rank_filter.specs.Distances.{within};
ghost use Rattle.rank_filter.specs.KeepLayer.{keeps_at};

// Which ranks a list keeps. A value and no closure, since contracts say by it which ranks are listed.
#[derive(Clone, Copy)]
pub enum Keep {
    // Those whose level less a base level is within a lower and an upper limit.
    Within(u32, i32, i32),
    // Those with a parent rank.
    Under(u32),
}

// In 64 bits no difference of two levels leaves its width.
fn is_within(level: u32, base: u32, lo: i32, hi: i32) -> bool
    ensures { result ≡ within lo hi (pos level -ℤ pos base) }
{
    let distance = i64::from(level) - i64::from(base);
    i64::from(lo) <= distance && distance <= i64::from(hi)
}

// Whether a rank is kept.
pub fn keeps(index: &[u32], k: usize, keep: Keep) -> bool
    requires { (1 ≤ k) × (bodies_end k ≤ length index.now) }
    ensures { result ≡ keeps_at index.now keep k }
{
    match keep {
        Keep::Within(base, lo, hi) => {
            is_within(packed::level_of(image::word_of(index, k)), base, lo, hi)
        }
        Keep::Under(parent) => image::body_of(index, k).parent == parent,
    }
}
