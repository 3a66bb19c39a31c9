// Whether a lent slice is an index: paper 01, "Index check". One pass over the ranks, each compared with its parent's words.
#![tactic(auto)]

ghost use Rattle.std.specs.Prelude.{◌≡◌, ◌≤◌, length};
ghost use Rattle.lists.specs.Lists.{all_to};
ghost use Rattle.image.specs.Layout.{bodies_end, node_count};
ghost use Rattle.index_check.specs.IndexCheck.{parent_of, size_right, end_right, parent_right, level_right, root_right, bits_right, rank_right, zeros_right, check_right, accepts};
ghost use Rattle.index_check.specs.IndexCheckLayer.{InIndex, LowerRight, ParentBelow};

// The largest lower rank whose interval contains rank k, else 0. The climb goes from parent to parent: the lower ranks are
// right, so that no rank between a rank and its parent reaches beyond that rank. No later climb meets a rank that this one
// leaves, so that all climbs together take time in proportion to the number of ranks.
fn find_parent(index: &[u32], k: usize) -> usize
    requires { LowerRight index.now k }
    ensures { result ≡ parent_of index.now k }
{
    let mut j = k - 1;
    while 0 < j {
        let body = image::body_of(index, j);
        if k < j + body.size as usize {
            return j;
        }
        j = body.parent as usize;
    }
    0
}

#[tactic(auto, unfolding(crate::specs::IndexCheck::size_right))]
fn size_right(index: &[u32], k: usize) -> bool
    requires { InIndex index.now k }
    ensures { result ≡ size_right index.now k }
{
    1 <= image::body_of(index, k).size
}

#[tactic(auto, unfolding(crate::specs::IndexCheck::parent_right))]
fn parent_right(index: &[u32], k: usize) -> bool
    requires { LowerRight index.now k }
    ensures { result ≡ parent_right index.now k }
{
    let parent = image::body_of(index, k).parent as usize;
    parent == find_parent(index, k)
}

#[tactic(auto, unfolding(crate::specs::IndexCheck::end_right))]
fn end_right(index: &[u32], k: usize) -> bool
    requires { ParentBelow index.now k }
    ensures { result ≡ end_right index.now k }
{
    let body = image::body_of(index, k);
    let last = k + body.size as usize - 1;
    let parent = body.parent as usize;
    if parent == 0 {
        last <= index[0] as usize
    } else {
        last <= parent + image::body_of(index, parent).size as usize - 1
    }
}

#[tactic(auto, unfolding(crate::specs::IndexCheck::level_right))]
fn level_right(index: &[u32], k: usize) -> bool
    requires { ParentBelow index.now k }
    ensures { result ≡ level_right index.now k }
{
    let body = image::body_of(index, k);
    let parent = body.parent as usize;
    if parent == 0 {
        0 < body.level
    } else {
        image::body_of(index, parent).level < body.level
    }
}

#[tactic(auto, unfolding(crate::specs::IndexCheck::root_right))]
fn root_right(index: &[u32], k: usize) -> bool
    requires { ParentBelow index.now k }
    ensures { result ≡ root_right index.now k }
{
    let body = image::body_of(index, k);
    let parent = body.parent as usize;
    if parent == 0 {
        body.root as usize == k
    } else {
        body.root == image::body_of(index, parent).root
    }
}

#[tactic(auto, unfolding(crate::specs::IndexCheck::bits_right))]
fn bits_right(index: &[u32], k: usize) -> bool
    requires { InIndex index.now k }
    ensures { result ≡ bits_right index.now k }
{
    ((image::word_of(index, k) >> 16) & 16383) == 0
}

// The parent rank comes before the conditions that read the parent's words.
fn rank_right(index: &[u32], k: usize) -> bool
    requires { LowerRight index.now k }
    ensures { result ≡ rank_right index.now k }
{
    size_right(index, k)
        && parent_right(index, k)
        && end_right(index, k)
        && level_right(index, k)
        && root_right(index, k)
        && bits_right(index, k)
}

// Whether all ranks to n are right. A `for` and not `all`: a rank's condition may be asked only where those of all lower ranks hold, which a closure isn't told.
fn ranks_right(index: &[u32], n: usize) -> bool
    requires { (n ≤ 65535) × (bodies_end n ≤ length index.now) }
    ensures { result ≡ all_to (rank_right index.now) n }
{
    for k in 1..n + 1 {
        if !rank_right(index, k) {
            return false;
        }
    }
    true
}

fn zeros_right(index: &[u32]) -> bool
    requires { 8 ≤ length index.now }
    ensures { result ≡ zeros_right index.now }
{
    index[4..8].iter().all(|w| *w == 0)
}

#[tactic(auto, unfolding(crate::specs::IndexCheck::check_right))]
fn check_right(index: &[u32], n: u32) -> bool
    requires { (n ≡ node_count index.now) × (n ≤ 65535) × (bodies_end n ≤ length index.now) }
    ensures { result ≡ check_right index.now }
{
    let end = image::bodies_end(n);
    index[3] == image::add_words(&index[8..end], 0)
}

// Yes exactly when the slice is an index as paper 01's "Index check" asks.
pub fn index_check(index: &[u32]) -> bool
    ensures { result ≡ accepts index.now }
{
    image::check_contents(index).is_ok()
        && zeros_right(index)
        && check_right(index, index[0])
        && ranks_right(index, index[0] as usize)
}
