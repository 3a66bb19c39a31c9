// The depth-first enumerator over a table of rows in sibling order, which writes the bodies of the nodes that it meets.
#![tactic(auto)]

ghost use Rattle.std.specs.Prelude.{◌≡◌, ◌≢◌, Bool, true, ℕ, List, ◌+◌, ◌*◌, ◌-◌, ◌≤◌, ◌<◌, length, get_or, set};
ghost use Rattle.table.specs.TableLayer.{row_column, class_column, child_column};
ghost use Rattle.paths.specs.EmitLayer.{or_else};
ghost use Rattle.image.specs.ImageLayer.{Put};
ghost use Rattle.walk.specs.CarriedLayer.{KeepLaws, SameFrom, no_size, nothing_kept, keep_nothing, cut_nothing};
ghost use Rattle.walk.specs.CarriedLaws.{nothing_laws};
ghost use Rattle.walk.specs.WalkLayer.{Walkable, rows_of, RootsFrom, RootsPruned, SiblingsFrom, BelowFrom, always, placed_body, class_marked, opened, first_below};

// How many nodes were met, and the check word of their bodies.
#[repr(C)]
#[derive(Clone, Copy)]
pub struct Progress {
    pub count: u32,
    pub check: u32,
}

// Where siblings hang: their level, the ranks of their parent and of their root (0 for none), and whether their paths are orphan paths.
#[derive(Clone, Copy)]
pub struct Place {
    pub level: u32,
    pub parent: u32,
    pub root: u32,
    pub orphan: bool,
}

// How far a walk may go: the last level, and how many nodes there is room for.
#[derive(Clone, Copy)]
pub struct Bounds {
    pub limit: u32,
    pub cap: u32,
}

// Where a walk begins: where its rows hang, how far it may go, and what was met before.
#[derive(Clone, Copy)]
pub struct Outset {
    pub place: Place,
    pub bounds: Bounds,
    pub progress: Progress,
}

// What a walk carries down the paths: each row cuts it, and a row that leaves nothing of it is passed over with all that is below it.
// What was carried to an open row and its siblings is kept in words of that row's node until the row is closed.
pub trait Carrying {
    type Carried: Copy;

    // What row number x leaves of what is carried, by the words that tell how each row cuts it.
    ghost cut: { List ℕ → Self.Carried → ℕ → Self.Carried };

    // Whether anything is left.
    ghost is_left: { Self.Carried → Bool };

    // How many words are kept of n nodes.
    ghost size: { ℕ → ℕ };

    // What the words have of the node of rank n + 1.
    ghost kept: { List ℕ → ℕ → Self.Carried };

    // The words once that is written.
    ghost keep: { List ℕ → ℕ → Self.Carried → List ℕ };

    // What each `impl` proves.
    ghost laws: { KeepLaws size kept keep };

    // What the row at p leaves.
    fn cut(left: Self::Carried, p: u32, cuts: &[u32], table: &[u32]) -> Self::Carried
        ensures { result ≡ cut cuts.now left (get_or (row_column table.now) p 0) };

    fn is_left(left: Self::Carried) -> bool
        ensures { result ≡ is_left left };

    fn keep(left: Self::Carried, n: u32, words: &mut [u32])
        requires { size (n + 1) ≤ length words.old }
        ensures { words.new ≡ keep words.old n left };

    fn take_back(n: u32, words: &[u32]) -> Self::Carried
        ensures { result ≡ kept words.now n };
}

// Nothing is carried: no row is passed over.
struct Nothing;

impl Carrying for Nothing {
    type Carried = ();

    ghost cut = { cut_nothing };

    ghost is_left = { always };

    ghost size = { no_size };

    ghost kept = { nothing_kept };

    ghost keep = { keep_nothing };

    ghost laws = { nothing_laws };

    fn cut(_left: (), _p: u32, _cuts: &[u32], _table: &[u32]) {}

    fn is_left(_left: ()) -> bool {
        true
    }

    fn keep(_left: (), _n: u32, _words: &mut [u32]) {}

    fn take_back(_n: u32, _words: &[u32]) {}
}

// The root rank of a node: its own rank where it has no root yet.
// line_writing keeps its own: for this one line it would stand on this crate.
pub fn root_of(root: u32, rank: u32) -> u32
    ensures { result ≡ or_else root rank }
{
    if root == 0 { rank } else { root }
}

// Whether the path that ends in the row at p is closing.
fn closing(p: u32, table: &[u32], marks: &[u32]) -> bool
    ensures { result ≡ class_marked (class_column table.now) p marks.now }
{
    0 < lists::get(marks, table::class(table, p) as usize)
}

// Whether the row at p, at this level, has its rows below it listed.
fn opens(p: u32, level: u32, limit: u32, table: &[u32], marks: &[u32]) -> bool
    ensures { result ≡ opened (class_column table.now) limit p level marks.now }
{
    !closing(p, table, marks) && level < limit
}

// Writes the body of the row at p, which is the node of rank n + 1, at its part of the index; `after` is what was met with its subtree.
pub fn put_node(
    p: u32,
    place: Place,
    n: u32,
    after: Progress,
    table: &[u32],
    marks: &[u32],
    index: &mut [u32],
) -> u32
    requires { (n < after.count) × (after.count ≤ 65535) × (14 + 6 * n ≤ length index.old) }
    ensures { Put (placed_body table.now place p n marks.now (after.count - n)) n after.check index.old index.new result }
{
    let rank = n + 1;
    let size = after.count - n;
    let body = image::Body {
        numeral: table::numeral(table, p),
        row: table::row(table, p),
        size,
        parent: place.parent,
        root: root_of(place.root, rank),
        level: place.level,
        closing: closing(p, table, marks),
        orphan: place.orphan,
    };
    let start = image::bodies_end(n);
    image::write_body(&mut index[start..], body, after.check)
}

// The position of the first row that is listed below the row at p, which has this level, or one past the last where none is.
pub fn first_below(p: u32, level: u32, limit: u32, table: &[u32], marks: &[u32]) -> usize
    ensures { result ≡ first_below (child_column table.now) (class_column table.now) limit p level marks.now }
{
    if opens(p, level, limit, table, marks) {
        table::child(table, p) as usize
    } else {
        table::rows(table)
    }
}

// Opens the row at p: marks its class, and keeps its position and its parent's rank where its body will be written.
pub fn open_row(p: u32, parent: u32, n: u32, table: &[u32], marks: &mut [u32], index: &mut [u32])
    requires { (get_or (class_column table.now) p 0 < length marks.old) × (14 + 6 * n ≤ length index.old) }
    ensures marks_after { marks.new ≡ set marks.old (get_or (class_column table.now) p 0) 1 }
    ensures index_after { index.new ≡ set (set index.old (8 + 6 * n) p) (9 + 6 * n) parent }
{
    let c = table::class(table, p) as usize;
    marks[c] = 1;
    let start = image::bodies_end(n);
    index[start] = p;
    index[start + 1] = parent;
}

// Closes the row at p, the node of rank n + 1, when all below it is met: takes the mark of its class away and writes its body.
pub fn close_row(
    p: u32,
    place: Place,
    n: u32,
    after: Progress,
    table: &[u32],
    marks: &mut [u32],
    index: &mut [u32],
) -> u32
    requires { (n < after.count) × (after.count ≤ 65535) × (14 + 6 * n ≤ length index.old) × (get_or (class_column table.now) p 0 < length marks.old) }
    ensures { (marks.new ≡ set marks.old (get_or (class_column table.now) p 0) 0) × Put (placed_body table.now place p n marks.new (after.count - n)) n after.check index.old index.new result }
{
    let c = table::class(table, p) as usize;
    marks[c] = 0;
    put_node(p, place, n, after, table, marks, index)
}

// Table, marks and index stand one by one in all that follows: the contract of `roots` names what each of them holds.

// The row at `first` and its later siblings, to which `left` is carried, with the nodes below them. The rows on the way down are open, and are closed again on the way up.
fn forest<C: Carrying>(
    first: u32,
    left: C::Carried,
    start: Outset,
    cuts: &[u32],
    table: &[u32],
    marks: &mut [u32],
    index: &mut [u32],
    kept: &mut [u32],
) -> Progress
    requires walkable { Walkable (rows_of table.now) (length marks.old) }
    requires parent_le_count { (start.place.parent ≤ start.progress.count) × (start.place.root ≢ 0) × (start.progress.count ≤ start.bounds.cap) × (start.bounds.cap ≤ 65535) × (start.place.level ≤ start.bounds.limit) × (8 + 6 * start.bounds.cap ≤ length index.old) × (C.size start.bounds.cap ≤ length kept.old) }
    ensures count_le_count { (start.progress.count ≤ result.count) × SiblingsFrom (C.cut cuts.now) C.is_left left table.now start.place start.bounds first start.progress marks.old marks.new index.old index.new result }
    ensures same_from { SameFrom (C.size result.count) kept.old kept.new }
{
    let Outset {
        place,
        bounds,
        progress,
    } = start;
    let mut at = first;
    let mut deep = place.level;
    let mut newest = place.parent;
    let mut count = progress.count;
    let mut sum = progress.check;
    let mut carried = left;
    loop {
        if (at as usize) < table::rows(table) {
            let own = C::cut(carried, at, cuts, table);
            if !C::is_left(own) {
                at = table::next(table, at);
                continue;
            }
            if bounds.cap <= count {
                return Progress {
                    count: bounds.cap + 1,
                    check: sum,
                };
            }
            let lower = first_below(at, deep, bounds.limit, table, marks);
            if lower < table::rows(table) {
                C::keep(carried, count, kept);
                open_row(at, newest, count, table, marks, index);
                at = table::child(table, at);
                deep += 1;
                count += 1;
                newest = count;
                carried = own;
                continue;
            }
            let here = Place {
                level: deep,
                parent: newest,
                ..place
            };
            let after = Progress {
                count: count + 1,
                check: sum,
            };
            sum = put_node(at, here, count, after, table, marks, index);
            at = table::next(table, at);
            count += 1;
            continue;
        }
        if newest == place.parent {
            return Progress { count, check: sum };
        }
        let prior = newest - 1;
        let kept_at = image::bodies_end(prior);
        let q = lists::get(index, kept_at);
        newest = lists::get(index, kept_at + 1);
        carried = C::take_back(prior, kept);
        deep -= 1;
        let above = Place {
            level: deep,
            parent: newest,
            ..place
        };
        let all = Progress { count, check: sum };
        sum = close_row(q, above, prior, all, table, marks, index);
        at = table::next(table, q);
    }
}

// The nodes below the row at p, whose rank is one more than the nodes met before, and below which rows may be listed; `left` is carried to them.
// It is no part of the loop over the roots, so that the walk has all registers.
#[inline(never)]
fn below<C: Carrying>(
    p: u32,
    left: C::Carried,
    start: Outset,
    cuts: &[u32],
    table: &[u32],
    marks: &mut [u32],
    index: &mut [u32],
    kept: &mut [u32],
) -> Progress
    requires walkable { Walkable (rows_of table.now) (length marks.old) }
    requires p_in_bounds { (p < length (child_column table.now)) × (start.progress.count < start.bounds.cap) × (start.bounds.cap ≤ 65535) × (8 + 6 * start.bounds.cap ≤ length index.old) × (C.size start.bounds.cap ≤ length kept.old) }
    requires marks_value { opened (class_column table.now) start.bounds.limit p start.place.level marks.old ≡ true }
    ensures count_lt_count { (start.progress.count < result.count) × BelowFrom (C.cut cuts.now) C.is_left left table.now start.place start.bounds p start.progress marks.old marks.new index.old index.new result }
    ensures same_from { SameFrom (C.size result.count) kept.old kept.new }
{
    let place = start.place;
    let progress = start.progress;
    let rank = progress.count + 1;
    let own = table::class(table, p) as usize;
    let first = table::child(table, p);
    let lower = Outset {
        place: Place {
            level: place.level + 1,
            parent: rank,
            root: root_of(place.root, rank),
            ..place
        },
        progress: Progress {
            count: rank,
            ..progress
        },
        ..start
    };
    marks[own] = 1;
    let after = forest::<C>(first, left, lower, cuts, table, marks, index, kept);
    marks[own] = 0;
    after
}

// The rows that are flagged with 1, from position `first` to before `end`, with the nodes below them, where `left` is carried to them.
// Words of `kept` that belong to no node met are as they were.
pub fn cut_roots<C: Carrying>(
    first: u32,
    end: u32,
    left: C::Carried,
    start: Outset,
    cuts: &[u32],
    table: &[u32],
    marks: &mut [u32],
    index: &mut [u32],
    kept: &mut [u32],
) -> Progress
    requires walkable { Walkable (rows_of table.now) (length marks.old) }
    requires end_in_bounds { (end ≤ length (child_column table.now)) × (start.progress.count ≤ start.bounds.cap) × (start.bounds.cap ≤ 65535) × (8 + 6 * start.bounds.cap ≤ length index.old) × (C.size start.bounds.cap ≤ length kept.old) }
    ensures roots_pruned { RootsPruned (C.cut cuts.now) C.is_left left table.now start.place start.bounds first end start.progress marks.old marks.new index.old index.new result }
    ensures same_from { SameFrom (C.size result.count) kept.old kept.new }
{
    let Outset {
        place,
        bounds,
        progress,
    } = start;
    if bounds.limit < place.level {
        return progress;
    }
    let mut count = progress.count;
    let mut sum = progress.check;
    for p in first..end {
        if table::flag(table, p) != 1 {
            continue;
        }
        let own = C::cut(left, p, cuts, table);
        if !C::is_left(own) {
            continue;
        }
        if bounds.cap <= count {
            return Progress {
                count: bounds.cap + 1,
                check: sum,
            };
        }
        let lower = first_below(p, place.level, bounds.limit, table, marks);
        if table::rows(table) <= lower {
            let one = Progress {
                count: count + 1,
                check: sum,
            };
            sum = put_node(p, place, count, one, table, marks, index);
            count += 1;
            continue;
        }
        let before = Outset {
            progress: Progress { count, check: sum },
            ..start
        };
        let after = below::<C>(p, own, before, cuts, table, marks, index, kept);
        if bounds.cap < after.count {
            return after;
        }
        sum = put_node(p, place, count, after, table, marks, index);
        count = after.count;
    }
    Progress { count, check: sum }
}

// The rows that are flagged with 1, from position `first` to before `end`, with the nodes below them.
pub fn roots(
    first: u32,
    end: u32,
    place: Place,
    bounds: Bounds,
    progress: Progress,
    table: &[u32],
    marks: &mut [u32],
    index: &mut [u32],
) -> Progress
    requires walkable { Walkable (rows_of table.now) (length marks.old) }
    requires end_in_bounds { (end ≤ length (child_column table.now)) × (progress.count ≤ bounds.cap) × (bounds.cap ≤ 65535) × (8 + 6 * bounds.cap ≤ length index.old) }
    ensures { RootsFrom table.now place bounds first end progress marks.old marks.new index.old index.new result }
{
    let start = Outset {
        place,
        bounds,
        progress,
    };
    cut_roots::<Nothing>(first, end, (), start, &[], table, marks, index, &mut [])
}
