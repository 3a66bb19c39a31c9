// Runs the index check on the example index of paper 01, on one slice for each condition that breaks it alone, on some that
// break none, and on indexes of 65,535 nodes. Writes one line for each.
#![tactic(auto)]

ghost use Rattle.std.specs.Prelude.{◌≤◌};

use cases::{changed, yes_or_no};
use std::io;

fn report(rt: &impl Print, name: &str, index: &[u32]) -> io::Result<()> {
    println!(rt; "{name}: {}", yes_or_no(index_check::index_check(index)))
}

// The example with one word changed.
fn report_changed(rt: &impl Print, name: &str, at: usize, word: u32) -> io::Result<()> {
    report(rt, name, &changed(cases::INDEX, at, word))
}

// The example with the last four words of a rank's body changed, and the check word made right again.
fn report_body(
    rt: &impl Print,
    name: &str,
    rank: usize,
    size: u32,
    parent: u32,
    root: u32,
    word: u32,
) -> io::Result<()>
    requires { (1 ≤ rank) × (rank ≤ 9) }
{
    let mut index = cases::INDEX;
    let at = image::body_at(rank);
    index[at + 2] = size;
    index[at + 3] = parent;
    index[at + 4] = root;
    index[at + 5] = word;
    index[3] = image::add_words(&index[8..], 0);
    report(rt, name, &index)
}

// The example without its last node, rank 8 with another size: no rank follows that a size above 1 would take in.
fn report_eight(rt: &impl Print, name: &str, size: u32) -> io::Result<()> {
    let mut index = cases::INDEX;
    index[0] = 8;
    index[52] = size;
    index[3] = image::add_words(&index[8..56], 0);
    report(rt, name, &index)
}

// A node of an index of 65,535 roots; or else of a chain of 65,534 nodes, each below the one before it, and a root.
fn node(rank: u32, roots: bool) -> image::Body
    requires { (1 ≤ rank) × (rank ≤ 65535) }
{
    let root = image::Body {
        numeral: 1,
        row: 1,
        size: 1,
        parent: 0,
        root: rank,
        level: 1,
        closing: false,
        orphan: false,
    };
    if roots || rank == 65535 {
        return root;
    }
    image::Body {
        size: 65535 - rank,
        parent: rank - 1,
        root: 1,
        level: rank,
        ..root
    }
}

fn fill(index: &mut [u32], roots: bool) {
    let mut check: u32 = 0;
    for rank in 1..=65535u32 {
        let at = image::bodies_end(rank - 1);
        if at <= index.len() {
            check = image::write_body(&mut index[at..], node(rank, roots), check);
        }
    }
    image::write_contents(index, 65535, check);
}

fn report_large(rt: &impl Print) -> io::Result<()> {
    let mut index = [0u32; 393218];
    fill(&mut index, true);
    report(rt, "65535 roots", &index)?;
    fill(&mut index, false);
    report(rt, "a chain of 65534 nodes and a root", &index)
}

fn main(rt: HostRuntime) -> io::Result<()> {
    report(&rt, "example", &cases::INDEX)?;
    report(&rt, "one word less", &cases::INDEX[..61])?;
    report(&rt, "no words", &cases::INDEX[..0])?;
    report_changed(&rt, "word 1 is 7", 1, 7)?;
    report_changed(&rt, "word 2 is 7", 2, 7)?;
    report_changed(&rt, "10 nodes where 9 fit", 0, 10)?;
    report_changed(&rt, "65536 nodes", 0, 65536)?;
    report_changed(&rt, "check word too large by 1", 3, 441)?;
    report_changed(&rt, "word 4 is 1", 4, 1)?;
    report_changed(&rt, "word 7 is 1", 7, 1)?;
    report_body(&rt, "size 0", 9, 0, 0, 9, 2147483649)?;
    report_body(&rt, "root that ends after n", 9, 2, 0, 9, 2147483649)?;
    report_body(&rt, "size 4294967295", 9, 4294967295, 0, 9, 2147483649)?;
    report_eight(&rt, "8 nodes", 1)?;
    report_eight(&rt, "child that ends one after its parent's end", 2)?;
    report_body(
        &rt,
        "parent whose interval doesn't contain the rank",
        9,
        1,
        8,
        1,
        2147483653,
    )?;
    report_body(&rt, "parent that isn't the largest", 8, 1, 1, 1, 1073741826)?;
    report_body(&rt, "parent 0 below a node", 8, 1, 0, 8, 1073741825)?;
    report_body(&rt, "parent 4294967295", 9, 1, 4294967295, 9, 2147483649)?;
    report_body(&rt, "root with level 0", 9, 1, 0, 9, 2147483648)?;
    report_body(&rt, "root with level 2", 9, 1, 0, 9, 2147483650)?;
    report_body(&rt, "root with level 65535", 9, 1, 0, 9, 2147549183)?;
    report_body(
        &rt,
        "child two levels below its parent",
        8,
        1,
        7,
        1,
        1073741829,
    )?;
    report_body(&rt, "child with its parent's level", 8, 1, 7, 1, 1073741827)?;
    report_body(
        &rt,
        "child with a level less than its parent's",
        8,
        1,
        7,
        1,
        1073741826,
    )?;
    report_body(
        &rt,
        "root with another's rank as root rank",
        9,
        1,
        0,
        1,
        2147483649,
    )?;
    report_body(
        &rt,
        "child with its own rank as root rank",
        8,
        1,
        7,
        8,
        1073741828,
    )?;
    report_body(&rt, "bit 16", 9, 1, 0, 9, 2147549185)?;
    report_body(&rt, "bit 29", 9, 1, 0, 9, 2684354561)?;
    report_body(&rt, "bits 30 and 31", 9, 1, 0, 9, 3221225473)?;
    report_large(&rt)
}
