// The listing program: reads rows from standard input, builds with code 3 and prints one line for each node.
#![tactic(auto)]

use request::Start;
use std::io;

// The index holds 2,700 nodes: 8 words, then 6 for each node; the totals are one more than the nodes.
fn main(rt: HostRuntime) -> io::Result<()> {
    let mut out = rt.stdout();
    let load = streams::read_all(&mut rt.stdin());
    if streams::print_wrong(&mut out, &load)? {
        return Ok(());
    }
    let board = load.board;
    let unread = [0u32; 1];
    let mut index = [0u32; 16208];
    let mut totals = [0i64; 2701];
    let built = build::build(
        board,
        3,
        None,
        Start::ParentZero,
        &unread,
        &mut index,
        &mut totals,
    );
    match built {
        Ok(counts) => streams::print_listing(&mut out, &index, &totals, counts.nodes),
        Err(refusal) => streams::print_refusal(&mut out, refusal.number()),
    }
}
