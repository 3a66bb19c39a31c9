// What the programs that run cases share: the paper's board with the index and the running totals that a build with code 3 makes of it, and how an answer is printed. Proved safe and ending; what they print is compared.
#![tactic(auto)]

use board::Board;
use rows::Row;

// A table of contents of 8 words, then numeral, row number, tree size, parent rank, root rank, and level with the bits of closing (2^30) and orphan (2^31), for each of 9 nodes.
pub const INDEX: [u32; 62] = [
    9, 8, 6, 440, 0, 0, 0, 0, 10, 1, 8, 0, 1, 1, 30, 3, 4, 1, 1, 2, 40, 5, 3, 2, 1, 3, 20, 6, 2, 3,
    1, 4, 40, 4, 1, 4, 1, 1073741829, 20, 2, 3, 1, 1, 2, 40, 4, 2, 6, 1, 3, 20, 6, 1, 7, 1,
    1073741828, 91, 7, 1, 0, 9, 2147483649,
];

pub const TOTALS: [i64; 10] = [0, 5, 9, 10, 9, 11, 14, 16, 15, 22];

// A list with one item changed, if it has that place.
pub fn changed<T: Copy, const N: usize>(list: [T; N], at: usize, item: T) -> [T; N] {
    let mut list = list;
    if at < N {
        list[at] = item;
    }
    list
}

pub fn yes_or_no(yes: bool) -> &'static str {
    if yes { "yes" } else { "no" }
}

pub fn row(parent: u32, numeral: u32, order: u32, minutes: i32) -> Row {
    rows::undated_row(parent, numeral, order, minutes)
}

// The seven rows of the listing program's board.
pub fn sample_board() -> Board {
    let mut board = Board::EMPTY;
    for added in [
        row(0, 10, 1, 5),
        row(10, 20, 2, 3),
        row(10, 30, 1, 4),
        row(20, 40, 1, 2),
        row(30, 40, 1, 1),
        row(40, 20, 1, -1),
        row(90, 91, 1, 7),
    ] {
        board = board.add(added).board;
    }
    board
}
