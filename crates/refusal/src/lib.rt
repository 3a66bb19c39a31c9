// Why a call is refused: the reasons of the papers, each with its number. A replay of calls told by words has reasons of its own, in crate history.
#![tactic(auto)]

ghost use Rattle.std.specs.Prelude.{◌≡◌};
ghost use Rattle.refusal.specs.Numbers.{number};

use std::error::Error;
use std::fmt;

// The numbers run from 1 without a gap, so that the compiler adds 1 and needs no table of them.
#[derive(Clone, Copy, Debug, PartialEq, Eq, Hash)]
pub enum Refusal {
    // The board isn't sound.
    UnsoundBoard = 1,
    // An added row has numeral 0.
    NumeralZero = 2,
    // A row is added to 1,024 rows.
    FullBoard = 3,
    // A withdrawn or remarked row number is 0 or above the count, or a pulled one is 0.
    NoSuchRow = 4,
    // Undo finds no kept step.
    NothingKept = 5,
    // The option code is above 23.
    UnknownCode = 6,
    // A depth is given and orphans aren't ignored; of a dated build also without a depth.
    DepthWithOrphans = 7,
    // Orphans are to be adopted, there is one, on an island too, and there is no start row to adopt it.
    NoStartRow = 8,
    // There are over 65,535 nodes, or more than one of the slices holds.
    TooManyNodes = 9,
    // A node closes a cycle, and cycles are refused.
    ClosingNode = 10,
    // Nodes share a numeral in a way that is refused.
    SharedNumeral = 11,
    // A row ends no regular path, and orphans are refused.
    UnreachedRow = 12,
    // The slice has no table of contents that fits it, or a sum or a pull gets too few totals.
    NoIndex = 13,
    // A rank is 0 or above the number of nodes.
    NoSuchRank = 14,
    // The words of the index or the totals contradict themselves, or a pull would bring a total beyond 2^47.
    DamagedIndex = 15,
    // The list found is longer than its slice.
    ListTooLong = 16,
    // Redo finds no undone step.
    NothingUndone = 17,
    // A levelled list has a width of 0 or above 8, or its cells are no whole number of lines.
    NotWholeLines = 18,
    // A levelled list has more than 512 lines.
    TooManyLines = 19,
    // The first day of an added row, or of a window, is after its last.
    NoDays = 20,
}

impl Refusal {
    // The number that the papers and C know it by.
    pub fn number(self) -> u32
        ensures { result ≡ number self }
    {
        self as u32
    }
}

impl From<Refusal> for u32 {
    ghost from_gives = { λ refusal n. n ≡ number refusal };

    fn from(refusal: Refusal) -> u32 {
        refusal.number()
    }
}

impl fmt::Display for Refusal {
    fn fmt<W: fmt::Write>(&self, f: &mut fmt::Formatter<W>) -> fmt::Result {
        write!(f, "refused {}", self.number())
    }
}

impl Error for Refusal {}
