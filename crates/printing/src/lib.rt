// A line of output, written from its end to its front, so that each number's digits come in the order in which they are found.
#![tactic(auto)]

ghost use Rattle.std.specs.Prelude.{◌≡◌, nat_abs};
ghost use Rattle.printing.specs.Printed.{line_of};
ghost use Rattle.printing.specs.PrintedLayer.{fresh_of, byte_of, number_of, signed_of, column_of, flag_of, last_columns_of};

// What is printed of a node, column by column.
#[derive(Clone, Copy)]
pub struct Columns {
    pub rank: u32,
    pub size: u32,
    pub parent: u32,
    pub level: u32,
    pub root: u32,
    pub closing: bool,
    pub orphan: bool,
    pub numeral: u32,
    pub sum: i64,
}

// The text stands in the last places of `bytes`, from place `from` on.
#[derive(Clone, Copy)]
pub struct Printed {
    pub from: usize,
    pub bytes: [u8; 256],
}

// The number n without its sign, as it is printed after a minus sign.
pub fn magnitude(n: i64) -> u64
    ensures { result ≡ nat_abs n }
{
    n.unsigned_abs()
}

impl Printed {
    #[tactic(auto, unfolding(crate::specs::PrintedLayer::fresh_of))]
    fn new() -> Printed
        ensures { result ≡ fresh_of }
    {
        Printed {
            from: 256,
            bytes: [0; 256],
        }
    }

    // A byte goes before the text.
    #[tactic(auto, unfolding(crate::specs::PrintedLayer::byte_of))]
    fn byte(self, b: u8) -> Printed
        ensures { result ≡ byte_of self b }
    {
        let from = self.from;
        if from < 1 {
            return self;
        }
        if 256 < from {
            return self;
        }
        let mut next = self;
        let at = from - 1;
        next.bytes[at] = b;
        next.from = at;
        next
    }

    // The digits of n go before the text.
    fn number(self, n: u64) -> Printed
        ensures { result ≡ number_of self n }
    {
        let from = self.from;
        if from < 20 {
            return self;
        }
        if 256 < from {
            return self;
        }
        let mut bytes = self.bytes;
        let mut at = from;
        let mut rest = n;
        while 10 <= rest {
            at -= 1;
            bytes[at] = 48 + (rest % 10) as u8;
            rest /= 10;
        }
        at -= 1;
        bytes[at] = 48 + rest as u8;
        Printed { from: at, bytes }
    }

    // The digits of n, with a minus sign if it is negative, go before the text.
    #[tactic(auto, unfolding(crate::specs::PrintedLayer::signed_of))]
    fn signed(self, n: i64) -> Printed
        ensures { result ≡ signed_of self n }
    {
        let digits = self.number(magnitude(n));
        if n < 0 {
            return digits.byte(45);
        }
        digits
    }

    // The digits of n and a space go before the text.
    #[tactic(auto, unfolding(crate::specs::PrintedLayer::column_of))]
    fn column(self, n: u32) -> Printed
        ensures { result ≡ column_of self n }
    {
        self.byte(32).number(n as u64)
    }

    // 1 or 0 and a space go before the text.
    #[tactic(auto, unfolding(crate::specs::PrintedLayer::flag_of))]
    fn flag(self, set: bool) -> Printed
        ensures { result ≡ flag_of self set }
    {
        let spaced = self.byte(32);
        if set {
            spaced.byte(49)
        } else {
            spaced.byte(48)
        }
    }
}

// The flags, the numeral and the sum, with the line's end.
#[tactic(auto, unfolding(crate::specs::PrintedLayer::last_columns_of))]
fn last_columns(c: Columns) -> Printed
    ensures { result ≡ last_columns_of c }
{
    let sum = Printed::new().byte(10).signed(c.sum);
    sum.column(c.numeral).flag(c.orphan).flag(c.closing)
}

// A node's line.
#[tactic(auto, unfolding(crate::specs::PrintedLayer::all_columns_of), using(crate::specs::LineLaws::line_is))]
pub fn line(c: Columns) -> Printed
    ensures { result ≡ line_of c }
{
    let last = last_columns(c);
    last.column(c.root)
        .column(c.level)
        .column(c.parent)
        .column(c.size)
        .column(c.rank)
}
