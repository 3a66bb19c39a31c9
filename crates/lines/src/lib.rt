// The scan of lines `parent numeral order minutes`, byte by byte: its state is a value that goes from chunk to chunk, so a line may have any length.
#![tactic(auto)]

ghost use Rattle.std.specs.Prelude.{◌≡◌, ◌<◌, drop};
ghost use Rattle.lines.specs.Scan.{fresh, blank_of, finish_of, digit_of, space_of, minus_of, step_of, next_of};

// The numbers of a row.
#[derive(Clone, Copy)]
pub struct Values {
    pub parent: u32,
    pub numeral: u32,
    pub order: u32,
    pub minutes: i32,
}

// A line is no row.
#[derive(Clone, Copy)]
pub struct BadLine;

// Where a line's scan stands: the field that is being read (0 to 3), whether it has a digit yet, whether it has a minus sign,
// its number so far, and the fields before it. The field is a number and not an enum, and its number so far 64 bits wide: `next` and `finish` take any scan.
#[derive(Clone, Copy)]
pub struct Scan {
    pub field: u32,
    pub digits: bool,
    pub minus: bool,
    pub value: u64,
    pub parent: u32,
    pub numeral: u32,
    pub order: u32,
}

// What one byte does: the line goes on, or it has ended in a row.
#[derive(Clone, Copy)]
pub enum Step {
    More(Scan),
    Row(Values),
}

// What a scan from a place of a chunk finds: a row and the place after it, or the chunk's end.
#[derive(Clone, Copy)]
pub enum Found {
    Row(Values, usize),
    More(Scan),
}

impl Scan {
    // The start of a line.
    pub fn new() -> Self
        ensures { result ≡ fresh }
    {
        Scan {
            field: 0,
            digits: false,
            minus: false,
            value: 0,
            parent: 0,
            numeral: 0,
            order: 0,
        }
    }

    // Whether the line has no byte yet.
    pub fn blank(self) -> bool
        ensures { result ≡ blank_of self }
    {
        self.field == 0 && !self.digits
    }

    // One more digit.
    fn digit(self, d: u64) -> Result<Self, BadLine>
        requires { d < 10 }
        ensures { result ≡ digit_of self d }
    {
        let tens = self.value.checked_mul(10).ok_or(BadLine)?;
        let value = tens.checked_add(d).ok_or(BadLine)?;
        if 4294967295 < value {
            return Err(BadLine);
        }
        Ok(Scan {
            digits: true,
            value,
            ..self
        })
    }

    // The line has ended.
    pub fn finish(self) -> Result<Values, BadLine>
        ensures { result ≡ finish_of self }
    {
        if self.field != 3 || !self.digits {
            return Err(BadLine);
        }
        let value = i64::try_from(self.value).map_err(|_| BadLine)?;
        let minutes = if self.minus { -value } else { value };
        let minutes = i32::try_from(minutes).map_err(|_| BadLine)?;
        Ok(Values {
            parent: self.parent,
            numeral: self.numeral,
            order: self.order,
            minutes,
        })
    }

    // A space: one of the first three fields has ended.
    fn space(self) -> Result<Self, BadLine>
        ensures { result ≡ space_of self }
    {
        if !self.digits {
            return Err(BadLine);
        }
        let value = (self.value % 4294967296) as u32;
        let next = Scan {
            digits: false,
            minus: false,
            value: 0,
            ..self
        };
        match self.field {
            0 => Ok(Scan {
                field: 1,
                parent: value,
                ..next
            }),
            1 => Ok(Scan {
                field: 2,
                numeral: value,
                ..next
            }),
            2 => Ok(Scan {
                field: 3,
                order: value,
                ..next
            }),
            _ => Err(BadLine),
        }
    }

    // A minus sign: the first byte of the last field.
    fn minus(self) -> Result<Self, BadLine>
        ensures { result ≡ minus_of self }
    {
        if self.field != 3 || self.digits || self.minus {
            return Err(BadLine);
        }
        Ok(Scan {
            minus: true,
            value: 0,
            ..self
        })
    }

    // One more byte of the text.
    #[tactic(auto, unfolding(crate::specs::Scan::step_of))]
    fn step(self, b: u8) -> Result<Step, BadLine>
        ensures { result ≡ step_of self b }
    {
        match b {
            b'\n' => Ok(Step::Row(self.finish()?)),
            b' ' => Ok(Step::More(self.space()?)),
            b'-' => Ok(Step::More(self.minus()?)),
            b'0'..=b'9' => Ok(Step::More(self.digit(u64::from(b - b'0'))?)),
            _ => Err(BadLine),
        }
    }
}

// Goes on with a scan from a place of a chunk, to the end of the line or of the chunk.
#[tactic(auto, using(crate::proofs::Turn::turn, crate::proofs::Turn::ended))]
pub fn next(s: &[u8], from: usize, scan: Scan) -> Result<Found, BadLine>
    ensures { result ≡ next_of scan from (drop from s.now) }
{
    let mut now = scan;
    for i in from..s.len() {
        match now.step(s[i])? {
            Step::More(more) => now = more,
            Step::Row(values) => return Ok(Found::Row(values, i + 1)),
        }
    }
    Ok(Found::More(now))
}
