// The last word of a body: level and two flags, packed and unpacked by shifts and masks.
#![tactic(auto)]

ghost use Rattle.std.specs.Prelude.{◌≡◌};
ghost use Rattle.packed.specs.LastWord.{level_of, closing_bit, orphan_bit, packed};

// The level in a body's last word.
pub fn level_of(word: u32) -> u32
    ensures { result ≡ level_of word }
{
    word & 65535
}

// Whether a body's last word says that its path is closing.
pub fn closing_of(word: u32) -> bool
    ensures { result ≡ closing_bit word }
{
    ((word >> 30) & 1) == 1
}

// Whether a body's last word says that its path is an orphan path.
pub fn orphan_of(word: u32) -> bool
    ensures { result ≡ orphan_bit word }
{
    (word >> 31) == 1
}

// A body's last word.
pub fn pack(level: u32, closing: bool, orphan: bool) -> u32
    ensures { result ≡ packed level closing orphan }
{
    (u32::from(orphan) << 31) | ((u32::from(closing) << 30) | (level & 65535))
}
