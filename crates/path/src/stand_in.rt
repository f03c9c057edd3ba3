// The stand-in table: its texts, each by its number, end to end.
ghost use Rattle.std.specs.Prelude.{◌≡◌, ◌<◌, length, get_or};
ghost use Rattle.laws.specs.Bytes.{ascii, same};
ghost use Rattle.path.specs.Writer.{put};
ghost use Rattle.path.specs.Label.{stand_in, stand_ins_to, stand_ins, stand_in_span};
ghost use Rattle.path.specs.code.StandIns.{shown_in, places_of, digit_of};

use std::ops::Range;

// The table has so many texts and so many bytes.
pub const TEXTS: u16 = 287;

pub const TABLE_BYTES: usize = 3293;

// A text of the table.
#[derive(Clone, Copy)]
pub struct StandIn {
    pub number: u16,
    ghost there: { number < 287 },
}

// How many digits a number below 1,000 has. (Of any number: number.rt; by two tests it needs no division.)
fn places_of(v: u16) -> usize
    ensures { result ≡ places_of v }
{
    match v {
        0..=9 => 1,
        10..=99 => 2,
        _ => 3,
    }
}

// The digit of v with so many after it.
fn digit_of(v: u16, after: usize) -> u8
    ensures { result ≡ digit_of v after }
{
    let digit = match after {
        0 => v % 10,
        1 => v / 10 % 10,
        _ => v / 100 % 10,
    };
    b'0' + digit as u8
}

// Byte i of `(invalid)`.
fn invalid_byte(i: usize) -> u8
    requires { i < 9 }
    ensures { result ≡ get_or (ascii "(invalid)") i 0 }
{
    b"(invalid)"[i]
}

impl StandIn {
    // The number that it shows.
    fn shown(self) -> u16
        ensures { result ≡ shown_in self.number }
    {
        if self.number < 32 {
            self.number
        } else {
            self.number - 31
        }
    }

    // Its byte i: `#`, the number, and from text 32 on `(invalid)`. (The label calls never hold the table: a long byte string would be made on the stack at each call.)
    fn byte(self, i: usize) -> u8
        requires { i < length (stand_in self.number) }
        ensures { result ≡ get_or (stand_in self.number) i 0 }
    {
        if i == 0 {
            return b'#';
        }
        let v = self.shown();
        let d = places_of(v);
        if d < i {
            return invalid_byte(i - d - 1);
        }
        digit_of(v, d - i)
    }

    // Whether a part as long as it is this text.
    fn is_same(self, part: &[u8]) -> bool
        requires { length part.now ≡ length (stand_in self.number) }
        ensures { result ≡ same part.now (stand_in self.number) }
    {
        part.iter().enumerate().all(|(i, b)| *b == self.byte(i))
    }

    // Where it stands in the table.
    pub fn range(self) -> Range<usize>
        ensures { result ≡ stand_in_span self.number }
    {
        let n = self.number as usize;
        match n {
            0..=9 => 2 * n..2 * n + 2,
            10..=31 => 3 * n - 10..3 * n - 7,
            32..=40 => 11 * n - 266..11 * n - 255,
            41..=130 => 12 * n - 307..12 * n - 295,
            _ => 13 * n - 438..13 * n - 425,
        }
    }

    // Puts it at its place in a table.
    pub fn put(self, table: &mut [u8; TABLE_BYTES])
        ensures { table.new ≡ put table.old (length (stand_ins_to self.number)) (stand_in self.number) }
    {
        let s = self.range();
        for i in 0..s.end - s.start {
            table[s.start + i] = self.byte(i);
        }
    }
}

// Whether a lent table is the stand-in table.
pub fn is_stand_ins(table: &[u8]) -> bool
    ensures { result ≡ same table.now stand_ins }
{
    if table.len() != TABLE_BYTES {
        return false;
    }
    for j in 0..TEXTS {
        let text = StandIn { number: j };
        if !text.is_same(&table[text.range()]) {
            return false;
        }
    }
    true
}
