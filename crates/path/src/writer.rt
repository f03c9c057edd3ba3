// The text of a segment.
ghost use Rattle.std.specs.Prelude.{◌≡◌, [], ◌∷◌, length};
ghost use Rattle.path.specs.Number.{number_text};
ghost use Rattle.path.specs.Text.{segment_text, pair_text};
ghost use Rattle.path.specs.code.Writers.{HasRoom, Writes};

use crate::drawn::Drawn;
use crate::number::{number_len, put_digits};

// How many bytes a space, a number, a space and a number take.
fn pair_len(x: u32, y: u32) -> usize
    ensures { result ≡ length (pair_text x y) }
{
    number_len(x) + number_len(y) + 2
}

// How many bytes the text of a segment takes.
pub fn segment_len(d: Drawn) -> usize
    ensures { result ≡ length (segment_text d) }
{
    match d {
        Drawn::Move(x, y) => pair_len(x, y) + 1,
        Drawn::Line(x, y) => pair_len(x, y) + 1,
        Drawn::Cubic(a, b, c, d, x, y) => pair_len(a, b) + pair_len(c, d) + pair_len(x, y) + 1,
        Drawn::Close => 1,
    }
}

// A buffer, and the place in it where the next text goes.
#[derive(Drop)]
pub struct Writer<'a> {
    pub buf: &'a mut [u8],
    pub at: usize,
}

impl Writer<'_> {
    pub fn byte(&mut self, b: u8)
        requires { HasRoom self.old (b ∷ []) }
        ensures { Writes self.old (b ∷ []) self.new }
    {
        self.buf[self.at] = b;
        self.at += 1;
    }

    // The text of h halves.
    fn number(&mut self, h: u32)
        requires { HasRoom self.old (number_text h) }
        ensures { Writes self.old (number_text h) self.new }
    {
        self.at = put_digits(&mut *self.buf, self.at, h / 2);
        if h % 2 != 0 {
            self.byte(b'.');
            self.byte(b'5');
        }
    }

    // A space and a number.
    fn word(&mut self, h: u32)
        requires { HasRoom self.old (32 ∷ number_text h) }
        ensures { Writes self.old (32 ∷ number_text h) self.new }
    {
        self.byte(b' ');
        self.number(h);
    }

    // Two of them.
    fn pair(&mut self, x: u32, y: u32)
        requires { HasRoom self.old (pair_text x y) }
        ensures { Writes self.old (pair_text x y) self.new }
    {
        self.word(x);
        self.word(y);
    }

    // A letter and a pair.
    fn to(&mut self, b: u8, x: u32, y: u32)
        requires { HasRoom self.old (b ∷ pair_text x y) }
        ensures { Writes self.old (b ∷ pair_text x y) self.new }
    {
        self.byte(b);
        self.pair(x, y);
    }

    // The text of a segment.
    pub fn segment(&mut self, d: Drawn)
        requires { HasRoom self.old (segment_text d) }
        ensures { Writes self.old (segment_text d) self.new }
    {
        match d {
            Drawn::Move(x, y) => self.to(b'M', x, y),
            Drawn::Line(x, y) => self.to(b'L', x, y),
            Drawn::Cubic(a, b, c, d, x, y) => {
                self.to(b'C', a, b);
                self.pair(c, d);
                self.pair(x, y);
            }
            Drawn::Close => self.byte(b'Z'),
        }
    }
}
