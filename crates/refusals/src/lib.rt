// The refusals of documents 01 and 02 by name, and the two numbers that the documents give each.
#![tactic(auto)]

ghost use Rattle.std.specs.Prelude.{◌≡◌, Some};
ghost use Rattle.refusals.specs.Refusals.{numbers_of, text_numbers_of, refused_text};

use std::fmt;

// Why a chart has no sheet, or a sheet no such box or label, in the order in which the documents look.
#[derive(Clone, Copy, PartialEq, Eq)]
pub enum Refusal {
    // 1. The chart has one byte.
    OneByte,
    // 2. Byte 0 isn't 1.
    OtherFormat,
    // 3. n exceeds 32.
    ManyNodes,
    // 4. The contents are cut short.
    CutContents,
    // 5. Entry k isn't where body k begins.
    Misplaced,
    // 6. The chart ends inside a body's count, item head or text.
    CutBody,
    // 7. A body has more than 4 lines.
    ManyLines,
    // 8. A length exceeds 24.
    LongText,
    // 9. A text byte is outside 32 to 126, and is no part of a degree sign.
    NotText,
    // 10. Bytes follow the last body.
    BytesAfter,
    // 11. More than 64 sources and sinks.
    ManyEnds,
    // 12. A target isn't below n: the first such.
    Outside(u8),
    // 13. A cut or a lead to nothing would make more than 48 boxes.
    ManyBoxes,
    // 14. Origin plus total exceeds 8,388,608; a count is past its array.
    TooFar,
    // 15. A box or label number that isn't there, or a lent table that isn't the fixed texts.
    NotThere,
}

// Why a path text is not read, or a sheet's text not written.
#[derive(Clone, Copy, PartialEq, Eq)]
pub enum TextRefusal {
    // 14. A position of the sheet exceeds 8,388,608, or a count is past its array.
    TooFar,
    // 15. A segment number that isn't there.
    NotThere,
    // 16. The buffer is too short: the length needed.
    ShortBuffer(usize),
    // 17. No profile text continues so: the byte's place, or the length if the text breaks off.
    NotProfile(usize),
    // 18. A number is too large: the place of its first digit.
    LargeNumber(usize),
    // 19. A path begins with L, C or Z.
    NoMove,
}

// The documents' two numbers of a refusal.
#[derive(Clone, Copy, PartialEq, Eq)]
pub struct Numbers {
    pub first: u8,
    pub second: usize,
}

impl Refusal {
    // The number of the refusal, and its second number: 0 unless said.
    pub fn numbers(self) -> Numbers
        ensures { result ≡ numbers_of self }
    {
        let first = match self {
            Refusal::OneByte => 1,
            Refusal::OtherFormat => 2,
            Refusal::ManyNodes => 3,
            Refusal::CutContents => 4,
            Refusal::Misplaced => 5,
            Refusal::CutBody => 6,
            Refusal::ManyLines => 7,
            Refusal::LongText => 8,
            Refusal::NotText => 9,
            Refusal::BytesAfter => 10,
            Refusal::ManyEnds => 11,
            Refusal::Outside(_) => 12,
            Refusal::ManyBoxes => 13,
            Refusal::TooFar => 14,
            Refusal::NotThere => 15,
        };
        let second = match self {
            Refusal::Outside(target) => target as usize,
            _ => 0,
        };
        Numbers { first, second }
    }
}

impl TextRefusal {
    // The number of the refusal, and its second number.
    pub fn numbers(self) -> Numbers
        ensures { result ≡ text_numbers_of self }
    {
        match self {
            TextRefusal::TooFar => Numbers {
                first: 14,
                second: 0,
            },
            TextRefusal::NotThere => Numbers {
                first: 15,
                second: 0,
            },
            TextRefusal::ShortBuffer(needed) => Numbers {
                first: 16,
                second: needed,
            },
            TextRefusal::NotProfile(at) => Numbers {
                first: 17,
                second: at,
            },
            TextRefusal::LargeNumber(at) => Numbers {
                first: 18,
                second: at,
            },
            TextRefusal::NoMove => Numbers {
                first: 19,
                second: 0,
            },
        }
    }
}

// As the programs print a refusal.
impl fmt::Display for Numbers {
    ghost output = { λ n. Some (refused_text n) };

    fn fmt<W: fmt::Write>(&self, f: &mut fmt::Formatter<W>) -> fmt::Result {
        write!(f, "refused {} {}", self.first, self.second)
    }
}
