// A segment in doubled whole numbers (halves), and the same in single precision.
ghost use Rattle.std.specs.Prelude.{◌≡◌, ◌≤◌};
ghost use Rattle.path.specs.Halves.{halves};
ghost use Rattle.path.specs.Number.{limit_halves};
ghost use Rattle.path.specs.Drawn.{pen_of, segment_of, InRange};

use crate::halves::halfway;
use crate::{Pen, Segment};

// What is written and read.
#[derive(Clone, Copy)]
pub enum Drawn {
    Move(u32, u32),
    Line(u32, u32),
    Cubic(u32, u32, u32, u32, u32, u32),
    Close,
}

// h halves as a float: exact.
fn half_of(h: u32) -> f32
    requires { h ≤ limit_halves }
    ensures { result ≡ halves h }
{
    let a = h / 2;
    halfway(a, h - a)
}

fn pen_of(x: u32, y: u32) -> Pen
    requires { (x ≤ limit_halves) × (y ≤ limit_halves) }
    ensures { result ≡ pen_of x y }
{
    Pen {
        x: half_of(x),
        y: half_of(y),
    }
}

// The segment in single precision: nothing is rounded.
pub fn segment_of(d: Drawn) -> Segment
    requires { InRange d }
    ensures { result ≡ segment_of d }
{
    match d {
        Drawn::Move(x, y) => Segment::Move(pen_of(x, y)),
        Drawn::Line(x, y) => Segment::Line(pen_of(x, y)),
        Drawn::Cubic(a, b, c, d, x, y) => Segment::Cubic(pen_of(a, b), pen_of(c, d), pen_of(x, y)),
        Drawn::Close => Segment::Close,
    }
}
