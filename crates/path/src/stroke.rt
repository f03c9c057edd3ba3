// A segment of a sheet in whole numbers, the origin added: handed out in single precision, written in doubled whole numbers.
ghost use Rattle.std.specs.Prelude.{◌≡◌, ◌*◌, ◌≤◌};
ghost use Rattle.path.specs.Number.{limit};
ghost use Rattle.path.specs.Drawn.{pen_of, segment_of};
ghost use Rattle.path.specs.code.Strokes.{doubled_of, InReach};

use crate::drawn::Drawn;
use crate::halves::{halfway, whole};
use crate::{Pen, Segment};

// A curve is given by its two ends.
#[derive(Clone, Copy)]
pub enum Stroke {
    Move(u32, u32),
    Line(u32, u32),
    Curve(u32, u32, u32, u32),
    Close,
}

// The same in doubled whole numbers.
pub fn drawn_of(t: Stroke) -> Drawn
    requires { InReach t }
    ensures { result ≡ doubled_of t }
{
    match t {
        Stroke::Move(x, y) => Drawn::Move(2 * x, 2 * y),
        Stroke::Line(x, y) => Drawn::Line(2 * x, 2 * y),
        Stroke::Curve(x0, y0, x1, y1) => Drawn::Cubic(
            2 * x0,
            y0 + y1,
            2 * x1,
            y0 + y1,
            2 * x1,
            2 * y1,
        ),
        Stroke::Close => Drawn::Close,
    }
}

fn pen_at(x: u32, y: u32) -> Pen
    requires { (x ≤ limit) × (y ≤ limit) }
    ensures { result ≡ pen_of (2 * x) (2 * y) }
{
    Pen {
        x: whole(x),
        y: whole(y),
    }
}

// The cubic from x0 y0 to x1 y1: its controls are at both x with y halfway.
fn cubic_to(x0: u32, y0: u32, x1: u32, y1: u32) -> Segment
    requires x0_le_limit { (x0 ≤ limit) × (y0 ≤ limit) }
    requires x1_le_limit { (x1 ≤ limit) × (y1 ≤ limit) }
    ensures { result ≡ segment_of (doubled_of (Stroke.Curve x0 y0 x1 y1)) }
{
    let h = halfway(y0, y1);
    let first = Pen { x: whole(x0), y: h };
    let second = Pen { x: whole(x1), y: h };
    Segment::Cubic(first, second, pen_at(x1, y1))
}

// The same in single precision: nothing is rounded.
pub fn pens_of(t: Stroke) -> Segment
    requires { InReach t }
    ensures { result ≡ segment_of (doubled_of t) }
{
    match t {
        Stroke::Move(x, y) => Segment::Move(pen_at(x, y)),
        Stroke::Line(x, y) => Segment::Line(pen_at(x, y)),
        Stroke::Curve(x0, y0, x1, y1) => cubic_to(x0, y0, x1, y1),
        Stroke::Close => Segment::Close,
    }
}
