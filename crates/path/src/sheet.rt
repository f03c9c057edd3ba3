// A sheet's segments by number, and its text.
ghost use Rattle.std.specs.Prelude.{true, false, MatchResult, ◌≡◌, ◌+◌, ◌<◌, ◌≤◌, length};
ghost use Rattle.refusals.specs.declared.TextRefusal.TheVariants.{TooFar};
ghost use Rattle.grid.specs.Record.{box_near, curve_near, sound_of};
ghost use Rattle.path.specs.Drawn.{InRange};
ghost use Rattle.path.specs.Text.{text_of};
ghost use Rattle.path.specs.Writer.{put};
ghost use Rattle.path.specs.code.Writers.{HasRoom, Writes};
ghost use Rattle.path.specs.Segments.{drawn_of};
ghost use Rattle.path.specs.code.Strokes.{box_stroke, curve_stroke, IsSound, IsStroke, next_text};

use crate::drawn::Drawn;
use crate::stroke::{Stroke, drawn_of};
use crate::writer::{Writer, segment_len};
use grid::{BoxRecord, Curve, SheetRecord, sound};
use refusals::TextRefusal;

// A sound sheet, and how many segments it has.
#[derive(Clone, Copy)]
pub struct Sound<'a> {
    sheet: &'a SheetRecord,
    pub size: usize,
    ghost sound: { IsSound sheet.now },
    ghost whole: { size ≡ length (drawn_of sheet.now) },
}

// A sheet, judged: 14. Five segments a box, two a curve.
pub fn judged(s: &SheetRecord) -> Result<Sound<'_>, TextRefusal>
    ensures { MatchResult result (λ z. z.sheet.now ≡ s.now) (λ why. (why ≡ TooFar) × (sound_of s.now ≡ false)) }
{
    if !sound(s) {
        return Err(TextRefusal::TooFar);
    }
    let size = 5 * (s.count as usize) + 2 * (s.drawn as usize);
    Ok(Sound { sheet: s, size })
}

// Segment k of a box, clockwise from the top left.
fn box_stroke(x: u32, y: u32, b: BoxRecord, k: usize) -> Stroke
    requires { box_near x y b ≡ true }
    ensures { result ≡ box_stroke x y b k }
{
    let left = x + b.x;
    let top = y + b.y;
    let right = left + b.width;
    let bottom = top + b.height;
    match k {
        0 => Stroke::Move(left, top),
        1 => Stroke::Line(right, top),
        2 => Stroke::Line(right, bottom),
        3 => Stroke::Line(left, bottom),
        _ => Stroke::Close,
    }
}

// Segment k of a curve.
fn curve_stroke(x: u32, y: u32, c: Curve, k: usize) -> Stroke
    requires { curve_near x y c ≡ true }
    ensures { result ≡ curve_stroke x y c k }
{
    let x0 = x + c.x0;
    let y0 = y + c.y0;
    if k == 0 {
        return Stroke::Move(x0, y0);
    }
    Stroke::Curve(x0, y0, x + c.x1, y + c.y1)
}

// How many bytes segment k takes, with the space before it, if one stands before it.
fn next_len(k: usize, d: Drawn) -> usize
    requires { InRange d }
    ensures { result ≡ length (next_text k d) }
{
    let n = segment_len(d);
    if k == 0 {
        return n;
    }
    n + 1
}

// Writes segment k, with the space before it, if one stands before it.
fn put_next(w: &mut Writer, k: usize, d: Drawn)
    requires { HasRoom w.old (next_text k d) }
    ensures { Writes w.old (next_text k d) w.new }
{
    if 0 < k {
        w.byte(b' ');
    }
    w.segment(d);
}

impl Sound<'_> {
    // Segment k.
    pub fn stroke_at(&self, k: usize) -> Stroke
        requires { k < self.now.size }
        ensures { IsStroke (drawn_of self.now.sheet.now) k result }
    {
        let s = self.sheet;
        let n = 5 * (s.count as usize);
        if k < n {
            let b = s.boxes[k / 5];
            return box_stroke(s.x, s.y, b, k % 5);
        }
        let j = k - n;
        let c = s.curves[j / 2];
        curve_stroke(s.x, s.y, c, j % 2)
    }

    // How many bytes the text takes.
    pub fn text_len(&self) -> usize
        ensures { result ≡ length (text_of (drawn_of self.now.sheet.now)) }
    {
        (0..self.size)
            .map(|k| next_len(k, drawn_of(self.stroke_at(k))))
            .sum()
    }

    // The text at the start of a buffer that it fits.
    pub fn put_text(&self, buf: &mut [u8])
        requires { length (text_of (drawn_of self.now.sheet.now)) ≤ length buf.old }
        ensures { buf.new ≡ put buf.old 0 (text_of (drawn_of self.now.sheet.now)) }
    {
        let mut w = Writer { buf, at: 0 };
        for k in 0..self.size {
            put_next(&mut w, k, drawn_of(self.stroke_at(k)));
        }
    }
}
