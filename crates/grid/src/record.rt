// A sheet's record, as a caller holds it.
ghost use Rattle.std.specs.Prelude.{◌≡◌};
ghost use Rattle.laws.specs.Bytes.{all_of};
ghost use Rattle.grid.specs.Record.{no_sheet, near as near_of, box_near, curve_near, sound_of, box_answer_of};

use crate::{BoxRecord, Curve, FARTHEST, SheetRecord};
use refusals::Refusal;

// A sheet with every field 0.
pub fn no_sheet() -> SheetRecord
    ensures { result ≡ no_sheet }
{
    SheetRecord {
        width: 0,
        height: 0,
        x: 0,
        y: 0,
        columns: 0,
        rows: 0,
        cuts: 0,
        count: 0,
        drawn: 0,
        boxes: [BoxRecord::default(); 48],
        curves: [Curve::default(); 88],
    }
}

// A sum that single precision holds.
fn near(n: u64) -> bool
    ensures { result ≡ near_of n }
{
    n <= FARTHEST
}

// The box's right and bottom sides are near, with the origin.
fn box_near(x: u32, y: u32, b: &BoxRecord) -> bool
    ensures { result ≡ box_near x y b.now }
{
    let right = x as u64 + b.x as u64 + b.width as u64;
    let bottom = y as u64 + b.y as u64 + b.height as u64;
    near(right) && near(bottom)
}

// The curve's two ends are near, with the origin.
fn curve_near(x: u32, y: u32, c: &Curve) -> bool
    ensures { result ≡ curve_near x y c.now }
{
    let x0 = x as u64 + c.x0 as u64;
    let y0 = y as u64 + c.y0 as u64;
    let x1 = x as u64 + c.x1 as u64;
    let y1 = y as u64 + c.y1 as u64;
    near(x0) && near(y0) && near(x1) && near(y1)
}

// Every box is near, with the origin.
fn boxes_near(x: u32, y: u32, boxes: &[BoxRecord]) -> bool
    ensures { result ≡ all_of (box_near x y) boxes.now }
{
    boxes.iter().all(|b| box_near(x, y, b))
}

// Every curve is near, with the origin.
fn curves_near(x: u32, y: u32, curves: &[Curve]) -> bool
    ensures { result ≡ all_of (curve_near x y) curves.now }
{
    curves.iter().all(|c| curve_near(x, y, c))
}

// No count is past its array, and no position too far.
pub fn sound(s: &SheetRecord) -> bool
    ensures { result ≡ sound_of s.now }
{
    if s.count > 48 || s.drawn > 88 {
        return false;
    }
    let boxes = &s.boxes[..s.count as usize];
    let curves = &s.curves[..s.drawn as usize];
    boxes_near(s.x, s.y, boxes) && curves_near(s.x, s.y, curves)
}

// Box k of a sheet.
pub fn box_of(s: &SheetRecord, k: usize) -> Result<BoxRecord, Refusal>
    ensures { result ≡ box_answer_of s.now k }
{
    if !sound(s) {
        return Err(Refusal::TooFar);
    }
    if k >= s.count as usize {
        return Err(Refusal::NotThere);
    }
    Ok(s.boxes[k])
}
