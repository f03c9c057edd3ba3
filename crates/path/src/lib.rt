// Document 01, module 9: the segments of a sheet, its whole text, a path text read and written again, and labels.
// A sheet and a path text each give segments or a refusal (`sheet_answer`, `read`); the promises say what of these is handed out or written, and that `read` judges a text in document 01's words.
#![tactic(auto)]

ghost use Rattle.std.specs.Prelude.{◌≡◌, ◌≤◌, length};
ghost use Rattle.path.specs.Reader.{read};
ghost use Rattle.path.specs.Writer.{put};
ghost use Rattle.path.specs.Answers.{sheet_answer};
ghost use Rattle.path.specs.Promises.{IsSegment, IsWritten, IsReading, IsCount, IsRewritten};
ghost use Rattle.grid.specs.Labelled.{labelled, label_place_of};
ghost use Rattle.path.specs.Label.{stand_ins, tabled, IsLabelPart, IsLabelSpan};

use chart::Setting;
use drawn::segment_of;
use grid::{LabelPlace, SheetRecord};
use label::{part_of, span_of};
use pass::{drawn_six, pass_over};
use reader::judge;
use refusals::{Refusal, TextRefusal};
use sheet::judged;
use stand_in::{StandIn, TABLE_BYTES, TEXTS, is_stand_ins};
use stroke::pens_of;

mod drawn;
mod halves;
mod label;
mod number;
mod pass;
mod reader;
mod sheet;
mod stand_in;
mod stroke;
mod writer;

// A pen position.
#[repr(C)]
#[derive(Clone, Copy, Default)]
pub struct Pen {
    pub x: f32,
    pub y: f32,
}

// A segment: a move, a line, a cubic (two controls and the end) or a close.
#[derive(Clone, Copy)]
pub enum Segment {
    Move(Pen),
    Line(Pen),
    Cubic(Pen, Pen, Pen),
    Close,
}

// A label's text as a place: where it begins, in the chart or in the table, and how many bytes it has.
#[derive(Clone, Copy)]
pub enum LabelSpan {
    InChart { at: u32, len: u32 },
    InTable { at: u32, len: u32 },
}

// Segment k of a sheet: 14, then 15.
pub fn sheet_segment(s: &SheetRecord, k: usize) -> Result<Segment, TextRefusal>
    ensures { IsSegment k (sheet_answer s.now) result }
{
    let sheet = judged(s)?;
    if k < sheet.size {
        return Ok(pens_of(sheet.stroke_at(k)));
    }
    Err(TextRefusal::NotThere)
}

// The whole text of a sheet: 14, then 16 with the length needed; refused, nothing is written.
pub fn write_sheet(s: &SheetRecord, buf: &mut [u8]) -> Result<usize, TextRefusal>
    ensures { IsWritten s.now buf.old result buf.new }
{
    let sheet = judged(s)?;
    let n = sheet.text_len();
    if buf.len() < n {
        return Err(TextRefusal::ShortBuffer(n));
    }
    sheet.put_text(buf);
    Ok(n)
}

// The count of segments of a path text: 17 to 19.
pub fn text_count(text: &[u8]) -> Result<usize, TextRefusal>
    ensures count { IsCount text.now result }
    ensures reading { IsReading text.now }
{
    let m = pass_over(text, 0);
    judge(text.len(), &m.stand)?;
    Ok(m.count)
}

// Segment k of a path text: 17 to 19, then 15.
pub fn text_segment(text: &[u8], k: usize) -> Result<Segment, TextRefusal>
    ensures segment { IsSegment k (read text.now) result }
    ensures reading { IsReading text.now }
{
    let m = pass_over(text, k);
    judge(text.len(), &m.stand)?;
    if k < m.count {
        return Ok(segment_of(drawn_six(m.kept)));
    }
    Err(TextRefusal::NotThere)
}

// The text at the start of a buffer that it fits. (By bytes: `copy_from_slice` would be the archive's one call of memmove.)
fn copy(text: &[u8], buf: &mut [u8])
    requires { length text.now ≤ length buf.old }
    ensures { buf.new ≡ put buf.old 0 text.now }
{
    for i in 0..text.len() {
        buf[i] = text[i];
    }
}

// A path text read and written again: 17 to 19, then 16. A text that is read is the text of its segments, so its bytes are copied.
pub fn rewrite(text: &[u8], buf: &mut [u8]) -> Result<usize, TextRefusal>
    ensures written { IsRewritten text.now buf.old result buf.new }
    ensures reading { IsReading text.now }
{
    let m = pass_over(text, 0);
    let n = text.len();
    judge(n, &m.stand)?;
    if n > buf.len() {
        return Err(TextRefusal::ShortBuffer(n));
    }
    copy(text, buf);
    Ok(n)
}

// The stand-in table, for a program to lend: its 287 texts, end to end.
pub fn stand_ins() -> [u8; 3293]
    ensures { result ≡ stand_ins }
{
    let mut table = [0; TABLE_BYTES];
    for j in 0..TEXTS {
        StandIn { number: j }.put(&mut table);
    }
    table
}

// Where label i of box k of the chart's sheet stands, its size, its width and where its text is, a table being lent beside the chart: 1 to 15.
pub fn label_place(
    chart: &[u8],
    x: u32,
    y: u32,
    setting: Setting,
    table: &[u8],
    k: usize,
    i: usize,
) -> Result<LabelPlace, Refusal>
    ensures { result ≡ label_place_of (tabled table.now (labelled setting chart.now x y k i)) }
{
    let place = grid::label_place(chart, x, y, setting, k, i)?;
    if !is_stand_ins(table) {
        return Err(Refusal::NotThere);
    }
    Ok(place)
}

// The text of that label, a part of the chart or of the table; refused, the empty one at the chart's start.
pub fn label_part<'a>(
    chart: &'a [u8],
    x: u32,
    y: u32,
    setting: Setting,
    table: &'a [u8],
    k: usize,
    i: usize,
) -> &'a [u8]
    ensures { IsLabelPart chart.entry table.entry (labelled setting chart.now x y k i) result }
{
    match label_span(chart, x, y, setting, table, k, i) {
        Ok(span) => part_of(chart, table, span),
        Err(_) => part_of(chart, table, LabelSpan::InChart { at: 0, len: 0 }),
    }
}

// The same part as a place: 1 to 15.
pub fn label_span(
    chart: &[u8],
    x: u32,
    y: u32,
    setting: Setting,
    table: &[u8],
    k: usize,
    i: usize,
) -> Result<LabelSpan, Refusal>
    ensures { IsLabelSpan chart.now table.now (labelled setting chart.now x y k i) result }
{
    let place = label_place(chart, x, y, setting, table, k, i)?;
    Ok(span_of(chart, place.text))
}
