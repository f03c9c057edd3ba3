// The lines of a listing: a sheet, its boxes and its path, or a refusal, as the program `listing` prints them. And the chart that it and `draw` read.
#![tactic(auto)]

ghost use Rattle.std.specs.Prelude.{None, Some, OnOk, IfOk, IfSome, ◌≡◌, ◌≤◌, ◌&&◌, cond, eqb, is_err, length, take, vec_items};
ghost use Rattle.std.specs.Io.{StartsWith};
ghost use Rattle.std.specs.Io.KnownBytes.{Appends};
ghost use Rattle.listings.specs.Listings.{
  size_line,
  box_line,
  box_lines,
  path_line,
  text_line,
  sheet_lines,
  listing_of,
};

use chart::Setting;
use grid::{BoxRecord, SheetRecord};
use std::alloc::Allocator;
use std::io;
use std::io::{Read, Write};

// How many labels a box has at most: a chart has at most 64 sources and sinks, and a box 4 lines.
pub const LABELS: usize = 68;

// Room for the text of any sheet: a sound one's has at most 9,887 bytes.
const ROOM: usize = 9887;

// How many bytes of standard input a program that runs one chart reads.
const CHART_ROOM: u64 = 8192;

fn print_size<W: Write>(out: &mut W, s: &SheetRecord) -> io::Result<()>
    ensures { OnOk result (Appends (W.contents out.old) (W.contents out.new) (size_line s.now)) }
{
    writeln!(
        out,
        "sheet {} {} {} {} {} {}",
        s.columns, s.rows, s.width, s.height, s.count, s.cuts
    )
}

fn print_box<W: Write>(out: &mut W, k: usize, b: &BoxRecord) -> io::Result<()>
    ensures { OnOk result (Appends (W.contents out.old) (W.contents out.new) (box_line k b.now)) }
{
    writeln!(
        out,
        "box {k} {} {} {} {} {} {}",
        b.column, b.row, b.x, b.y, b.width, b.height
    )
}

fn print_boxes<W: Write>(out: &mut W, boxes: &[BoxRecord]) -> io::Result<()>
    ensures { OnOk result (Appends (W.contents out.old) (W.contents out.new) (box_lines 0 boxes.now)) }
{
    for (k, b) in boxes.iter().enumerate() {
        print_box(out, k, b)?;
    }
    Ok(())
}

// The path's text, or `path` alone if it is empty.
fn print_text<W: Write>(out: &mut W, text: &[u8]) -> io::Result<()>
    ensures { OnOk result (Appends (W.contents out.old) (W.contents out.new) (text_line text.now)) }
{
    out.write_all(b"path")?;
    if !text.is_empty() {
        out.write_all(b" ")?;
    }
    out.write_all(text)?;
    out.write_all(b"\n")
}

// The path of a sound sheet; of any other, that it is refused.
fn print_path<W: Write>(out: &mut W, s: &SheetRecord) -> io::Result<()>
    ensures { OnOk result (Appends (W.contents out.old) (W.contents out.new) (path_line s.now)) }
{
    let mut text = [0; ROOM];
    match path::write_sheet(s, &mut text) {
        Ok(n) => print_text(out, &text[..n]),
        Err(why) => writeln!(out, "{}", why.numbers()),
    }
}

// What the listing says of a sheet: its size, its boxes, its path.
pub fn print_sheet<W: Write>(out: &mut W, s: &SheetRecord) -> io::Result<()>
    ensures { OnOk result (Appends (W.contents out.old) (W.contents out.new) (sheet_lines s.now)) }
{
    print_size(out, s)?;
    let boxes = &s.boxes[..];
    let count = (s.count as usize).min(boxes.len());
    print_boxes(out, &boxes[..count])?;
    print_path(out, s)
}

// The listing of a chart: its sheet at the origin 0 0, or the first refusal.
pub fn print_listing<W: Write>(out: &mut W, chart: &[u8], setting: Setting) -> io::Result<()>
    ensures { OnOk result (Appends (W.contents out.old) (W.contents out.new) (listing_of setting chart.now)) }
{
    match grid::sheet(chart, 0, 0, setting) {
        Ok(s) => print_sheet(out, &s),
        Err(why) => writeln!(out, "{}", why.numbers()),
    }
}

// A chart, as it is and not in hexadecimal: the first 8,192 bytes of what there is to read. Where reading fails, those that came before it, and the error.
pub fn read_chart<R: Read + Drop, A: Allocator>(
    reader: R,
    alloc: A,
) -> io::Result<(Vec<u8, A>, io::Result<usize>)>
    ensures whole { IfOk result (λ r. OnOk r.1 (IfSome (R.remaining reader) (λ left. vec_items r.0 ≡ take 8192 left))) }
    ensures front { IfOk result (λ r. IfSome (R.remaining reader) (λ left. StartsWith (take 8192 left) (vec_items r.0))) }
{
    let mut chart = Vec::with_capacity(alloc, CHART_ROOM as usize)?;
    let read = reader.take(CHART_ROOM).read_to_end(&mut chart);
    Ok((chart, read))
}

// The chart that a board sent, of what `read_chart` answers: none where reading failed before the first byte.
// (A board with nothing fitted sends no byte; a read that fails before the first byte is no board. Where one fails later, what came before it is judged.)
pub fn chart_sent<A: Allocator>(answer: (Vec<u8, A>, io::Result<usize>)) -> Option<Vec<u8, A>>
    ensures { result ≡ cond (is_err answer.1 && eqb (length (vec_items answer.0)) 0) None (Some answer.0) }
{
    let (chart, read) = answer;
    if read.is_err() && chart.is_empty() {
        return None;
    }
    Some(chart)
}
