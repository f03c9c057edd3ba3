// A picture of a chart: a chart on standard input, its first 8,192 bytes, at origin 0 0; its sheet and labels, an SVG 1.1 document, on standard output.
// Refused: the refusal on standard error, and nothing on standard output; so too an input that can't be read.
#![tactic(auto)]

ghost use Rattle.std.specs.Prelude.{◌≡◌, true, ◌≤◌, length, take, Ok, IfOk};
ghost use Rattle.std.specs.Option.{is_some};
ghost use Rattle.grid.specs.Labels.{label_of};
ghost use Rattle.grid.specs.Record.{sound_of};
ghost use Rattle.grid.specs.RenderGrid.{Sheet};
ghost use Rattle.grid.specs.Sheeted.{ready, sheeted};
ghost use Rattle.path.specs.Label.{stand_ins};
ghost use Rattle.path.specs.Promises.{IsWritten};

use chart::Setting;
use grid::{BoxRecord, LabelPlace, NO_OWNER, SheetRecord};
use listings::LABELS;
use std::io;
use std::io::{BufWriter, Write};

fn put<W: Write>(out: &mut W, text: &[u8]) -> io::Result<()> {
    out.write_all(text)
}

// A byte of a text: the five that XML reserves go by name, and both bytes of a degree sign as they are (UTF-8 is XML's default).
fn put_escaped<W: Write>(out: &mut W, c: u8) -> io::Result<()> {
    match c {
        b'&' => put(out, b"&amp;"),
        b'<' => put(out, b"&lt;"),
        b'>' => put(out, b"&gt;"),
        b'"' => put(out, b"&quot;"),
        b'\'' => put(out, b"&apos;"),
        _ => put(out, &[c]),
    }
}

fn put_text<W: Write>(out: &mut W, text: &[u8]) -> io::Result<()> {
    for c in text {
        put_escaped(out, *c)?;
    }
    Ok(())
}

// The document's start, and a white ground.
fn put_head<W: Write>(out: &mut W, width: u32, height: u32) -> io::Result<()> {
    writeln!(
        out,
        "<svg xmlns=\"http://www.w3.org/2000/svg\" version=\"1.1\" viewBox=\"0 0 {width} {height}\">"
    )?;
    writeln!(
        out,
        "<rect width=\"{width}\" height=\"{height}\" fill=\"white\"/>"
    )
}

// The colour of a box: of a given node's, one of eight that colour-blind readers tell apart (Okabe and Ito's); grey where it leads to nothing.
fn put_colour<W: Write>(out: &mut W, owner: Option<u8>) -> io::Result<()> {
    let Some(owner) = owner else {
        return put(out, b"#999999");
    };
    match owner % 8 {
        0 => put(out, b"#0072b2"),
        1 => put(out, b"#d55e00"),
        2 => put(out, b"#009e73"),
        3 => put(out, b"#000000"),
        4 => put(out, b"#e69f00"),
        5 => put(out, b"#f0e442"),
        6 => put(out, b"#56b4e9"),
        _ => put(out, b"#cc79a7"),
    }
}

// The tint of a box; none where it leads to nothing.
fn put_tint<W: Write>(out: &mut W, owner: Option<u8>) -> io::Result<()> {
    if owner.is_none() {
        return put(out, b"none");
    }
    put_colour(out, owner)
}

// How its border is dashed. With the colour it tells any two of 32 nodes apart, and in print without colour any two of the first eight: of these the
// dark colours, 0 to 3, are each dashed otherwise, and so are the light ones.
fn put_dashes<W: Write>(out: &mut W, owner: Option<u8>) -> io::Result<()> {
    let Some(owner) = owner else {
        return Ok(());
    };
    match (owner % 8 + owner / 8) % 4 {
        0 => Ok(()),
        1 => put(out, b" stroke-dasharray=\"192 96\""),
        2 => put(out, b" stroke-dasharray=\"64 64\""),
        _ => put(out, b" stroke-dasharray=\"256 64 64 64\""),
    }
}

// A box in its owner's colour, over the sheet's path: its border, and a tint inside.
fn put_box<W: Write>(out: &mut W, b: &BoxRecord) -> io::Result<()> {
    let owner = (b.owner != NO_OWNER).then_some(b.owner);
    write!(
        out,
        "<rect x=\"{}\" y=\"{}\" width=\"{}\" height=\"{}\" fill=\"",
        b.x, b.y, b.width, b.height
    )?;
    put_tint(out, owner)?;
    put(out, b"\" stroke=\"")?;
    put_colour(out, owner)?;
    put(out, b"\"")?;
    put_dashes(out, owner)?;
    put(out, b"/>\n")
}

fn put_boxes<W: Write>(out: &mut W, s: &SheetRecord) -> io::Result<()> {
    put(out, b"<g fill-opacity=\"0.15\" stroke-width=\"64\">\n")?;
    for b in s.boxes.iter().take(s.count as usize) {
        put_box(out, b)?;
    }
    put(out, b"</g>\n")
}

// Puts the text of a sound sheet at the buffer's start and answers its length. None is refused: such a text has at most 9,887 bytes.
fn write_text(s: &SheetRecord, buf: &mut [u8]) -> usize
    requires s_value { sound_of s.now ≡ true }
    requires in_bounds { 9887 ≤ length buf.old }
    ensures written { IsWritten s.now buf.old (Ok result) buf.new }
    ensures prefix_len { (result ≤ length buf.new) × (result ≡ length (take result buf.new)) }
{
    let Ok(n) = path::write_sheet(s, buf) else {
        unreachable!()
    };
    n
}

// The sheet's path; an empty one has an empty `d`, which draws nothing.
fn put_path<W: Write>(out: &mut W, s: &SheetRecord) -> io::Result<()>
    requires { sound_of s.now ≡ true }
{
    put(out, b"<path d=\"")?;
    let mut text = [0u8; 65536];
    let n = write_text(s, &mut text);
    put(out, &text[..n])?;
    put(
        out,
        b"\" fill=\"none\" stroke=\"black\" stroke-width=\"24\"/>\n",
    )
}

// A label, unless its text is empty: its place is the left end of its baseline, and it is as wide as the layout has it, whatever the font.
fn put_label<W: Write>(out: &mut W, l: &LabelPlace, text: &[u8]) -> io::Result<()> {
    if text.is_empty() {
        return Ok(());
    }
    write!(
        out,
        "<text x=\"{}\" y=\"{}\" font-size=\"{}\" textLength=\"{}\" lengthAdjust=\"spacingAndGlyphs\" xml:space=\"preserve\">",
        l.x, l.y, l.size, l.width
    )?;
    put_text(out, text)?;
    put(out, b"</text>\n")
}

// Label i of box k. Whether there is such a label: of a chart that has a sheet, one that is refused isn't there.
fn draw_label<W: Write>(
    out: &mut W,
    chart: &[u8],
    table: &[u8],
    k: usize,
    i: usize,
) -> io::Result<bool>
    requires { table.now ≡ stand_ins }
    ensures { IfOk result (λ found. (sh : Sheet) → sheeted Setting.Default chart.now 0 0 ≡ ready sh → found ≡ is_some (label_of sh k i)) }
{
    let Ok(l) = path::label_place(chart, 0, 0, Setting::Default, table, k, i) else {
        return Ok(false);
    };
    let text = path::label_part(chart, 0, 0, Setting::Default, table, k, i);
    put_label(out, &l, text)?;
    Ok(true)
}

// The labels of box k.
fn draw_box_labels<W: Write>(out: &mut W, chart: &[u8], table: &[u8], k: usize) -> io::Result<()>
    requires { table.now ≡ stand_ins }
{
    for i in 0..LABELS {
        if !draw_label(out, chart, table, k, i)? {
            break;
        }
    }
    Ok(())
}

// The labels of every box.
fn draw_labels<W: Write>(out: &mut W, chart: &[u8], count: u8) -> io::Result<()> {
    let table = path::stand_ins();
    for k in 0..count {
        draw_box_labels(out, chart, &table, k as usize)?;
    }
    Ok(())
}

fn draw_sheet<W: Write>(out: &mut W, chart: &[u8], s: &SheetRecord) -> io::Result<()>
    requires { sound_of s.now ≡ true }
{
    put_head(out, s.width, s.height)?;
    put_path(out, s)?;
    put_boxes(out, s)?;
    put(out, b"<g font-family=\"monospace\">\n")?;
    draw_labels(out, chart, s.count)?;
    put(out, b"</g>\n</svg>\n")
}

// The picture goes to `out`, a refusal to `err`.
fn draw<W: Write, E: Write>(out: &mut W, err: &mut E, chart: &[u8]) -> io::Result<()> {
    match grid::sheet(chart, 0, 0, Setting::Default) {
        Ok(sheet) => draw_sheet(out, chart, &sheet),
        Err(why) => writeln!(err, "{}", why.numbers()),
    }
}

fn main(rt: HostRuntime) -> io::Result<()> {
    let Some(chart) = listings::chart_sent(listings::read_chart(rt.reader(), rt.alloc())?) else {
        eprintln!(rt; "standard input can't be read")?;
        return Ok(());
    };
    let mut out = BufWriter::new(rt.alloc(), io::writer(&rt))?;
    draw(&mut out, &mut rt.stderr(), chart.as_slice())?;
    out.flush()
}
