// Charts in hexadecimal, one on each line of standard input: the listing of each, as the program `replay` prints it, the owners of its boxes, its
// labels, the ends of its curves, and an empty line. The owners are one line, `owners` and a number for each box; a label is
// `text BOX LABEL X Y SIZE WIDTH TEXT`, a curve `curve NUMBER X0 Y0 X1 Y1`: the lines of `oracle --full`.
// A line that begins with `D` is a chart in the default setting; any other is strict.
#![tactic(auto)]

use chart::Setting;
use grid::SheetRecord;
use lines::{Program, ROOM};
use listings::LABELS;
use std::io;
use std::io::{BufWriter, Write};

// The owners of the boxes, on one line.
fn print_owners<W: Write>(out: &mut W, s: &SheetRecord) -> io::Result<()> {
    write!(out, "owners")?;
    for b in s.boxes.iter().take(s.count as usize) {
        write!(out, " {}", b.owner)?;
    }
    writeln!(out)
}

// The labels of box k.
fn print_box_labels<W: Write>(
    out: &mut W,
    chart: &[u8],
    setting: Setting,
    table: &[u8],
    k: usize,
) -> io::Result<()> {
    for i in 0..LABELS {
        let Ok(l) = path::label_place(chart, 0, 0, setting, table, k, i) else {
            break;
        };
        write!(out, "text {k} {i} {} {} {} {} ", l.x, l.y, l.size, l.width)?;
        out.write_all(path::label_part(chart, 0, 0, setting, table, k, i))?;
        writeln!(out)?;
    }
    Ok(())
}

// The labels of every box.
fn print_labels<W: Write>(
    out: &mut W,
    chart: &[u8],
    setting: Setting,
    count: u8,
) -> io::Result<()> {
    let table = path::stand_ins();
    for k in 0..count as usize {
        print_box_labels(out, chart, setting, &table, k)?;
    }
    Ok(())
}

fn print_curves<W: Write>(out: &mut W, s: &SheetRecord) -> io::Result<()> {
    for (k, c) in s.curves.iter().take(s.drawn as usize).enumerate() {
        writeln!(out, "curve {k} {} {} {} {}", c.x0, c.y0, c.x1, c.y1)?;
    }
    Ok(())
}

fn print_chart<W: Write>(out: &mut W, chart: &[u8], setting: Setting) -> io::Result<()> {
    match grid::sheet(chart, 0, 0, setting) {
        Ok(s) => {
            listings::print_sheet(out, &s)?;
            print_owners(out, &s)?;
            print_labels(out, chart, setting, s.count)?;
            print_curves(out, &s)
        }
        Err(why) => writeln!(out, "{}", why.numbers()),
    }
}

struct Full;

impl Program for Full {
    fn print<W: Write>(out: &mut W, line: &[u8]) -> io::Result<()> {
        let mut room = [0u8; 8192];
        let chart = lines::chart_of(lines::digits(line), &mut room);
        print_chart(out, chart, lines::setting_of(line))?;
        writeln!(out)
    }
}

fn main(rt: HostRuntime) -> io::Result<()> {
    let mut out = BufWriter::new(rt.alloc(), io::writer(&rt))?;
    lines::run::<Full, _, _, _>(rt.reader(), ROOM, &mut out, rt.alloc())?;
    out.flush()
}
