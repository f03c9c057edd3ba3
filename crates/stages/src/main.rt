// Reads charts in hexadecimal, one on each line, and prints for each what the stages below the sheet make of it: the completed graph, the
// cut graph and the first columns, or the refusal of each. The form of a line is that of the instrumented Rust (differential/README.md, `--stages`).
#![tactic(auto)]

use chart::Setting;
use graph::{Item, Tables};
use lines::{Program, ROOM};
use std::io;
use std::io::{BufWriter, Write};

// A source: where it leads, and the number of the sink that it marks, or `-` for none.
fn print_source<W: Write>(out: &mut W, x: &Item) -> io::Result<()> {
    write!(out, " {}:", x.to)?;
    match x.number() {
        None => write!(out, "-"),
        Some(i) => write!(out, "{i}"),
    }
}

fn print_node<W: Write>(out: &mut W, g: &Tables, p: usize) -> io::Result<()> {
    write!(out, " | {p} src")?;
    for x in g.sources.as_slice() {
        if x.owner as usize == p {
            print_source(out, x)?;
        }
    }
    write!(out, " snk")?;
    for x in g.sinks.as_slice() {
        if x.owner as usize == p {
            write!(out, " {}", x.to)?;
        }
    }
    Ok(())
}

// The nodes, each with its sources and its sinks, and the end of the line.
fn print_graph<W: Write>(out: &mut W, g: &Tables) -> io::Result<()> {
    for p in 0..g.n {
        print_node(out, g, p)?;
    }
    writeln!(out)
}

fn print_completed<W: Write>(out: &mut W, chart: &[u8]) -> io::Result<()> {
    match graph::completed(chart) {
        Ok(g) => {
            write!(out, "completed {}", g.n)?;
            print_graph(out, &g)
        }
        Err(why) => writeln!(out, "{}", why.numbers()),
    }
}

fn print_cut<W: Write>(out: &mut W, chart: &[u8]) -> io::Result<()> {
    match graph::graph(chart, Setting::Strict) {
        Ok(g) => {
            write!(out, "cut {} {}", g.n, g.cuts)?;
            print_graph(out, &g)
        }
        Err(why) => writeln!(out, "{}", why.numbers()),
    }
}

fn print_first<W: Write>(out: &mut W, chart: &[u8]) -> io::Result<()> {
    match order::order(chart, Setting::Strict) {
        Ok(columns) => {
            write!(out, "first")?;
            for column in columns.as_slice() {
                write!(out, " {column}")?;
            }
            writeln!(out)
        }
        Err(why) => writeln!(out, "{}", why.numbers()),
    }
}

struct Stages;

impl Program for Stages {
    fn print<W: Write>(out: &mut W, line: &[u8]) -> io::Result<()> {
        let mut room = [0u8; 65536];
        let chart = lines::chart_of(line, &mut room);
        print_completed(out, chart)?;
        print_cut(out, chart)?;
        print_first(out, chart)
    }
}

fn main(rt: HostRuntime) -> io::Result<()> {
    let mut out = BufWriter::new(rt.alloc(), io::writer(&rt))?;
    lines::run::<Stages, _, _, _>(rt.reader(), ROOM, &mut out, rt.alloc())?;
    out.flush()
}
