// Reads charts in hexadecimal, one on each line, and prints what each is read as: its board, or the refusal. An empty line ends each.
#![tactic(auto)]

use chart::{Board, Item, Setting};
use lines::{Program, ROOM};
use std::io;
use std::io::{BufWriter, Write};

fn print_items<W: Write>(out: &mut W, name: &str, items: &[Item]) -> io::Result<()> {
    for x in items {
        writeln!(out, "{name} {} {} {} {}", x.owner, x.to, x.at, x.len)?;
    }
    Ok(())
}

fn print_board<W: Write>(out: &mut W, b: &Board) -> io::Result<()> {
    writeln!(out, "board {}", b.n)?;
    print_items(out, "source", b.sources.as_slice())?;
    for x in b.lines.as_slice() {
        writeln!(out, "line {} {} {}", x.owner, x.at, x.len)?;
    }
    print_items(out, "sink", b.sinks.as_slice())
}

struct Boards;

impl Program for Boards {
    fn print<W: Write>(out: &mut W, line: &[u8]) -> io::Result<()> {
        let mut room = [0u8; 65536];
        match chart::read(lines::chart_of(line, &mut room), Setting::Strict) {
            Ok(board) => print_board(out, &board)?,
            Err(why) => writeln!(out, "{}", why.numbers())?,
        }
        writeln!(out)
    }
}

fn main(rt: HostRuntime) -> io::Result<()> {
    let mut out = BufWriter::new(rt.alloc(), io::writer(&rt))?;
    lines::run::<Boards, _, _, _>(rt.reader(), ROOM, &mut out, rt.alloc())?;
    out.flush()
}
