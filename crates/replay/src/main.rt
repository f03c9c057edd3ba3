// Charts in hexadecimal, one on each line of standard input: the listing of each, as the program `listing` prints it, and an empty line. A line
// that begins with `D` is a chart in the default setting; any other is strict.
#![tactic(auto)]

use lines::{Program, ROOM};
use std::io;
use std::io::{BufWriter, Write};

struct Replay;

impl Program for Replay {
    fn print<W: Write>(out: &mut W, line: &[u8]) -> io::Result<()> {
        let mut room = [0u8; 8192];
        let chart = lines::chart_of(lines::digits(line), &mut room);
        listings::print_listing(out, chart, lines::setting_of(line))?;
        writeln!(out)
    }
}

fn main(rt: HostRuntime) -> io::Result<()> {
    let mut out = BufWriter::new(rt.alloc(), io::writer(&rt))?;
    lines::run::<Replay, _, _, _>(rt.reader(), ROOM, &mut out, rt.alloc())?;
    out.flush()
}
