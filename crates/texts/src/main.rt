// Path texts, one on each line of standard input: how many segments each has, or the refusal.
#![tactic(auto)]

use lines::Program;
use std::io;
use std::io::{BufWriter, Write};

// How many bytes of standard input are read.
const ROOM: u64 = 65536;

struct Texts;

impl Program for Texts {
    fn print<W: Write>(out: &mut W, line: &[u8]) -> io::Result<()> {
        match path::text_count(line) {
            Ok(n) => writeln!(out, "segments {n}"),
            Err(why) => writeln!(out, "{}", why.numbers()),
        }
    }
}

fn main(rt: HostRuntime) -> io::Result<()> {
    let mut out = BufWriter::new(rt.alloc(), io::writer(&rt))?;
    lines::run::<Texts, _, _, _>(rt.reader(), ROOM, &mut out, rt.alloc())?;
    out.flush()
}
