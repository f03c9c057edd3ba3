// Reads charts in hexadecimal, one on each line, and prints the signal order of each: `order` and the nodes; or `refused 20 0 cycle` and the nodes of
// a cycle; or another refusal.
#![tactic(auto)]

use lines::{Program, ROOM};
use signal::{NoOrder, Nodes};
use std::io;
use std::io::{BufWriter, Write};

fn print_nodes<W: Write>(out: &mut W, nodes: &Nodes) -> io::Result<()> {
    for node in nodes.as_slice() {
        write!(out, " {node}")?;
    }
    Ok(())
}

struct Signals;

impl Program for Signals {
    fn print<W: Write>(out: &mut W, line: &[u8]) -> io::Result<()> {
        let mut room = [0u8; 65536];
        match signal::signal_order(lines::chart_of(line, &mut room)) {
            Ok(nodes) => {
                write!(out, "order")?;
                print_nodes(out, &nodes)?;
            }
            Err(why) => {
                write!(out, "{}", why.numbers())?;
                if let NoOrder::Cycle(nodes) = why {
                    write!(out, " cycle")?;
                    print_nodes(out, &nodes)?;
                }
            }
        }
        writeln!(out)
    }
}

fn main(rt: HostRuntime) -> io::Result<()> {
    let mut out = BufWriter::new(rt.alloc(), io::writer(&rt))?;
    lines::run::<Signals, _, _, _>(rt.reader(), ROOM, &mut out, rt.alloc())?;
    out.flush()
}
