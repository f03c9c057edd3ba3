// The listing of document 01: a chart on standard input, its first 8,192 bytes, at origin 0 0, in the strict setting; the sheet, its boxes and its path, or the refusal, on standard output.
// An input that can't be read: that, on standard error, and nothing on standard output.
#![tactic(auto)]

use chart::Setting;
use std::io;
use std::io::{BufWriter, Write};

fn main(rt: HostRuntime) -> io::Result<()> {
    let Some(chart) = listings::chart_sent(listings::read_chart(rt.reader(), rt.alloc())?) else {
        eprintln!(rt; "standard input can't be read")?;
        return Ok(());
    };
    let mut out = BufWriter::new(rt.alloc(), io::writer(&rt))?;
    listings::print_listing(&mut out, chart.as_slice(), Setting::Strict)?;
    out.flush()
}
