// Labels: a text that is a part of the chart or of the stand-in table.
ghost use Rattle.std.specs.Prelude.{ℕ, ◌≡◌, ◌<◌, length, get_or};
ghost use Rattle.chart.specs.Text.{character_bytes, ending};
ghost use Rattle.grid.specs.declared.TextPlace.TheVariants.{InTable};
ghost use Rattle.path.specs.Label.{part_at, IsAt, place_of, span_of};

use crate::LabelSpan;
use crate::stand_in::StandIn;
use chart::BYTE_C2;
use grid::TextPlace;

// A part of the chart or of the table; where it does not lie within, the empty part at the chart's start.
pub fn part_of<'a>(chart: &'a [u8], table: &'a [u8], span: LabelSpan) -> &'a [u8]
    ensures { IsAt (part_at span (length chart.now) (length table.now)) chart.entry table.entry result }
{
    let (texts, at, len) = match span {
        LabelSpan::InChart { at, len } => (chart, at, len),
        LabelSpan::InTable { at, len } => (table, at, len),
    };
    let start = at as usize;
    let end = start + len as usize;
    // (`get` says what its part holds, but not where it stands.)
    if end <= texts.len() {
        return &texts[start..end];
    }
    &chart[0..0]
}

// How many bytes the character at a place of the chart has: a degree sign begins with C2.
fn character_bytes(chart: &[u8], at: usize) -> usize
    ensures { result ≡ character_bytes (get_or chart.now at 0) }
{
    match chart.get(at) {
        Some(&BYTE_C2) => 2,
        _ => 1,
    }
}

// The place after `len` characters of the chart.
pub fn text_end(chart: &[u8], at: u16, len: u8) -> usize
    ensures { result ≡ ending len chart.now at }
{
    let mut end = at as usize;
    for _k in 0..len {
        end += character_bytes(chart, end);
    }
    end
}

// Where the text of a label stands.
pub fn span_of(chart: &[u8], text: TextPlace) -> LabelSpan
    requires number { (q : ℕ) → text ≡ InTable q → q < 287 }
    ensures { result ≡ span_of (place_of chart.now text) }
{
    match text {
        TextPlace::InChart { at, len } => LabelSpan::InChart {
            at: at as u32,
            len: (text_end(chart, at, len) - at as usize) as u32,
        },
        TextPlace::InTable(q) => {
            let part = StandIn { number: q }.range();
            LabelSpan::InTable {
                at: part.start as u32,
                len: (part.end - part.start) as u32,
            }
        }
    }
}
