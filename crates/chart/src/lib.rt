// Document 01, module 1: a chart's bytes, read into tables. A source or a sink, and a line, is a record with the node that owns it;
// a node's list is its records in table order.
#![tactic(auto)]

ghost use Rattle.std.specs.Prelude.{◌≡◌};
ghost use Rattle.chart.specs.Chart.{under_two};
ghost use Rattle.chart.specs.Read.{IsRead};
ghost use Rattle.chart.specs.code.Filled.{empty_board};
ghost use Rattle.chart.specs.code.Reads.{read_of, judged_of};

use judge::outside_in;
use reader::Reader;
use refusals::Refusal;
use tables::Table;

mod judge;
mod reader;

// The two bytes of a degree sign.
pub const BYTE_C2: u8 = 0xc2;

pub const BYTE_B0: u8 = 0xb0;

// What becomes of a target that isn't a node: by default it is drawn, strict refuses it (12).
#[derive(Clone, Copy)]
pub enum Setting {
    Default,
    Strict,
}

// A source or a sink: its node, its target, its text's place in the chart, and how many characters that has.
#[derive(Clone, Copy, Default)]
pub struct Item {
    pub owner: u8,
    pub to: u8,
    pub at: u16,
    pub len: u8,
}

// The sources or the sinks. (While a chart is being read the count goes on past the array, which holds the first 64.)
pub type Items = Table<Item, 64>;

// A line: its text's place in the chart, its node, and how many characters it has. (In this order it takes 4 bytes.)
#[derive(Clone, Copy, Default)]
pub struct Line {
    pub at: u16,
    pub owner: u8,
    pub len: u8,
}

pub type Lines = Table<Line, 128>;

// n nodes, with the sources, the lines and the sinks of all.
#[derive(Clone, Copy)]
pub struct Board {
    pub n: u8,
    pub sources: Items,
    pub lines: Lines,
    pub sinks: Items,
}

impl Board {
    // n nodes, and nothing of theirs.
    fn empty(n: u8) -> Self
        ensures { result ≡ empty_board n }
    {
        Board {
            n,
            sources: Table::empty(Item::default()),
            lines: Table::empty(Line::default()),
            sinks: Table::empty(Item::default()),
        }
    }
}

// A chart of fewer than 2 bytes: of none it is the empty board, of one refusal 1.
fn under_two(len: usize) -> Result<Board, Refusal>
    ensures { result ≡ read_of (under_two len) }
{
    if len != 0 {
        return Err(Refusal::OneByte);
    }
    Ok(Board::empty(0))
}

// Refusals 11 and 12. (The sum saturates: it needs no bound on the counts.)
fn judged(board: &Board, setting: Setting) -> Result<(), Refusal>
    ensures { result ≡ judged_of setting board.now }
{
    if board.sources.count.saturating_add(board.sinks.count) > 64 {
        return Err(Refusal::ManyEnds);
    }
    match outside_in(board, setting) {
        Some(target) => Err(Refusal::Outside(target)),
        None => Ok(()),
    }
}

// A chart: its board, or the first refusal of 1 to 12.
#[inline(never)]
pub fn read(chart: &[u8], setting: Setting) -> Result<Board, Refusal>
    ensures { IsRead setting chart.now result }
{
    if chart.len() < 2 {
        return under_two(chart.len());
    }
    if chart[0] != 1 {
        return Err(Refusal::OtherFormat);
    }
    let n = chart[1];
    if n > 32 {
        return Err(Refusal::ManyNodes);
    }
    if chart.len() < 2 + 2 * (n as usize) {
        return Err(Refusal::CutContents);
    }
    let mut board = Board::empty(n);
    let mut reader = Reader {
        chart,
        at: 2 + 2 * (n as usize),
    };
    reader.bodies(&mut board)?;
    if reader.at < chart.len() {
        return Err(Refusal::BytesAfter);
    }
    judged(&board, setting)?;
    Ok(board)
}
