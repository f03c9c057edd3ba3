// Modules 6, 7 and 8 of document 01: heights, columns, boxes, and the sheet of a chart.
#![tactic(auto)]

ghost use Rattle.std.specs.Prelude.{◌≡◌, ◌&&◌, take};
ghost use Rattle.std.specs.Option.{unwrap_or};
ghost use Rattle.tables.specs.Tables.{empty};
ghost use Rattle.graph.specs.code.Tables.{graph_of};
ghost use Rattle.graph.specs.Ends.{ends_in};
ghost use Rattle.order.specs.Ordered.{columns_in};
ghost use Rattle.grid.specs.code.Placed.{FirstColumns};
ghost use Rattle.grid.specs.code.Rendered.{Seated};
ghost use Rattle.grid.specs.RenderGrid.{sheet};
ghost use Rattle.grid.specs.Curves.{record_of};
ghost use Rattle.grid.specs.Sheeted.{within as within_of};
ghost use Rattle.grid.specs.code.Laid.{fitted_of};
ghost use Rattle.grid.specs.LaidOut.{IsSheet};
ghost use Rattle.grid.specs.Labelled.{labelled, label_place_of};

use chart::Setting;
use graph::Tables;
use order::Columns;
pub use placing::cells;
pub use record::{box_of, no_sheet, sound};
use refusals::Refusal;
use tables::Table;

mod columns;
mod heights;
mod label;
mod leads;
mod lists;
mod placing;
mod record;
mod render_grid;
mod render_node;

// The farthest position: single precision holds each whole number up to it.
const FARTHEST: u64 = 8388608;

// The owner of the box of a lead to nothing. (A byte of C's record, as NO_BOX is of the caller's grid.)
pub const NO_OWNER: u8 = 255;

// What a cell without a box holds.
pub const NO_BOX: u8 = 255;

// A box: its top left corner, its width and its height, the column and row of its cell, and its owner: the node itself, the node whose number a
// cut's box shows, or NO_OWNER.
#[repr(C)]
#[derive(Clone, Copy, Default)]
pub struct BoxRecord {
    pub x: u32,
    pub y: u32,
    pub width: u32,
    pub height: u32,
    pub column: u8,
    pub row: u8,
    pub owner: u8,
}

// A curve: the output point x0 y0 where it begins, and the input point x1 y1 where it ends.
#[repr(C)]
#[derive(Clone, Copy, Default)]
pub struct Curve {
    pub x0: u32,
    pub y0: u32,
    pub x1: u32,
    pub y1: u32,
}

// A sheet: its size, its origin, how many columns, rows and cuts it has; the first count boxes, and the first drawn curves. It holds no texts.
#[repr(C)]
#[derive(Clone, Copy)]
pub struct SheetRecord {
    pub width: u32,
    pub height: u32,
    pub x: u32,
    pub y: u32,
    pub columns: u8,
    pub rows: u8,
    pub cuts: u8,
    pub count: u8,
    pub drawn: u8,
    pub boxes: [BoxRecord; 48],
    pub curves: [Curve; 88],
}

// Where a label's text stands: so many characters of the chart from a place on, or a text of the stand-in table by its number.
#[derive(Clone, Copy)]
pub enum TextPlace {
    InChart { at: u16, len: u8 },
    InTable(u16),
}

// The place of a label, its size and its width, and where its text stands.
#[derive(Clone, Copy)]
pub struct LabelPlace {
    pub x: u32,
    pub y: u32,
    pub size: u32,
    pub width: u32,
    pub text: TextPlace,
}

// The sheet of a cut graph with these first columns.
fn lay_out(g: &Tables, first: &Columns, x: u32, y: u32) -> SheetRecord
    requires seated { Seated g.now }
    requires first_columns { FirstColumns g.now.n (take g.now.n first.now.items) }
    ensures { result ≡ record_of (sheet (graph_of g.now) g.now.cuts (take g.now.n first.now.items)) x y }
{
    let n = g.n;
    let sources = graph::ends_of(g.sources);
    let sinks = graph::ends_of(g.sinks);
    let leads = leads::leads_of(&sources, &sinks, n);
    let rows = heights::heights(&leads);
    let mut cols = first.items;
    columns::columns(&leads, &rows[..n], &mut cols[..n]);
    render_grid::laid(g, &rows, &cols, x, y)
}

// Whether origin plus total is no farther than a position may be.
fn within(origin: u32, total: u32) -> bool
    ensures { result ≡ within_of origin total }
{
    (origin as u64) + (total as u64) <= FARTHEST
}

// Whether a sheet at the origin x y is not refused by 14.
fn fits(s: &SheetRecord, x: u32, y: u32) -> bool
    ensures { result ≡ within_of x s.now.width && within_of y s.now.height }
{
    within(x, s.width) && within(y, s.height)
}

// The first columns of a graph.
fn first_in(g: &Tables) -> Columns
    ensures { result ≡ unwrap_or (columns_in g.now.n (ends_in g.now.sources) (ends_in g.now.sinks)) (empty 48 0) }
{
    let sources = graph::ends_of(g.sources);
    let sinks = graph::ends_of(g.sinks);
    order::order_of(&sources, &sinks, g.n).unwrap_or(Table::empty(0))
}

// The sheet of a cut graph with these first columns, at an origin, or 14.
fn sheet_of(g: &Tables, first: &Columns, x: u32, y: u32) -> Result<SheetRecord, Refusal>
    requires seated { Seated g.now }
    requires first_columns { FirstColumns g.now.n (take g.now.n first.now.items) }
    ensures { result ≡ fitted_of (record_of (sheet (graph_of g.now) g.now.cuts (take g.now.n first.now.items)) x y) }
{
    let s = lay_out(g, first, x, y);
    if !fits(&s, x, y) {
        return Err(Refusal::TooFar);
    }
    Ok(s)
}

// The sheet of a chart at the origin x y, or the first refusal of 1 to 14. (For the unit's stack each phase has a frame of its own, and
// what it answers is taken by reference: `?` would copy the graph, 1.7 KB, twice.)
pub fn sheet(chart: &[u8], x: u32, y: u32, setting: Setting) -> Result<SheetRecord, Refusal>
    ensures { IsSheet setting chart.now x y result }
{
    match &graph::graph(chart, setting) {
        Ok(g) => sheet_of(g, &first_in(g), x, y),
        Err(why) => Err(*why),
    }
}

// Label i of box k of the chart's sheet, or the first refusal of 1 to 15; the chart is laid out anew.
pub fn label_place(
    chart: &[u8],
    x: u32,
    y: u32,
    setting: Setting,
    k: usize,
    i: usize,
) -> Result<LabelPlace, Refusal>
    ensures { result ≡ label_place_of (labelled setting chart.now x y k i) }
{
    let graphed = graph::graph(chart, setting);
    let g = match &graphed {
        Ok(g) => g,
        Err(why) => return Err(*why),
    };
    let first = first_in(g);
    let sheet = sheet_of(g, &first, x, y);
    let laid = match &sheet {
        Ok(laid) => laid,
        Err(why) => return Err(*why),
    };
    if g.n <= k {
        return Err(Refusal::NotThere);
    }
    let b = laid.boxes[k];
    label::label_at(g, k, b.x, b.y, i).ok_or(Refusal::NotThere)
}
