// The sheet, as `RenderGrid::new` has it, and its curves.
ghost use Rattle.std.specs.Prelude.{◌≡◌, ℕ, ◌+◌, ◌<◌, ◌≤◌, map, length, get_or, take, replicate};
ghost use Rattle.laws.specs.Lists.{All, padded};
ghost use Rattle.laws.specs.Each.{each};
ghost use Rattle.graph.specs.Graph.{node_at};
ghost use Rattle.graph.specs.code.Tables.{items_of, name_line, graph_of, Aimed};
ghost use Rattle.grid.specs.Record.{no_box};
ghost use Rattle.grid.specs.RenderGrid.{begins, extent as extent_of, owner_in, sheet_of};
ghost use Rattle.grid.specs.Curves.{record_of};
ghost use Rattle.grid.specs.code.Rendered.{Seated, Modest, render_of};
ghost use Rattle.grid.specs.code.Row.{end_for, ends_left};
ghost use Rattle.grid.specs.code.Laid.{Bounded, line_of, size_of, gap_of, begins_to, no_sides, sized_in, sides_in, placed_at, moved as moved_to, Near, inputs_in, outputs_in, no_curves, curves_at};

use crate::lists::largest_of;
use crate::render_node::row::{End, RunEnds};
use crate::render_node::{Run, Sides, node_of};
use crate::{BoxRecord, Curve, NO_OWNER, SheetRecord};
use graph::{Items, Name, Tables};
use tables::Table;

// The sheet's two directions: its columns go across it, and its rows down it.
#[derive(Clone, Copy)]
enum Axis {
    Across,
    Down,
}

impl Axis {
    // The line that a box stands in: its column, or its row.
    fn line(self, b: &BoxRecord) -> u8
        ensures { result ≡ line_of self b.now }
    {
        match self {
            Axis::Across => b.column,
            Axis::Down => b.row,
        }
    }

    // Its width, or its height.
    fn size(self, b: &BoxRecord) -> u32
        ensures { result ≡ size_of self b.now }
    {
        match self {
            Axis::Across => b.width,
            Axis::Down => b.height,
        }
    }

    // The space between two lines.
    fn gap(self) -> u32
        ensures { result ≡ gap_of self }
    {
        match self {
            Axis::Across => 1024,
            Axis::Down => 2048,
        }
    }

    // The largest size of the boxes in line c.
    fn extent(self, boxes: &[BoxRecord], c: u8) -> u32
        ensures { result ≡ extent_of (map (line_of self) boxes.now) (map (size_of self) boxes.now) c }
    {
        boxes
            .iter()
            .filter(|b| self.line(b) == c)
            .map(|b| self.size(b))
            .max()
            .unwrap_or(0)
    }

    // Where each line begins, up to the last: PAD, and before it each line's size and the gap. The sheet's size along them.
    fn lay(self, boxes: &[BoxRecord], last: u8, starts: &mut [u32; 144]) -> u32
        requires last_bound { last ≤ 143 }
        requires small { All (λ b. size_of self b ≤ 8389000) boxes.now }
        requires blank { starts.old ≡ replicate 144 0 }
        ensures size { result ≡ begins (gap_of self) (map (line_of self) boxes.now) (map (size_of self) boxes.now) last + extent_of (map (line_of self) boxes.now) (map (size_of self) boxes.now) last + 128 }
        ensures starts { starts.new ≡ begins_to (gap_of self) (map (line_of self) boxes.now) (map (size_of self) boxes.now) (last + 1) }
    {
        let mut at = 128u32;
        for c in 0..last {
            starts[c as usize] = at;
            at += self.extent(boxes, c) + self.gap();
        }
        starts[last as usize] = at;
        at + self.extent(boxes, last) + 128
    }
}

// The owner of box k, by its node's name: the node whose number it is, NO_OWNER if it is a target that is no node, k if there is no name.
fn owner_of(name: Name, k: u8) -> u8
    ensures { result ≡ owner_in k (name_line name) }
{
    match name {
        Name::Nothing => k,
        Name::Number(q) => q,
        Name::Invalid(_) => NO_OWNER,
    }
}

// The nodes' boxes, which have no place yet, and their ends.
fn render_nodes(
    g: &Tables,
    rows: &[u8; 48],
    cols: &[u8; 48],
    boxes: &mut [BoxRecord; 48],
    sides: &mut [Sides; 48],
)
    requires seated { Seated g.now }
    requires no_boxes { boxes.old ≡ replicate 48 no_box }
    requires none { sides.old ≡ replicate 48 no_sides }
    ensures boxes { boxes.new ≡ padded 48 no_box (sized_in g.now rows.now cols.now) }
    ensures sides { sides.new ≡ padded 48 no_sides (sides_in g.now) }
    ensures modest { (k : ℕ) → k < g.now.n → Modest (render_of (node_at (graph_of g.now) k)) }
{
    for k in 0..g.n {
        let node = node_of(g, k);
        boxes[k] = BoxRecord {
            x: 0,
            y: 0,
            width: node.width,
            height: node.height,
            column: cols[k],
            row: rows[k],
            owner: owner_of(g.names[k], k as u8),
        };
        sides[k] = Sides {
            inputs: node.inputs,
            outputs: node.outputs,
        };
    }
}

// Each box is placed: its column begins there by xs, and its row by ys.
fn place(boxes: &mut [BoxRecord], xs: &[u32; 144], ys: &[u32; 144])
    requires { All (λ b. (b.column ≤ 143) × (b.row ≤ 143)) boxes.old }
    ensures { boxes.new ≡ map (placed_at xs.now ys.now) boxes.old }
{
    for b in boxes.iter_mut() {
        b.x = xs[b.column as usize];
        b.y = ys[b.row as usize];
    }
}

// The ends of a box in their final place: `translate`.
fn moved(run: Run, b: &BoxRecord) -> Run
    requires { Near run b.now }
    ensures { result ≡ moved_to run b.now }
{
    Run {
        x: run.x + b.x,
        y: run.y + b.y,
        gap: run.gap,
    }
}

// Of a node's sinks, the one that a source of k belongs to: the one with the number that it marks, or the first that leads to k.
fn output_for(mut sinks: RunEnds<'_>, number: Option<u8>, k: u8) -> Option<End>
    ensures { result ≡ end_for number k (ends_left sinks.entry) }
{
    match number {
        None => sinks.find(|e| e.item.to == k),
        Some(i) => sinks.nth(i as usize),
    }
}

// The curves of these boxes, which have these ends.
fn all_curves(
    sources: &Items,
    sinks: &Items,
    sides: &[Sides],
    boxes: &[BoxRecord],
    all: &mut Table<Curve, 88>,
)
    requires few { length boxes.now ≤ 48 }
    requires same { length sides.now ≡ length boxes.now }
    requires inputs { (k : ℕ) → k < length boxes.now → Near (get_or sides.now k no_sides).inputs (get_or boxes.now k no_box) }
    requires outputs { (k : ℕ) → k < length boxes.now → Near (get_or sides.now k no_sides).outputs (get_or boxes.now k no_box) }
    requires aimed { Aimed (length boxes.now) (items_of sources.now) }
    requires none { all.old ≡ no_curves }
    ensures { all.new ≡ each no_curves (curves_at (items_of sources.now) (items_of sinks.now) (inputs_in sides.now boxes.now) (outputs_in sides.now boxes.now)) (length boxes.now) }
{
    for (k, b) in boxes.iter().enumerate() {
        let into = moved(sides[k].inputs, b);
        for e in into.ends(sources, k as u8) {
            let from = e.item.to as usize;
            let run = moved(sides[from].outputs, &boxes[from]);
            let ends = run.ends(sinks, e.item.to);
            if let Some(output) = output_for(ends, e.item.number(), k as u8) {
                all.push(Curve {
                    x0: output.point,
                    y0: run.y,
                    x1: e.point,
                    y1: into.y,
                });
            }
        }
    }
}

// The sheet of the graph with these columns and rows, at an origin. (The numbers that are many stand in arrays that are lent, for the memory.)
#[inline(never)]
pub fn laid(g: &Tables, rows: &[u8; 48], cols: &[u8; 48], x: u32, y: u32) -> SheetRecord
    requires seated { Seated g.now }
    requires bounded { Bounded 47 rows.now g.now.n }
    requires bounded_2 { Bounded 143 cols.now g.now.n }
    ensures { result ≡ record_of (sheet_of (graph_of g.now) g.now.cuts (take g.now.n cols.now) (take g.now.n rows.now)) x y }
{
    let n = g.n;
    let mut boxes = [BoxRecord::default(); 48];
    let mut sides = [Sides::default(); 48];
    render_nodes(g, rows, cols, &mut boxes, &mut sides);
    let last_column = largest_of(&cols[..n]);
    let last_row = largest_of(&rows[..n]);
    let mut xs = [0u32; 144];
    let mut ys = [0u32; 144];
    let width = Axis::Across.lay(&boxes[..n], last_column, &mut xs);
    let height = Axis::Down.lay(&boxes[..n], last_row, &mut ys);
    place(&mut boxes[..n], &xs, &ys);
    let mut drawn = Table::empty(Curve::default());
    all_curves(&g.sources, &g.sinks, &sides[..n], &boxes[..n], &mut drawn);
    let curves = drawn.items;
    SheetRecord {
        width,
        height,
        x,
        y,
        columns: last_column + 1,
        rows: last_row + 1,
        cuts: g.cuts,
        count: n as u8,
        drawn: drawn.count as u8,
        boxes,
        curves,
    }
}
