// A node's box, as `RenderNode::new` has it: its numbers before `translate`.
ghost use Rattle.std.specs.Prelude.{◌≡◌, ◌++◌, map, ◌<◌, ◌≤◌};
ghost use Rattle.chart.specs.code.Filled.{owned_lines, lines_of};
ghost use Rattle.graph.specs.Graph.{given, node_at};
ghost use Rattle.graph.specs.code.Tables.{owned, items_of, name_line, graph_of};
ghost use Rattle.grid.specs.code.Rendered.{ends_of, center_of, gap_from, first_from, lines_from, text_from, empty_from, inner_from, render_from, render_of, Modest, Seated};

use chart::Lines;
use graph::{Items, Name, Tables};

pub mod row;

// The ends that a node has on one side: the characters of their texts together, and how many they are.
#[derive(Clone, Copy)]
pub struct Ends {
    pub len: u16,
    pub count: u8,
}

// The lines of a node: the characters of the longest, and how many they are.
#[derive(Clone, Copy, Default)]
pub struct Center {
    pub longest: u8,
    pub count: u8,
}

// The ends of one side as they are laid: where the first text begins, the space after each, and the height of their points.
#[derive(Clone, Copy, Default)]
pub struct Run {
    pub x: u32,
    pub y: u32,
    pub gap: u32,
}

// A node's inputs and outputs.
#[derive(Clone, Copy, Default)]
pub struct Sides {
    pub inputs: Run,
    pub outputs: Run,
}

// A box: its size, its inputs and outputs, where its lines begin and the height above the first of them.
#[derive(Clone, Copy)]
pub struct RenderNode {
    pub width: u32,
    pub height: u32,
    pub inputs: Run,
    pub outputs: Run,
    pub cx: u32,
    pub cy: u32,
}

// The ends that p owns in the table. (One loop for both numbers: chains for each, here and below, took a seventh more instructions for a sheet.)
fn ends_of(t: &Items, p: u8) -> Ends
    ensures { result ≡ ends_of (owned p (items_of t.now)) }
{
    let mut len = 0u16;
    let mut count = 0u8;
    for e in t.as_slice() {
        if e.owner == p {
            len += e.len as u16;
            count += 1;
        }
    }
    Ends { len, count }
}

// The line that a node's name holds.
pub fn name_line(name: Name) -> Center
    ensures { result ≡ center_of (name_line name) }
{
    let longest = match name {
        Name::Nothing => return Center::default(),
        Name::Number(0..=9) => 2,
        Name::Number(_) => 3,
        Name::Invalid(0..=9) => 11,
        Name::Invalid(10..=99) => 12,
        Name::Invalid(_) => 13,
    };
    Center { longest, count: 1 }
}

// The lines that p owns in the table, and that of its name.
fn center_of(t: &Lines, name: Name, p: u8) -> Center
    ensures { result ≡ center_of (map given (owned_lines p (lines_of t.now)) ++ name_line name) }
{
    let mut longest = 0u8;
    let mut count = 0u8;
    for e in t.as_slice() {
        if e.owner == p {
            longest = longest.max(e.len);
            count += 1;
        }
    }
    let last = name_line(name);
    Center {
        longest: longest.max(last.longest),
        count: count + last.count,
    }
}

// The space between the texts of so many ends, of `free` in all.
fn separation(free: u32, count: u8) -> u32
    ensures { result ≡ gap_from free count }
{
    if count < 2 {
        return free / 2;
    }
    free / (count as u32 - 1)
}

// Where the first text begins: a single one stands in the middle.
fn first_x(gap: u32, count: u8) -> u32
    requires { gap ≤ 16777216 }
    ensures { result ≡ first_from gap count }
{
    if count == 1 { 128 + gap } else { 128 }
}

// The height of so many lines.
fn lines_height(count: u8) -> u32
    ensures { result ≡ lines_from count }
{
    if count == 0 {
        return 0;
    }
    640 * (count as u32) - 128
}

// The height of the ends' texts.
fn text_height(len: u16) -> u32
    ensures { result ≡ text_from len }
{
    if 0 < len { 256 } else { 0 }
}

// PAD, where the node is empty.
fn empty_height(inner: u32) -> u32
    ensures { result ≡ empty_from inner }
{
    if inner == 128 { 128 } else { 0 }
}

// The width in which the parts are laid.
fn inner_width(a: Ends, c: Center, b: Ends) -> u32
    ensures { result ≡ inner_from a c b }
{
    let wide = (128 * (a.len as u32)).max(128 * (b.len as u32));
    wide.max(256 * (c.longest as u32)) + 128
}

// The box of a node with these sources, lines and sinks.
fn render_node(a: Ends, c: Center, b: Ends) -> RenderNode
    ensures { (result ≡ render_from a c b) × Modest result }
{
    let inner = inner_width(a, c, b);
    let empty = empty_height(inner);
    let source_gap = separation(inner - 128 * (a.len as u32), a.count);
    let sink_gap = separation(inner - 128 * (b.len as u32), b.count);
    let cy = empty + text_height(a.len) + 128;
    let y = cy + lines_height(c.count) + text_height(b.len);
    let inputs = Run {
        x: first_x(source_gap, a.count),
        y: empty,
        gap: source_gap,
    };
    let outputs = Run {
        x: first_x(sink_gap, b.count),
        y,
        gap: sink_gap,
    };
    RenderNode {
        width: inner + 256,
        height: y + empty,
        inputs,
        outputs,
        cx: (inner - 256 * (c.longest as u32)) / 2 + 128,
        cy,
    }
}

// The box of node p, before `translate`.
pub fn node_of(g: &Tables, p: usize) -> RenderNode
    requires seated { Seated g.now }
    requires p_lt_n { p < g.now.n }
    ensures { (result ≡ render_of (node_at (graph_of g.now) p)) × Modest result }
{
    let q = p as u8;
    let sources = ends_of(&g.sources, q);
    let lines = center_of(&g.lines, g.names[p], q);
    let sinks = ends_of(&g.sinks, q);
    render_node(sources, lines, sinks)
}
