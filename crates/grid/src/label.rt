// The labels of a box: the entries of `text`, by number.
ghost use Rattle.std.specs.Prelude.{◌≡◌, ◌<◌, ◌≤◌};
ghost use Rattle.graph.specs.Graph.{node_at};
ghost use Rattle.graph.specs.code.Tables.{graph_of};
ghost use Rattle.grid.specs.code.Rendered.{Seated};
ghost use Rattle.grid.specs.code.Sited.{end_place, node_label};

use crate::render_node::row::End;
use crate::render_node::{Run, node_of};
use crate::{LabelPlace, TextPlace};
use graph::Tables;
use lines::LineLabels;

mod lines;

// The label of an end, at height y; it has none without a text.
fn end_label(e: End, y: u32) -> Option<LabelPlace>
    ensures { result ≡ end_place y e }
{
    if e.item.len == 0 {
        return None;
    }
    Some(LabelPlace {
        x: e.x,
        y,
        size: 232,
        width: e.width,
        text: TextPlace::InChart {
            at: e.item.at,
            len: e.item.len,
        },
    })
}

// Label i of node p, whose box is at x and y: those of its sources, of its lines and of its sinks. (It takes the place alone: the
// sheet by value would be copied, on the unit's stack.)
pub fn label_at(g: &Tables, p: usize, x: u32, y: u32, i: usize) -> Option<LabelPlace>
    requires seated { Seated g.now }
    requires p_lt_n { p < g.now.n }
    requires x_bound { x ≤ 1250000000 }
    requires y_bound { y ≤ 1250000000 }
    ensures { result ≡ node_label (node_at (graph_of g.now) p) x y i }
{
    let node = node_of(g, p);
    let q = p as u8;
    let above = Run {
        x: node.inputs.x + x,
        y: node.inputs.y + 256 - 48 + y,
        gap: node.inputs.gap,
    };
    let below = Run {
        x: node.outputs.x + x,
        y: node.outputs.y - 48 + y,
        gap: node.outputs.gap,
    };
    let sources = above
        .ends(&g.sources, q)
        .filter_map(|e| end_label(e, above.y));
    let lines = LineLabels::new(&g.lines, g.names[p], q, node.cx + x, node.cy + y);
    let sinks = below
        .ends(&g.sinks, q)
        .filter_map(|e| end_label(e, below.y));
    sources.chain(lines).chain(sinks).nth(i)
}
