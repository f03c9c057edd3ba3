// The labels of a node's lines, one below the other.
ghost use Rattle.std.specs.Prelude.{◌+◌, ◌*◌, ◌≤◌, length};

use crate::render_node::name_line;
use crate::{LabelPlace, TextPlace};
use chart::{Line, Lines};
use graph::Name;

// The lines of a node that are left, the next of them with y above it; that of its name, if it has one, is the last.
#[derive(Drop)]
pub struct LineLabels<'a> {
    rest: &'a [Line],
    owner: u8,
    name: Name,
    x: u32,
    y: u32,
    ghost low: { y + 640 * length rest.now ≤ 1250281920 },
}

impl LineLabels<'_> {
    ghost use Rattle.std.specs.Prelude.{◌≡◌, ◌++◌, map};
    ghost use Rattle.chart.specs.code.Filled.{owned_lines, lines_of};
    ghost use Rattle.graph.specs.Graph.{given};
    ghost use Rattle.graph.specs.code.Tables.{name_line};
    ghost use Rattle.grid.specs.RenderNode.{line_texts};
    ghost use Rattle.grid.specs.Labels.{place_of};
    ghost use Rattle.grid.specs.code.LineLabels.{labels_left};

    // Those of the lines that p owns and of its name; they begin at x, with y above them.
    pub fn new(t: &Lines, name: Name, p: u8, x: u32, y: u32) -> LineLabels<'_>
        requires { y ≤ 1250200000 }
        ensures { labels_left result ≡ map place_of (line_texts x y (map given (owned_lines p (lines_of t.now)) ++ name_line name)) }
    {
        LineLabels {
            rest: t.as_slice(),
            owner: p,
            name,
            x,
            y,
        }
    }
}

impl Iterator for LineLabels<'_> {
    ghost use Rattle.std.specs.Iterator.{YieldsFirst, item_count};
    ghost use Rattle.grid.specs.code.LineLabels.{labels_left};

    type Item = LabelPlace;

    ghost next_gives = { YieldsFirst labels_left };

    ghost remaining = { item_count labels_left };

    // `#q` is fixed text q, and `#t(invalid)` is text t + 31.
    fn next(&mut self) -> Option<LabelPlace> {
        let p = self.owner;
        let y = self.y + 512 - 192;
        if let Some(at) = self.rest.iter().position(|e| e.owner == p) {
            let line = self.rest[at];
            self.rest = &self.rest[at + 1..];
            self.y += 512 + 128;
            return Some(LabelPlace {
                x: self.x,
                y,
                size: 464,
                width: 256 * (line.len as u32),
                text: TextPlace::InChart {
                    at: line.at,
                    len: line.len,
                },
            });
        }
        let name = self.name;
        let number = match name {
            Name::Nothing => return None,
            Name::Number(q) => u16::from(q),
            Name::Invalid(t) => u16::from(t) + 31,
        };
        self.name = Name::Nothing;
        Some(LabelPlace {
            x: self.x,
            y,
            size: 464,
            width: 256 * (name_line(name).longest as u32),
            text: TextPlace::InTable(number),
        })
    }
}
