// What roots reach: a depth-first walk with an explicit path.
ghost use Rattle.std.specs.Prelude.{◌≡◌, ◌<◌, take};
ghost use Rattle.graph.specs.code.Tables.{Linked, graph_of, owned};
ghost use Rattle.graph.specs.Graph.{none?};
ghost use Rattle.graph.specs.Cutting.{mark_from, reached};

use crate::{Item, NODES, Tables};
use tables::Table;

// How a node stands in the walks.
#[derive(Clone, Copy, PartialEq, Eq)]
pub enum Seen {
    Unseen,
    Marked,
    OnPath,
    Explored,
}

// A node on the path, and the number of what it looks at next: in this module a place in the table of sinks, in cutting.rt the number of a sink of the
// node, which a cut writes down.
#[derive(Clone, Copy, Default)]
pub struct Frame {
    pub node: u8,
    pub next: u8,
}

// The nodes that a walk from p reaches are marked. One step: the last node of the path looks at one record of the table, or leaves the path at the table's
// end. (Calls in place of a path would have no bound.)
fn mark_from(t: &Tables, seen: &mut [Seen; NODES], p: u8)
    requires linked { Linked t.now }
    requires p_lt_n { p < t.now.n }
    ensures { take t.now.n seen.new ≡ mark_from t.now.n (graph_of t.now) (take t.now.n seen.old) p }
{
    if seen[p as usize] != Seen::Unseen {
        return;
    }
    seen[p as usize] = Seen::Marked;
    let sinks = t.sinks.as_slice();
    let mut path: Table<Frame, NODES> = Table::empty(Frame::default());
    path.push(Frame { node: p, next: 0 });
    while let Some(f) = path.pop() {
        let Some(e) = sinks.get(f.next as usize) else {
            continue;
        };
        path.push(Frame {
            next: f.next + 1,
            ..f
        });
        if e.owner == f.node && seen[e.to as usize] == Seen::Unseen {
            seen[e.to as usize] = Seen::Marked;
            path.push(Frame {
                node: e.to,
                next: 0,
            });
        }
    }
}

// Whether p owns none of the records.
fn owns_none(items: &[Item], p: u8) -> bool
    ensures { result ≡ none? (owned p items.now) }
{
    items.iter().all(|e| e.owner != p)
}

// What roots reach is marked.
pub fn mark_roots(t: &Tables) -> [Seen; NODES]
    requires { Linked t.now }
    ensures { take t.now.n result ≡ reached (graph_of t.now) }
{
    let mut seen = [Seen::Unseen; NODES];
    for p in 0..t.n {
        if owns_none(t.sources.as_slice(), p as u8) {
            mark_from(t, &mut seen, p as u8);
        }
    }
    seen
}
