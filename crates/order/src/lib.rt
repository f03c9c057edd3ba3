// The order of the nodes: module 4 of document 01, pair weights, and module 5, chains.
#![tactic(auto)]

ghost use Rattle.std.specs.Prelude.{◌≡◌, true};
ghost use Rattle.graph.specs.Ends.{Linked as EndsLinked};
ghost use Rattle.graph.specs.code.Tables.{Linked, graph_of};
ghost use Rattle.graph.specs.Shape.{shape_of};
ghost use Rattle.order.specs.Chains.{columns};
ghost use Rattle.order.specs.Ordered.{columns_held, IsOrder, linked_of, IsColumns};

use chart::Setting;
use codes::LinkedEnds;
use columns::first_of;
use graph::{Ends, Lead, Tables};
use refusals::Refusal;
use tables::Table;

mod chains;
mod codes;
mod columns;
mod keys;
mod sums;
mod weights;

// A node, by its number.
#[derive(Clone, Copy, Default, PartialEq, Eq, PartialOrd, Ord)]
pub struct NodeNumber(pub u8);

// The first columns, that of node p at p, and 0 past the last.
pub type Columns = Table<u8, 48>;

// The first columns of a graph.
fn drawn(g: Tables) -> Columns
    requires { Linked g }
    ensures { result ≡ columns_held (columns (shape_of (graph_of g))) }
{
    let sources = graph::ends_of(g.sources);
    let sinks = graph::ends_of(g.sinks);
    first_of(&LinkedEnds {
        sources: &sources,
        sinks: &sinks,
        n: g.n,
    })
}

// Each node's first column, or the first refusal of 1 to 13.
pub fn order(chart: &[u8], setting: Setting) -> Result<Columns, Refusal>
    ensures { IsOrder setting chart.now result }
{
    let g = graph::graph(chart, setting)?;
    Ok(drawn(g))
}

// Whether each of the ends is one of n nodes' and leads to one, with no count past its array.
fn linked(e: &Ends, n: usize) -> bool
    ensures test { result ≡ linked_of n e.now }
    ensures linked { result ≡ true → EndsLinked n e.now }
{
    let inside = |l: &Lead| (l.owner as usize) < n && (l.to as usize) < n;
    let leads = e.as_slice();
    n <= 48 && e.count <= 88 && leads.iter().all(inside)
}

// Each node's first column, from the sources and sinks of n nodes, which any caller may have made. Ends that are not linked have none.
pub fn order_of(sources: &Ends, sinks: &Ends, n: usize) -> Option<Columns>
    ensures { IsColumns n sources.now sinks.now result }
{
    if !linked(sources, n) || !linked(sinks, n) {
        return None;
    }
    Some(first_of(&LinkedEnds { sources, sinks, n }))
}
