// Where the sources and the sinks of each node lead, for the stages that go through them node by node.
ghost use Rattle.std.specs.Prelude.{◌≡◌, ◌+◌, ◌≤◌, ◌<◌, length};
ghost use Rattle.graph.specs.Ends.{targets_of, shape_from, Linked};
ghost use Rattle.graph.specs.Shape.{incidents_at};
ghost use Rattle.grid.specs.Columns.{incidents};
ghost use Rattle.grid.specs.code.Arrays.{Inside};
ghost use Rattle.grid.specs.code.Leads.{with_all};

use graph::{Ends, Lead};
use std::marker::Model;
use tables::Table;

// The sources of node p stand from bounds[2 p] up to bounds[2 p + 1], its sinks from there up to bounds[2 p + 2]. A contract sees the shape that this holds.
#[derive(Drop)]
pub struct Leads {
    nodes: usize,
    to: Table<u8, 176>,
    bounds: [u8; 97],
}

impl Model for Leads {
    ghost use Rattle.graph.specs.Shape.{Shape};
    ghost use Rattle.grid.specs.code.Leads.{shape_in, Led};

    ghost Value = { Shape };

    ghost view = { λ l. shape_in l.nodes l.to.items l.bounds };

    ghost invariant = { λ l. Led l.nodes l.to.items l.bounds };
}

impl Leads {
    // How many nodes there are.
    pub fn nodes(&self) -> usize
        ensures { (result ≡ length self.now) × (result ≤ 48) }
    {
        self.nodes
    }

    // The nodes that node p leads to: its sources, then its sinks.
    pub fn incidents(&self, p: usize) -> &[u8]
        requires { p < length self.now }
        ensures are { result.now ≡ incidents self.now p }
        ensures few { length result.now ≤ 176 }
        ensures nodes { Inside (length self.now) result.now }
    {
        let bounds = &self.bounds;
        let from = bounds[2 * p] as usize;
        let end = bounds[2 * p + 2] as usize;
        &self.to.items[from..end]
    }

    // How many of them are sources.
    pub fn sources(&self, p: usize) -> usize
        requires { p < length self.now }
        ensures { result ≡ length (incidents_at self.now p).sources }
    {
        let bounds = &self.bounds;
        (bounds[2 * p + 1] - bounds[2 * p]) as usize
    }
}

// The ends of node p are put into the table.
fn put_ends(leads: &[Lead], p: u8, to: &mut Table<u8, 176>)
    requires { to.old.count + length (targets_of p leads.now) ≤ 176 }
    ensures { to.new ≡ with_all to.old (targets_of p leads.now) }
{
    for l in leads {
        if l.owner == p {
            to.push(l.to);
        }
    }
}

// The sources and the sinks of n nodes.
#[inline(never)]
pub fn leads_of(sources: &Ends, sinks: &Ends, n: usize) -> Leads
    requires { Linked n sources.now × Linked n sinks.now }
    ensures { result ≡ shape_from n sources.now sinks.now }
{
    let mut to = Table::empty(0u8);
    let mut bounds = [0u8; 97];
    for p in 0..n {
        put_ends(sources.as_slice(), p as u8, &mut to);
        bounds[2 * p + 1] = to.count as u8;
        put_ends(sinks.as_slice(), p as u8, &mut to);
        bounds[2 * p + 2] = to.count as u8;
    }
    Leads {
        nodes: n,
        to,
        bounds,
    }
}
