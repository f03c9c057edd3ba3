// The codes: one node against another, list by list and node by node.
ghost use Rattle.std.specs.Prelude.{◌≡◌, ◌+◌, ◌-◌, ◌*◌, ◌≤◌, length, map, take};
ghost use Rattle.graph.specs.Ends.{targets_of, ends_of, incidents_in, shape_from, Linked};
ghost use Rattle.order.specs.Against.{against, neighbours, reversed_if};
ghost use Rattle.order.specs.code.Sums.{code_of, Codes};
ghost use Rattle.order.specs.code.Codes.{held, Pushed, with_from, list_codes, node_codes};

use graph::{Ends, Lead};
use tables::Table;

// Where the leads of node p lead, in order.
fn targets_of(leads: &[Lead], p: u8) -> Table<u8, 88>
    requires { length leads.now ≤ 88 }
    ensures { result ≡ held (targets_of p leads.now) }
{
    let mut to = Table::empty(0);
    for e in leads {
        if e.owner == p {
            to.push(e.to);
        }
    }
    to
}

// A code, one node against another: the first is to stand before the second.
#[derive(Clone, Copy, Default)]
pub struct Pair {
    pub first: u8,
    pub second: u8,
}

// p against q.
fn code(p: u8, q: u8) -> Pair
    ensures { result ≡ code_of (against p q) }
{
    Pair {
        first: p,
        second: q,
    }
}

// p against q, or reversed.
fn pair_code(reversed: bool, p: u8, q: u8) -> Pair
    ensures { result ≡ code_of (reversed_if reversed p q) }
{
    if reversed { code(q, p) } else { code(p, q) }
}

// Each target against the next.
fn push_neighbours(to: &[u8], codes: &mut Table<Pair, 352>)
    requires { codes.old.count + (length to.now - 1) ≤ 352 }
    ensures { Pushed codes.old codes.new (map code_of (neighbours to.now)) }
{
    for pair in to.windows(2) {
        codes.push(code(pair[0], pair[1]));
    }
}

// Node p against each target, reversed from the target turn on.
fn push_pairs(to: &[u8], p: u8, turn: usize, codes: &mut Table<Pair, 352>)
    requires { codes.old.count + length to.now ≤ 352 }
    ensures { Pushed codes.old codes.new (map code_of (with_from p turn 0 to.now)) }
{
    for (k, &q) in to.iter().enumerate() {
        codes.push(pair_code(turn <= k, p, q));
    }
}

// The neighbours in a list of node p, and p against each of it, reversed from half the list on, or from one later.
fn push_list(leads: &[Lead], p: u8, later: usize, codes: &mut Table<Pair, 352>)
    requires few { (length leads.now ≤ 88) × (later ≤ 1) }
    requires room { codes.old.count + 2 * length (targets_of p leads.now) ≤ 352 }
    ensures { Pushed codes.old codes.new (list_codes later p (targets_of p leads.now)) }
{
    let t = targets_of(leads, p);
    let to = t.as_slice();
    push_neighbours(to, codes);
    push_pairs(to, p, to.len() / 2 + later, codes);
}

// The sources and the sinks of n nodes, whose leads go from one of these nodes to one.
#[derive(Clone, Copy)]
pub struct LinkedEnds<'a> {
    pub sources: &'a Ends,
    pub sinks: &'a Ends,
    pub n: usize,
    ghost sources_linked: { Linked n sources.now },
    ghost sinks_linked: { Linked n sinks.now },
}

impl LinkedEnds<'_> {
    // All of node p: its sources are reversed past half the list, its sinks from half on.
    fn push_node(&self, p: u8, codes: &mut Table<Pair, 352>)
        requires { codes.old.count + 2 * length (ends_of self.now.sources.now p) + 2 * length (ends_of self.now.sinks.now p) ≤ 352 }
        ensures { Pushed codes.old codes.new (node_codes p (incidents_in self.now.sources.now self.now.sinks.now p)) }
    {
        push_list(self.sources.as_slice(), p, 1, codes);
        push_list(self.sinks.as_slice(), p, 0, codes);
    }

    // The codes of all nodes.
    pub fn push_all(&self, codes: &mut Table<Pair, 352>)
        requires { codes.old.count ≡ 0 }
        ensures { Codes (shape_from self.now.n self.now.sources.now self.now.sinks.now) (take codes.new.count codes.new.items) }
    {
        for p in 0..self.n {
            self.push_node(p as u8, codes);
        }
    }
}
