// Document 02, L2: the signal order of a chart's nodes, or a cycle. The chart is read in the strict setting (L5).
#![tactic(auto)]

ghost use Rattle.std.specs.Prelude.{◌≡◌, ◌≤◌, length, reverse};
ghost use Rattle.walks.specs.Walks.{up_to};
ghost use Rattle.graph.specs.Shape.{shape_of};
ghost use Rattle.graph.specs.Ends.{targets_of};
ghost use Rattle.graph.specs.code.Tables.{Linked, graph_of};
ghost use Rattle.signal.specs.Signal.{is_left, free, lowest, listed, behind, back_from, signalled_by, signalled};
ghost use Rattle.signal.specs.Outcome.{nodes_held, answer_of, no_order_numbers};
ghost use Rattle.signal.specs.code.Nodes.{sources_of, out_of, lowest_of};
ghost use Rattle.signal.specs.Laws.{IsSignalOrder};
ghost use Rattle.signal.specs.declared.NoOrder.TheVariants.{Refused};

use graph::{Lead, Tables};
use refusals::{Numbers, Refusal};
use tables::Table;

// The number of the refusal that an order has beside those of a chart.
pub const CYCLE: u8 = 20;

// Nodes, and 0 past the last.
pub type Nodes = Table<u8, 32>;

// Why there is no order: the chart is refused, or its graph has a cycle (20), whose nodes these are.
#[derive(Clone, Copy)]
pub enum NoOrder {
    Refused(Refusal),
    Cycle(Nodes),
}

impl From<Refusal> for NoOrder {
    ghost from_gives = { λ why n. n ≡ Refused why };

    fn from(why: Refusal) -> Self {
        NoOrder::Refused(why)
    }
}

impl NoOrder {
    // The number of the refusal, and its second number.
    pub fn numbers(&self) -> Numbers
        ensures { result ≡ no_order_numbers self.now }
    {
        match self {
            NoOrder::Refused(why) => why.numbers(),
            NoOrder::Cycle(_) => Numbers {
                first: CYCLE,
                second: 0,
            },
        }
    }
}

// The path, the last first, up to q.
fn cut_at(path: &[u8], q: u8) -> Nodes
    requires { length path.now ≤ 32 }
    ensures { result ≡ nodes_held (up_to q (reverse path.now)) }
{
    let mut nodes = Table::empty(0);
    for &node in path.iter().rev() {
        nodes.push(node);
        if node == q {
            break;
        }
    }
    nodes
}

// The sources of n nodes: a lead for each.
#[derive(Drop)]
struct Sources<'a> {
    leads: &'a [Lead],
    n: u8,
    ghost few: { n ≤ 32 },
}

impl<'a> Sources<'a> {
    // The first source of p that is not among the nodes done, if there is one.
    fn first_out(&self, done: &[u8], p: u8) -> Option<u8>
        ensures { result ≡ out_of done.now (targets_of p self.now.leads.now) }
    {
        self.leads
            .iter()
            .find(|e| e.owner == p && !done.contains(&e.to))
            .map(|e| e.to)
    }

    // Whether p is free: it is not among the nodes done, and each of its sources is.
    fn is_free(&self, done: &[u8], p: u8) -> bool
        ensures { result ≡ free (sources_of self.now.leads.now) done.now p }
    {
        !done.contains(&p) && self.first_out(done, p).is_none()
    }

    // The lowest free number, if one is free.
    fn lowest_free(&self, done: &[u8]) -> Option<u8>
        ensures { result ≡ lowest_of self.now.n (free (sources_of self.now.leads.now) done.now) }
    {
        (0..self.n).find(|&p| self.is_free(done, p))
    }

    // The lowest free number next, as long as there is one.
    fn list(&self) -> Nodes
        ensures whole { result ≡ nodes_held (listed self.now.n (sources_of self.now.leads.now) self.now.n) }
        ensures few { result.count ≤ 32 }
    {
        let mut nodes = Table::empty(0);
        for _ in 0..self.n {
            let Some(p) = self.lowest_free(nodes.as_slice()) else {
                break;
            };
            nodes.push(p);
        }
        nodes
    }

    // The lowest number that is not among the nodes done; n where each is, as the definition has it.
    fn first_left(&self, done: &[u8]) -> u8
        ensures { result ≡ lowest self.now.n (is_left done.now) 0 }
    {
        (0..self.n).find(|q| !done.contains(q)).unwrap_or(self.n)
    }

    // The first of p's sources that is not among the nodes done; 0 where each is, as the definition has it.
    fn source_left(&self, done: &[u8], p: u8) -> u8
        ensures { result ≡ behind (sources_of self.now.leads.now) done.now p }
    {
        self.first_out(done, p).unwrap_or(0)
    }

    // From the lowest node left back to sources that are left, until a node comes again.
    fn find_cycle(&self, done: &[u8]) -> Nodes
        ensures { result ≡ nodes_held (back_from self.now.n (sources_of self.now.leads.now) done.now) }
    {
        let first = self.first_left(done);
        let mut path: Nodes = Table::empty(0);
        path.push(first);
        let mut q = self.source_left(done, first);
        for _ in 1..self.n {
            if path.as_slice().contains(&q) {
                break;
            }
            path.push(q);
            q = self.source_left(done, q);
        }
        cut_at(path.as_slice(), q)
    }

    // The signal order of the nodes, or a cycle.
    fn order(&self) -> Result<Nodes, NoOrder>
        ensures { result ≡ answer_of (signalled_by self.now.n (sources_of self.now.leads.now)) }
    {
        let all = self.list();
        if all.count == self.n as usize {
            return Ok(all);
        }
        Err(NoOrder::Cycle(self.find_cycle(all.as_slice())))
    }
}

// The signal order of a completed graph.
fn ordered_of(g: Tables) -> Result<Nodes, NoOrder>
    requires linked { Linked g }
    requires n_bound { g.n ≤ 32 }
    ensures { result ≡ answer_of (signalled (shape_of (graph_of g))) }
{
    let ends = graph::ends_of(g.sources);
    let sources = Sources {
        leads: ends.as_slice(),
        n: g.n as u8,
    };
    sources.order()
}

// The signal order of a chart's nodes, or a cycle (20), or the first refusal of 1 to 12.
pub fn signal_order(chart: &[u8]) -> Result<Nodes, NoOrder>
    ensures { IsSignalOrder chart.now result }
{
    let g = graph::completed(chart)?;
    ordered_of(g)
}
