// Joining: each end that leads to none of the given nodes gets a box of its own.
ghost use Rattle.std.specs.Prelude.{◌≡◌, ◌<◌, ◌≤◌, length};
ghost use Rattle.graph.specs.Graph.{node_at};
ghost use Rattle.graph.specs.Joining.{leads, join_sinks, join_sources, joined};
ghost use Rattle.graph.specs.code.Tables.{graph_of, far, Standing, Fits, EndsJoined, Joined};

use crate::completion::count_owned;
use crate::records::{add_box, sink_of, source_of};
use crate::{Item, Name, Tables};

// How many records lead to none of the first n nodes.
fn count_far(items: &[Item], n: usize) -> usize
    ensures { result ≡ length (far n items.now) }
{
    items.iter().filter(|e| n <= e.to as usize).count()
}

// How many ends lead to none of the nodes.
pub fn count_leads(t: &Tables) -> usize
    requires { Standing t.now }
    ensures { (result ≡ leads t.now.n (graph_of t.now)) × (result ≤ 176) }
{
    count_far(t.sinks.as_slice(), t.n) + count_far(t.sources.as_slice(), t.n)
}

// The sinks of p: each that leads to none of the first n nodes gets a box, which has its source. (By place, since a turn writes both tables.)
fn join_sinks(t: &mut Tables, p: u8, n: usize)
    requires standing { Standing t.old }
    requires p_lt_n { p < t.old.n }
    requires fits { Fits (join_sinks n (graph_of t.old) p 0 (node_at (graph_of t.old) p).sinks) }
    ensures { EndsJoined (join_sinks n) (λ x. x.sinks) t.old p t.new }
{
    for k in 0..t.sinks.as_slice().len() {
        let e = t.sinks.items[k];
        if e.owner != p || (e.to as usize) < n {
            continue;
        }
        let i = count_owned(&t.sinks.items[..k], p) as u8;
        let a = add_box(t, Name::Invalid(e.to));
        t.sources.push(source_of(p, i, a));
        t.sinks.items[k].to = a;
    }
}

// The sources of p: each that leads to none of the first n nodes gets a box, which has its sink.
fn join_sources(t: &mut Tables, p: u8, n: usize)
    requires standing { Standing t.old }
    requires p_lt_n { p < t.old.n }
    requires fits { Fits (join_sources n (graph_of t.old) p 0 (node_at (graph_of t.old) p).sources) }
    ensures { EndsJoined (join_sources n) (λ x. x.sources) t.old p t.new }
{
    for k in 0..t.sources.as_slice().len() {
        let e = t.sources.items[k];
        if e.owner != p || (e.to as usize) < n {
            continue;
        }
        let a = add_box(t, Name::Invalid(e.to));
        t.sinks.push(sink_of(p, a));
        t.sources.items[k].to = a;
    }
}

// Each end that leads to none of the nodes gets a box, node by node, sinks first; there are `count` such ends.
pub fn join(t: &mut Tables, count: usize)
    requires standing { Standing t.old }
    requires fits { Fits (joined t.old.n (graph_of t.old)) }
    requires count_value { count ≡ leads t.old.n (graph_of t.old) }
    ensures { Joined t.old t.new }
{
    if count == 0 {
        return;
    }
    let n = t.n;
    for p in 0..n {
        join_sinks(t, p as u8, n);
        join_sources(t, p as u8, n);
    }
}
