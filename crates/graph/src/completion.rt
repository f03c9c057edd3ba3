// Edge completion.
ghost use Rattle.std.specs.Prelude.{◌≡◌, true, ◌+◌, ◌<◌, ◌≤◌, length, take};
ghost use Rattle.graph.specs.Graph.{leads_to};
ghost use Rattle.graph.specs.code.Tables.{items_of, owned, held, gained_in, Owned, SinkGained, Fit, SinksDone, SourcesDone, Charted, Completed};

use crate::records::{sink_of, source_of};
use crate::{Item, Items, Tables};

// Whether a record has the owner, the target and the mark of x.
fn has_marked(items: &[Item], x: Item) -> bool
    ensures { result ≡ held x items.now }
{
    items
        .iter()
        .any(|e| e.owner == x.owner && e.to == x.to && e.mark == x.mark)
}

// The source's node gains it, unless it has it already, or is none of the n nodes.
fn gain_source(sources: &mut Items, n: usize, source: Item)
    requires { sources.old.count < 88 }
    ensures items { items_of sources.new ≡ gained_in n (items_of sources.old) source }
    ensures count { sources.new.count ≤ sources.old.count + 1 }
    ensures kept { held source (items_of sources.old) ≡ true → sources.new.count ≡ sources.old.count }
{
    if n <= source.owner as usize || has_marked(sources.as_slice(), source) {
        return;
    }
    sources.push(source);
}

// The sinks of p: each end that lacks its source gains it. (The given sinks are counted for the promise alone.)
fn complete_sinks(t: &mut Tables, p: u8, given: usize)
    requires fit { Fit given t.old }
    requires p_lt_n { p < t.old.n }
    requires sinks_bound { t.old.sources.count + length (owned p (take given (items_of t.old.sinks))) ≤ 64 }
    ensures { SinksDone given t.old p t.new }
{
    let own = t.sinks.as_slice().iter().filter(|e| e.owner == p);
    for (i, e) in own.enumerate() {
        gain_source(&mut t.sources, t.n, source_of(p, i as u8, e.to));
    }
}

// Whether q owns a record with target p.
fn leads_to(items: &[Item], q: u8, p: u8) -> bool
    ensures { result ≡ leads_to (owned q items.now) p }
{
    items.iter().any(|e| e.owner == q && e.to == p)
}

// How many records q owns.
pub fn count_owned(items: &[Item], q: u8) -> usize
    ensures { result ≡ length (owned q items.now) }
{
    items.iter().filter(|e| e.owner == q).count()
}

// Source k: where its node has no sink to its owner, it gains one, and the source's mark is that sink's number. A source that leads to no
// node is passed over.
fn gain_sink(t: &mut Tables, k: usize)
    requires owned { Owned t.old }
    requires k_lt_count { k < length (items_of t.old.sources) }
    requires count_bound { t.old.sinks.count < 88 }
    ensures { SinkGained t.old k t.new }
{
    let e = t.sources.as_slice()[k];
    if t.n <= e.to as usize {
        return;
    }
    if leads_to(t.sinks.as_slice(), e.to, e.owner) {
        return;
    }
    let number = count_owned(t.sinks.as_slice(), e.to) as u8;
    t.sources.items[k].mark = Item::marked(number);
    t.sinks.push(sink_of(e.owner, e.to));
}

// The sources of p: each end that lacks its sink gains it.
fn complete_sources(t: &mut Tables, p: u8, given: usize)
    requires fit { Fit given t.old }
    requires p_lt_n { p < t.old.n }
    ensures { SourcesDone given t.old p t.new }
{
    for k in 0..t.sources.count {
        if t.sources.as_slice()[k].owner == p {
            gain_sink(t, k);
        }
    }
}

// Each end that lacks its other end gains it, node by node.
pub fn complete(t: &mut Tables)
    requires { Charted t.old }
    ensures { Completed t.old t.new }
{
    let given = t.sinks.as_slice().len();
    for p in 0..t.n as u8 {
        complete_sinks(t, p, given);
        complete_sources(t, p, given);
    }
}
