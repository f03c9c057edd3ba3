// Cutting: a depth-first walk with an explicit path that cuts each sink to a node on the path.
ghost use Rattle.std.specs.Prelude.{◌≡◌, map, ◌++◌, ◌+◌, ◌<◌, ◌≤◌, get_or, length, set, MatchOption};
ghost use Rattle.laws.specs.Lists.{one};
ghost use Rattle.graph.specs.code.Tables.{items_of, owned, point_item, turn_item, source_of, sink_of, CutTo, Roomy, Sunk};
ghost use Rattle.graph.specs.Outcome.{no_item};
ghost use Rattle.graph.specs.code.Explore.{CyclesCut};

use crate::reach::{Frame, Seen, mark_roots};
use crate::records::{add_box, sink_of, source_of};
use crate::{Item, Items, NODES, Name, Tables};
use refusals::Refusal;
use tables::Table;

// The place of sink s of c, if c has one.
fn find_sink(items: &[Item], c: u8, s: u8) -> Option<usize>
    ensures { MatchOption result (length (owned c items.now) ≤ s) (λ k. Sunk items.now c s k) }
{
    items
        .iter()
        .enumerate()
        .filter(|(_, e)| e.owner == c)
        .nth(s as usize)
        .map(|(k, _)| k)
}

// Every source of q with target c becomes (to, mark 0).
fn turn(sources: &mut [Item], q: u8, c: u8, to: u8)
    ensures { sources.new ≡ map (turn_item q c to) sources.old }
{
    for e in sources {
        if e.owner == q && e.to == c {
            e.to = to;
            e.mark = Item::marked(0);
        }
    }
}

// Sink s of c, record k, which leads to q, is cut: it leads to the first new node, a, which has its source; the second, b, has a sink to q, and every
// source of q with target c leads to b.
fn cut_sink(t: &mut Tables, c: u8, s: u8, k: usize)
    requires roomy { Roomy t.old }
    requires n_bound { t.old.n + 2 ≤ 48 }
    requires cuts_bound { t.old.cuts < 24 }
    requires sunk { Sunk (items_of t.old.sinks) c s k }
    ensures { CutTo t.old c s k t.new }
{
    let q = t.sinks.items[k].to;
    let a = add_box(t, Name::Number(q));
    let b = add_box(t, Name::Number(q));
    turn(&mut t.sources.items, q, c, b);
    t.sources.push(source_of(c, s, a));
    t.sinks.items[k].to = a;
    t.sinks.push(sink_of(q, b));
    t.cuts += 1;
}

// Every cycle that no root reaches is cut, unless that makes more than 48 nodes.
// One step: the last node of the path looks at its next sink, or leaves the path.
pub fn cut_cycles(t: &mut Tables) -> Result<(), Refusal>
    requires roomy { Roomy t.old }
    requires cuts_value { t.old.cuts ≡ 0 }
    ensures { CyclesCut t.old result t.new }
{
    let mut seen = mark_roots(t);
    for p in 0..t.n {
        if seen[p] != Seen::Unseen {
            continue;
        }
        seen[p] = Seen::OnPath;
        let mut path: Table<Frame, NODES> = Table::empty(Frame::default());
        path.push(Frame {
            node: p as u8,
            next: 0,
        });
        while let Some(f) = path.pop() {
            let Some(k) = find_sink(t.sinks.as_slice(), f.node, f.next) else {
                seen[f.node as usize] = Seen::Explored;
                continue;
            };
            path.push(Frame {
                next: f.next + 1,
                ..f
            });
            let q = t.sinks.items[k].to;
            match seen[q as usize] {
                Seen::Unseen => {
                    seen[q as usize] = Seen::OnPath;
                    path.push(Frame { node: q, next: 0 });
                }
                Seen::OnPath => {
                    let n = t.n;
                    if NODES < n + 2 {
                        return Err(Refusal::ManyBoxes);
                    }
                    cut_sink(t, f.node, f.next, k);
                    seen[n] = Seen::Explored;
                    seen[n + 1] = Seen::Explored;
                }
                Seen::Marked | Seen::Explored => {}
            }
        }
    }
    Ok(())
}
