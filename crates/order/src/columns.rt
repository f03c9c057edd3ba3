// The first columns of n nodes.
ghost use Rattle.std.specs.Prelude.{◌≡◌, length};
ghost use Rattle.graph.specs.Ends.{shape_from};
ghost use Rattle.graph.specs.Shape.{Shape};
ghost use Rattle.order.specs.Chains.{columns};
ghost use Rattle.order.specs.Ordered.{columns_held};
ghost use Rattle.order.specs.code.Sums.{Codes, Charted};

use crate::Columns;
use crate::codes::{LinkedEnds, Pair};
use crate::keys::{Key, chained};
use crate::sums::sort;
use crate::weights::pair_weights;
use tables::Table;

// Each node's first column, from the codes.
fn first_columns(codes: &[Pair], n: usize) -> Columns
    requires { Charted codes.now n }
    ensures { (g : Shape) → Codes g codes.now → length g ≡ n → result ≡ columns_held (columns g) }
{
    let mut sums = [0u32; 1128];
    pair_weights(codes, n, &mut sums);
    let mut keys: Table<Key, 352> = Table::empty(Key::default());
    sort(codes, &sums, &mut keys);
    let h = chained(keys.as_slice(), n);
    let starts = h.starts();
    h.columns(&starts)
}

// Each node's first column, from the sources and sinks of all nodes.
pub fn first_of(nodes: &LinkedEnds) -> Columns
    ensures { result ≡ columns_held (columns (shape_from nodes.now.n nodes.now.sources.now nodes.now.sinks.now)) }
{
    let mut codes: Table<Pair, 352> = Table::empty(Pair::default());
    nodes.push_all(&mut codes);
    first_columns(codes.as_slice(), nodes.n)
}
