// The ends that a node has on one side, one after the other, each in its place.
ghost use Rattle.std.specs.Prelude.{◌+◌, ◌*◌, ◌≤◌, length};

use crate::render_node::Run;
use graph::{Item, Items};

// An end in its place: where its text begins, how wide that is, and the middle of it, where the end's point is.
#[derive(Clone, Copy)]
pub struct End {
    pub x: u32,
    pub width: u32,
    pub point: u32,
    pub item: Item,
}

// The ends of a run that are left: a node's, in the rest of a table. The next begins at x.
#[derive(Drop)]
pub struct RunEnds<'a> {
    rest: &'a [Item],
    owner: u8,
    x: u32,
    gap: u32,
    ghost narrow: { gap ≤ 8389000 },
    ghost low: { x + 8421640 * length rest.now ≤ 2041104320 },
}

impl Run {
    ghost use Rattle.std.specs.Prelude.{◌≡◌};
    ghost use Rattle.graph.specs.code.Tables.{items_of};
    ghost use Rattle.grid.specs.code.Laid.{Low};
    ghost use Rattle.grid.specs.code.Row.{ends_at, own, ends_left};

    // The ends that p owns in the table, laid so.
    pub fn ends(self, t: &Items, p: u8) -> RunEnds<'_>
        requires { Low self }
        ensures { ends_left result ≡ ends_at self.gap self.x (own p (items_of t.now)) }
    {
        RunEnds {
            rest: t.as_slice(),
            owner: p,
            x: self.x,
            gap: self.gap,
        }
    }
}

impl Iterator for RunEnds<'_> {
    ghost use Rattle.std.specs.Iterator.{YieldsFirst, item_count};
    ghost use Rattle.grid.specs.code.Row.{ends_left};

    type Item = End;

    ghost next_gives = { YieldsFirst ends_left };

    ghost remaining = { item_count ends_left };

    fn next(&mut self) -> Option<End> {
        let p = self.owner;
        let at = self.rest.iter().position(|e| e.owner == p)?;
        let item = self.rest[at];
        self.rest = &self.rest[at + 1..];
        let x = self.x;
        let width = 128 * (item.len as u32);
        self.x = x + width + self.gap;
        Some(End {
            x,
            width,
            point: x + width / 2,
            item,
        })
    }
}
