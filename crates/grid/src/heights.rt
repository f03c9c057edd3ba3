// Module 6 of document 01: heights. A walk with an explicit path, from row 0: its rows are signed.
ghost use Rattle.std.specs.Prelude.{◌≡◌, ◌<◌, ◌≤◌, ◌-◌, length, replicate, ◌++◌, nat_abs, None};
ghost use Rattle.grid.specs.Heights.{reached_from, lowered, fresh, start, heights};
ghost use Rattle.grid.specs.code.Walk.{signed_by, rows_of, reached_in, raised, AllNear, IsLeast};

use crate::leads::Leads;
use tables::Table;

// A node on the path, its row, and the place where it looks next among those that it leads to: sources first, then sinks.
#[derive(Clone, Copy, Default)]
pub struct Frame {
    pub node: u8,
    pub row: i8,
    pub at: u8,
}

// Sources are a row above, sinks a row below.
fn row_by(up: bool, row: i8) -> i8
    requires { nat_abs row < 96 }
    ensures { result ≡ signed_by up row }
{
    if up { row - 1 } else { row + 1 }
}

// The walk from p, to its end: the rows that it gives. One step: the last node of the path goes to the next that it leads to and that has no row, or leaves the path where there is none.
fn walk_from(leads: &Leads, p: u8, rows: &mut [Option<i8>])
    requires few { length leads.now ≤ 48 }
    requires p_lt_n { p < length leads.now }
    requires none { rows.old ≡ replicate (length leads.now) None }
    ensures { reached_in (length leads.now) rows.new ≡ reached_from leads.now p }
{
    rows[p as usize] = Some(0);
    let mut path: Table<Frame, 48> = Table::empty(Frame::default());
    path.push(Frame {
        node: p,
        row: 0,
        at: 0,
    });
    while let Some(f) = path.pop() {
        let node = f.node as usize;
        let nodes = leads.incidents(node);
        let mut rest = f.at as usize..nodes.len();
        let Some(at) = rest.find(|k| rows[nodes[*k] as usize].is_none()) else {
            continue;
        };
        path.push(Frame {
            at: at as u8 + 1,
            ..f
        });
        let next = nodes[at];
        let row = row_by(at < leads.sources(node), f.row);
        rows[next as usize] = Some(row);
        path.push(Frame {
            node: next,
            row,
            at: 0,
        });
    }
}

// The least row, or 0.
fn least_row(walked: &[Option<i8>]) -> i8
    requires { (length walked.now ≤ 48) × AllNear (length walked.now) walked.now }
    ensures { IsLeast (length walked.now) (reached_in (length walked.now) walked.now) result }
{
    walked.iter().copied().flatten().fold(0, i8::min)
}

// All that have a row in walked are lowered by m; the others keep theirs.
fn lower_all(walked: &[Option<i8>], m: i8, rows: &mut [Option<u8>])
    requires long { (length walked.now ≤ 48) × (length rows.old ≡ length walked.now) }
    requires walk { AllNear (length walked.now) walked.now × IsLeast (length walked.now) (reached_in (length walked.now) walked.now) m }
    ensures { rows_of rows.new ≡ lowered (raised (length walked.now) m) (reached_in (length walked.now) walked.now) (rows_of rows.old) }
{
    for (k, row) in walked.iter().enumerate() {
        if let Some(r) = row {
            rows[k] = Some(r.abs_diff(m));
        }
    }
}

// Node p: if it has no row, a walk from it, lowered.
fn turn(leads: &Leads, p: u8, rows: &mut [Option<u8>])
    requires few { length leads.now ≤ 48 }
    requires long { length rows.old ≡ length leads.now }
    requires p_lt_n { p < length leads.now }
    ensures { rows_of rows.new ≡ start (fresh (rows_of rows.old) p) leads.now p (rows_of rows.old) }
{
    if rows[p as usize].is_some() {
        return;
    }
    let mut none = [None; 48];
    let walked = &mut none[..rows.len()];
    walk_from(leads, p, walked);
    let m = least_row(walked);
    lower_all(walked, m, rows);
}

// Module 6: the heights of the nodes.
#[inline(never)]
pub fn heights(leads: &Leads) -> [u8; 48]
    ensures { result ≡ heights leads.now ++ replicate (48 - length leads.now) 0 }
{
    let n = leads.nodes();
    let mut all = [None; 48];
    let rows = &mut all[..n];
    for p in 0..n {
        turn(leads, p as u8, rows);
    }
    all.map(|row| row.unwrap_or(0))
}
