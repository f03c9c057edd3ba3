// Module 7 of document 01: columns. Box k has column cols[k] and row rows[k].
ghost use Rattle.std.specs.Prelude.{◌≡◌, map, ℕ, ◌<◌, ◌≤◌, ◌+◌, ◌*◌, length, take};
ghost use Rattle.grid.specs.Lists.{largest, smallest, total};
ghost use Rattle.grid.specs.Columns.{at, taken, fold_from, left_end, right_of, right_end, average_to, target, first_move, mean, columns_of, incidents, first_moves, average, round, columns};
ghost use Rattle.grid.specs.code.Placed.{FirstColumns};
ghost use Rattle.grid.specs.code.Arrays.{Boxes, Inside, Used, used_in, extra_in, table_to};

use crate::leads::Leads;
use crate::lists::largest_of;

// The columns that each row uses, a bit for each. A row has 160 bits, 32 in a word: the last pair may be columns 143 and 144.
type UsedColumns = [[u32; 5]; 48];

// Whether row r uses column x.
fn is_used(used: &UsedColumns, r: u8, x: u8) -> bool
    requires { (r < 48) × (x < 160) }
    ensures { result ≡ used_in used.now r x }
{
    (used[r as usize][(x / 32) as usize] >> (x % 32)) % 2 == 1
}

// A column of a row is used exactly if a box of that row stands there.
fn used_columns(rows: &[u8], cols: &[u8]) -> UsedColumns
    requires { Boxes (length rows.now) rows.now cols.now }
    ensures { Used rows.now cols.now result }
{
    let mut used = [[0u32; 5]; 48];
    for (r, x) in rows.iter().zip(cols) {
        used[*r as usize][(*x / 32) as usize] |= 1u32 << (*x % 32);
    }
    used
}

// The new column of each column, for so many pairs from start on. The search through the rows stops at the first collision,
// which the used columns alone tell; it yields its value by `break` inside the loop over pairs, as document 01 asks.
fn new_columns(used: &UsedColumns, height: u8, start: u8, pairs: u8) -> [u8; 146]
    requires { (height ≤ 48) × (start ≤ 1) × (pairs ≤ 72) }
    ensures { take (start + 2 * pairs) result ≡ table_to start pairs (extra_in used.now height) }
{
    let mut table = [0u8; 146];
    let mut new = start;
    for p in 0..pairs {
        let x = start + 2 * p;
        let collision = 'rows: {
            for row in 0..height {
                if is_used(used, row, x) && is_used(used, row, x + 1) {
                    break 'rows true;
                }
            }
            false
        };
        let more = u8::from(collision);
        let i = x as usize;
        table[i] = new;
        table[i + 1] = new + more;
        new += more + 1;
    }
    table
}

// Each box's column by the table.
fn rename(cols: &mut [u8], table: &[u8; 146])
    requires { Inside 146 cols.old }
    ensures { cols.new ≡ map (at table.now) cols.old }
{
    for x in cols.iter_mut() {
        *x = table[*x as usize];
    }
}

// A fold from start: columns in pairs, each pair into one new column, or two where a row has both taken. Which columns are used
// is worked out first, as they stand when the fold begins.
fn fold(rows: &[u8], cols: &mut [u8], start: u8)
    requires boxes { Boxes (length rows.now) rows.now cols.old }
    requires start_bound { start ≤ 1 }
    ensures { cols.new ≡ fold_from start rows.now cols.old }
{
    let height = largest_of(rows) + 1;
    let last = largest_of(cols);
    let pairs = (last + 2 - start) / 2;
    let used = used_columns(rows, cols);
    let table = new_columns(&used, height, start, pairs);
    rename(cols, &table);
}

// The two folds of a round, from 0 and from 1. `fold` is called in one place, so that its tables share the caller's frame.
fn folds(rows: &[u8], cols: &mut [u8])
    requires { Boxes (length rows.now) rows.now cols.old }
    ensures { cols.new ≡ fold_from 1 rows.now (fold_from 0 rows.now cols.old) }
{
    for start in 0..2 {
        fold(rows, cols, start);
    }
}

// Where a box may go.
#[derive(Clone, Copy)]
pub struct Room {
    pub low: u8,
    pub high: u8,
}

// The first place after the left neighbour of box p, or 0, and the last before the right one, or its own where there is none.
fn room_of(rows: &[u8], cols: &[u8], p: usize) -> Room
    requires boxes { Boxes (length rows.now) rows.now cols.now }
    requires p_lt_n { p < length rows.now }
    ensures low { result.low ≡ left_end rows.now cols.now (at rows.now p) (at cols.now p) }
    ensures high { result.high ≡ right_end (at cols.now p) (right_of rows.now cols.now (at rows.now p) (at cols.now p)) }
{
    let r = rows[p];
    let x = cols[p];
    let mut low = 0u8;
    let mut next: Option<u8> = None;
    for (y, c) in rows.iter().zip(cols) {
        if *y == r {
            if *c < x {
                low = low.max(*c + 1);
            } else if x < *c {
                next = Some(next.unwrap_or(*c).min(*c));
            }
        }
    }
    Room {
        low,
        high: next.unwrap_or(x + 1) - 1,
    }
}

// Box p, which would go to column wanted, goes there, clamped between its neighbours.
fn average_to(rows: &[u8], cols: &mut [u8], p: usize, wanted: u8)
    requires boxes { Boxes (length rows.now) rows.now cols.old }
    requires p_lt_n { p < length rows.now }
    ensures { cols.new ≡ average_to rows.now p wanted cols.old }
{
    let room = room_of(rows, cols, p);
    cols[p] = wanted.min(room.high).max(room.low);
}

// The sum of the columns of these nodes.
fn sum_of(nodes: &[u8], cols: &[u8]) -> u32
    requires few { length nodes.now ≤ 176 }
    requires inside { Inside (length cols.now) nodes.now × Inside 144 cols.now }
    ensures { (result ≡ total (columns_of cols.now nodes.now)) × (result ≤ 144 * length nodes.now) }
{
    nodes.iter().map(|q| cols[*q as usize] as u32).sum()
}

// The mean column of the incidents of node p.
fn wanted(leads: &Leads, cols: &[u8], p: usize) -> u8
    requires cols { (length cols.now ≡ length leads.now) × Inside 144 cols.now }
    requires p_lt_n { p < length leads.now }
    ensures { result ≡ mean (columns_of cols.now (incidents leads.now p)) }
{
    let nodes = leads.incidents(p);
    if nodes.is_empty() {
        return 0;
    }
    (sum_of(nodes, cols) / nodes.len() as u32) as u8
}

// Averaging, nodes rising.
fn average_all(leads: &Leads, rows: &[u8], cols: &mut [u8])
    requires { Boxes (length leads.now) rows.now cols.old }
    ensures { cols.new ≡ average leads.now rows.now cols.old }
{
    for p in 0..leads.nodes() {
        let w = wanted(leads, cols, p);
        average_to(rows, cols, p, w);
    }
}

// The smallest of the columns of these nodes, and of most.
fn smallest_end(nodes: &[u8], cols: &[u8], most: u8) -> u8
    requires { Inside (length cols.now) nodes.now }
    ensures { result ≡ smallest most (columns_of cols.now nodes.now) }
{
    nodes.iter().map(|q| cols[*q as usize]).fold(most, u8::min)
}

// The largest of the columns of these nodes. (No twin of smallest_end: that one begins at a bound.)
fn largest_end(nodes: &[u8], cols: &[u8]) -> u8
    requires { Inside (length cols.now) nodes.now }
    ensures { result ≡ largest (columns_of cols.now nodes.now) }
{
    nodes.iter().map(|q| cols[*q as usize]).max().unwrap_or(0)
}

// Where a box at pos goes whose incidents have columns from low to high.
fn target_of(pos: u8, low: u8, high: u8) -> u8
    requires { (pos < 144) × (low < 144) × (high < 144) }
    ensures { result ≡ target pos low high }
{
    if pos + 2 < low {
        low + 1
    } else if low < pos && high + 2 < pos {
        high.saturating_sub(1)
    } else {
        pos
    }
}

// Whether some box has row r and column x.
fn is_taken(rows: &[u8], cols: &[u8], r: u8, x: u8) -> bool
    ensures { result ≡ taken rows.now cols.now r x }
{
    rows.iter().zip(cols).any(|(y, c)| *y == r && *c == x)
}

// The first move of node p, if it has two incidents or more and the place is free.
fn first_move(leads: &Leads, rows: &[u8], cols: &mut [u8], p: usize)
    requires boxes { Boxes (length leads.now) rows.now cols.old }
    requires p_lt_n { p < length leads.now }
    ensures { cols.new ≡ first_move leads.now rows.now p cols.old }
{
    let nodes = leads.incidents(p);
    if nodes.len() < 2 {
        return;
    }
    let high = largest_end(nodes, cols);
    let low = smallest_end(nodes, cols, high);
    let goal = target_of(cols[p], low, high);
    if !is_taken(rows, cols, rows[p], goal) {
        cols[p] = goal;
    }
}

// The first moves, nodes rising.
fn first_moves(leads: &Leads, rows: &[u8], cols: &mut [u8])
    requires rows { (length rows.now ≡ length leads.now) × Inside 48 rows.now }
    requires first { FirstColumns (length leads.now) cols.old }
    ensures moved { cols.new ≡ first_moves leads.now rows.now cols.old }
    ensures boxes { Boxes (length leads.now) rows.now cols.new }
{
    for p in 0..leads.nodes() {
        first_move(leads, rows, cols, p);
    }
}

// One of the 8 rounds: fold from 0, fold from 1, average.
fn round(leads: &Leads, rows: &[u8], cols: &mut [u8])
    requires { Boxes (length leads.now) rows.now cols.old }
    ensures { cols.new ≡ round leads.now rows.now cols.old }
{
    folds(rows, cols);
    average_all(leads, rows, cols);
}

// Module 7: the columns of the boxes, from their rows and, in cols, their first columns.
#[inline(never)]
pub fn columns(leads: &Leads, rows: &[u8], cols: &mut [u8])
    requires rows { (length rows.now ≡ length leads.now) × Inside 48 rows.now }
    requires first { FirstColumns (length leads.now) cols.old }
    ensures { cols.new ≡ columns leads.now rows.now cols.old }
{
    first_moves(leads, rows, cols);
    for _k in 0..8u8 {
        round(leads, rows, cols);
    }
}
