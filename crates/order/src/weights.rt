// Pair weights: how often one node stands against another, and two rounds in which pairs add to pairs.
ghost use Rattle.std.specs.Prelude.{◌≡◌, ℕ, ◌*◌, ◌<◌, ◌≤◌, get_or, length, replicate};
ghost use Rattle.order.specs.code.Sums.{count_of, tallied, makes, takes, Over, Row, Rows, OverFits, RowFits, RoundFits, Coded, Charted, Weighed};

use crate::codes::Pair;
use crate::sums::{pair_at, row_at};

// p against q: one more before or after for their pair.
fn against(sums: &mut [u32; 1128], p: u32, q: u32)
    requires p_bound { (p < 48) × (q < 48) }
    requires by_index { (i : ℕ) → get_or sums.old i 0 ≤ 352 * 65536 }
    ensures { sums.new ≡ count_of sums.old p q }
{
    if p < q {
        sums[pair_at(p, q) as usize] += 1;
    } else if q < p {
        sums[pair_at(q, p) as usize] += 65536;
    }
}

// The sums before the rounds, of the codes.
fn tally(codes: &[Pair], sums: &mut [u32; 1128])
    requires room { length codes.now ≤ 352 }
    requires coded { Coded 48 codes.now }
    requires by_index { (i : ℕ) → get_or sums.old i 0 ≡ 0 }
    ensures { sums.new ≡ tallied codes.now sums.old (length codes.now) }
{
    for &code in codes {
        against(sums, code.first as u32, code.second as u32);
    }
}

// A round: missing pairs are made in the first and not in the second.
#[derive(Clone, Copy)]
enum Round {
    First,
    Second,
}

impl Round {
    // Whether the pair with the sums x takes part.
    fn takes_part(self, x: u32) -> bool
        ensures { result ≡ takes (makes self) x }
    {
        match self {
            Round::First => true,
            Round::Second => 0 < x,
        }
    }

    // The ways from a over b, added to the pairs of a with nodes after b. The pairs (a, c) stand one after another, and so do the pairs (b, c).
    fn add_ways(self, sums: &mut [u32; 1128], a: u32, b: u32, n: u32)
        requires { OverFits (makes self) n a b sums.old }
        ensures { Over (makes self) n a b sums.old sums.new }
    {
        let first = pair_at(a, b);
        let x = sums[first as usize];
        if x == 0 {
            return;
        }
        let apart = row_at(b) - row_at(a);
        for c in b + 1..n {
            let i = first + (c - b);
            let y = sums[(i + apart) as usize];
            if 0 < y {
                let z = sums[i as usize];
                if self.takes_part(z) {
                    sums[i as usize] = z + (x + y);
                }
            }
        }
    }

    // The pairs of a with larger nodes. The nodes between fall, so that the pair of a and the next of them is as it was when the round began.
    fn row(self, sums: &mut [u32; 1128], a: u32, n: u32)
        requires { RowFits (makes self) n a sums.old }
        ensures { Row (makes self) n a a sums.old sums.new }
    {
        for b in (a + 1..n).rev() {
            self.add_ways(sums, a, b, n);
        }
    }

    // The round, in place: the rows rise, and each reads only rows that the round has not changed yet.
    fn run(self, sums: &mut [u32; 1128], n: u32)
        requires { RoundFits (makes self) n sums.old }
        ensures { Rows (makes self) n n sums.old sums.new }
    {
        for a in 0..n {
            self.row(sums, a, n);
        }
    }
}

// The pair sums after both rounds.
pub fn pair_weights(codes: &[Pair], n: usize, sums: &mut [u32; 1128])
    requires charted { Charted codes.now n }
    requires sums_value { sums.old ≡ replicate 1128 0 }
    ensures { Weighed codes.now n sums.new }
{
    let nodes = n as u32;
    tally(codes, sums);
    Round::First.run(sums, nodes);
    Round::Second.run(sums, nodes);
}
