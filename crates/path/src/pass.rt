// One pass over a path text: how the reader stands, how many segments have begun, and the command and numbers of one of them.
ghost use Rattle.std.specs.Prelude.{◌≡◌, ◌<◌, ◌≤◌, length};
ghost use Rattle.path.specs.Reader.{moved};
ghost use Rattle.path.specs.code.Pass.{empty, kept_of, passed, pass_to, drawn_kept};

use crate::drawn::Drawn;
use crate::reader::{Act, Command, Phase, Stand, act_of, move_on};

// The command of one segment, once it has begun, and the last six numbers of it, in halves, the latest first.
#[derive(Clone, Copy)]
pub struct Kept {
    pub command: Option<Command>,
    pub numbers: [u32; 6],
}

#[derive(Clone, Copy)]
pub struct Pass {
    pub stand: Stand,
    pub count: usize,
    pub kept: Kept,
}

fn begin() -> Pass
    ensures { result ≡ empty }
{
    Pass {
        stand: Stand {
            phase: Phase::Begin,
            left: 0,
            value: 0,
            begun: 0,
            large: None,
            other: false,
        },
        count: 0,
        kept: Kept {
            command: None,
            numbers: [0; 6],
        },
    }
}

// The segment's command and numbers after a byte of it; v is the whole part of its last number.
fn keep(k: &mut Kept, a: Act, v: u32)
    requires { v < 100000000 }
    ensures { k.new ≡ kept_of a v k.old }
{
    match a {
        Act::Letter(c) => {
            k.command = Some(c);
        }
        Act::First(_) => {
            let [f, e, d, c, b, _] = k.numbers;
            k.numbers = [2 * v, f, e, d, c, b];
        }
        Act::More(_) => {
            k.numbers[0] = 2 * v;
        }
        Act::Half => {
            k.numbers[0] = 2 * v + 1;
        }
        Act::Space | Act::Point | Act::Stop | Act::Stay => {}
    }
}

// One byte, which is a to the reader.
fn pass_on(m: &mut Pass, k: usize, a: Act, at: usize)
    requires count_le_at { (m.old.count ≤ at) × (at < 18446744073709551615) }
    requires stand_bound { (moved a at m.old.stand).value < 100000000 }
    ensures { m.new ≡ passed k a at m.old }
{
    move_on(&mut m.stand, a, at);
    if matches!(a, Act::Letter(_)) {
        m.count += 1;
    }
    if k < m.count && m.count - 1 == k {
        keep(&mut m.kept, a, m.stand.value);
    }
}

// The whole text, keeping segment k.
pub fn pass_over(text: &[u8], k: usize) -> Pass
    ensures { result ≡ pass_to k text.now (length text.now) }
{
    let mut m = begin();
    for (i, b) in text.iter().enumerate() {
        let a = act_of(m.stand.phase, m.stand.value, *b);
        pass_on(&mut m, k, a, i);
    }
    m
}

// The segment of a command and six numbers.
pub fn drawn_six(k: Kept) -> Drawn
    ensures { result ≡ drawn_kept k }
{
    let [f, e, d, c, b, a] = k.numbers;
    match k.command {
        Some(Command::Move) => Drawn::Move(e, f),
        Some(Command::Line) => Drawn::Line(e, f),
        Some(Command::Cubic) => Drawn::Cubic(a, b, c, d, e, f),
        Some(Command::Close) | None => Drawn::Close,
    }
}
