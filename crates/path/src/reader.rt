// The reader of path text: one pass, byte by byte.
ghost use Rattle.std.specs.Prelude.{◌≡◌};
ghost use Rattle.path.specs.Reader.{arity, act_of, grown, marked, moved, ended, verdict_of};

use refusals::TextRefusal;

// A whole part may be so large: 8,388,608.
const LIMIT: u32 = 8388608;

// Where the reader stands.
#[derive(Clone, Copy)]
pub enum Phase {
    // nothing is read
    Begin,
    // a space was read after a whole segment: a letter must follow
    Letter,
    // a letter was read
    Lettered,
    // a space was read inside a segment: a number must follow
    Digit,
    // inside a number, after a digit
    Number,
    // after a number's point: a 5 must follow
    Point,
    // after `.5`
    Halved,
    // the byte at this place was refused
    Stopped(usize),
}

// A segment's command, by its letter: M, L, C, Z.
#[derive(Clone, Copy)]
pub enum Command {
    Move,
    Line,
    Cubic,
    Close,
}

// What a byte is to the reader.
#[derive(Clone, Copy)]
pub enum Act {
    Letter(Command),
    Space,
    First(u8),
    More(u8),
    Point,
    Half,
    Stop,
    Stay,
}

// How the reader stands: the phase, how many numbers are still to begin in this segment, the whole part of the last number
// (as it was when it passed the limit, if it did), where that number began, where the first number began that was too large, if one was,
// and whether the first letter is not M.
#[derive(Clone, Copy)]
pub struct Stand {
    pub phase: Phase,
    pub left: u8,
    pub value: u32,
    pub begun: usize,
    pub large: Option<usize>,
    pub other: bool,
}

// How many numbers a command wants.
fn arity_of(c: Command) -> u8
    ensures { result ≡ arity c }
{
    match c {
        Command::Move | Command::Line => 2,
        Command::Cubic => 6,
        Command::Close => 0,
    }
}

// What byte b is, by where the reader stands; v is the whole part so far.
pub fn act_of(p: Phase, v: u32, b: u8) -> Act
    ensures { result ≡ act_of p v b }
{
    match (p, b) {
        (Phase::Stopped(_), _) => Act::Stay,
        (Phase::Begin | Phase::Letter, b'M') => Act::Letter(Command::Move),
        (Phase::Begin | Phase::Letter, b'L') => Act::Letter(Command::Line),
        (Phase::Begin | Phase::Letter, b'C') => Act::Letter(Command::Cubic),
        (Phase::Begin | Phase::Letter, b'Z') => Act::Letter(Command::Close),
        (Phase::Digit, b'0'..=b'9') => Act::First(b - b'0'),
        (Phase::Number, b'0'..=b'9') if v != 0 => Act::More(b - b'0'),
        (Phase::Number, b'.') => Act::Point,
        (Phase::Lettered | Phase::Number | Phase::Halved, b' ') => Act::Space,
        (Phase::Point, b'5') => Act::Half,
        _ => Act::Stop,
    }
}

// Whether the text may end here.
fn is_ended(p: Phase, l: u8) -> bool
    ensures { result ≡ ended p l }
{
    match p {
        Phase::Begin => true,
        Phase::Lettered | Phase::Number | Phase::Halved => l == 0,
        Phase::Letter | Phase::Digit | Phase::Point | Phase::Stopped(_) => false,
    }
}

// A whole part with one more digit; past the limit it stays.
fn grow(v: u32, d: u8) -> u32
    ensures { result ≡ grown v d }
{
    if v <= LIMIT {
        return 10 * v + d as u32;
    }
    v
}

// The first number that is too large is noted.
fn mark(s: &mut Stand, too: bool)
    ensures { s.new ≡ marked too s.old }
{
    if too && s.large.is_none() {
        s.large = Some(s.begun);
    }
}

// How the reader stands after a byte.
pub fn move_on(s: &mut Stand, a: Act, at: usize)
    ensures { s.new ≡ moved a at s.old }
{
    match a {
        Act::Letter(c) => {
            if matches!(s.phase, Phase::Begin) {
                s.other = !matches!(c, Command::Move);
            }
            s.phase = Phase::Lettered;
            s.left = arity_of(c);
        }
        Act::Space => {
            s.phase = if s.left == 0 {
                Phase::Letter
            } else {
                Phase::Digit
            };
        }
        Act::First(d) => {
            s.phase = Phase::Number;
            s.left = s.left.saturating_sub(1);
            s.value = d as u32;
            s.begun = at;
        }
        Act::More(d) => {
            let v = grow(s.value, d);
            s.phase = Phase::Number;
            s.value = v;
            mark(s, LIMIT < v);
        }
        Act::Point => {
            s.phase = Phase::Point;
        }
        Act::Half => {
            s.phase = Phase::Halved;
            mark(s, LIMIT <= s.value);
        }
        Act::Stop => {
            s.phase = Phase::Stopped(at);
        }
        Act::Stay => {}
    }
}

// What is said of a text of n bytes after which the reader stands so: 17, then 18, then 19.
pub fn judge(n: usize, s: &Stand) -> Result<(), TextRefusal>
    ensures { result ≡ verdict_of n s.now }
{
    if let Phase::Stopped(at) = s.phase {
        return Err(TextRefusal::NotProfile(at));
    }
    if !is_ended(s.phase, s.left) {
        return Err(TextRefusal::NotProfile(n));
    }
    if let Some(at) = s.large {
        return Err(TextRefusal::LargeNumber(at));
    }
    if s.other {
        return Err(TextRefusal::NoMove);
    }
    Ok(())
}
