// Charts written in hexadecimal, one on each line, in the default setting after a `D`: what the programs that run a list of charts read.
#![tactic(auto)]

ghost use Rattle.std.specs.Prelude.{min, ℕ, List, Option, ◌/◌, ◌≤◌, ◌≡◌, ⊤, length, take, OnOk, IfSome};
ghost use Rattle.std.specs.Iterator.{YieldsFirstRef, item_count};
ghost use Rattle.std.specs.List.{FoldsTo};
ghost use Rattle.lines.specs.Lines.{digit_of, line_of, lines_of, lines_left, is_default, setting_of, digits_of, decoded, chart_in};

use chart::Setting;
use std::alloc::Allocator;
use std::io;
use std::io::{Read, Write};

// How many bytes of standard input a program that runs a list of charts reads.
pub const ROOM: u64 = 1048576;

// 1,048,576 zeros: room for a list of charts. The `ensures` gives only the length, which lending the array as a slice needs.
pub fn space() -> [u8; 1048576]
    ensures { 1048576 ≡ length result }
{
    [0; 1048576]
}

// The line from place `at` on, without its line feed; past the text's end an empty one.
pub fn line(text: &[u8], at: usize) -> &[u8]
    ensures { result.now ≡ line_of text.now at }
{
    let Some(rest) = text.get(at..) else {
        return &[];
    };
    let len = rest.iter().position(|b| *b == b'\n').unwrap_or(rest.len());
    &rest[..len]
}

// The lines of a text that are left.
#[derive(Clone, Copy)]
pub struct Iter<'a> {
    pub rest: &'a [u8],
}

// The lines of a text, each without its line feed; one that ends in a line feed has none after it.
pub fn lines(text: &[u8]) -> Iter<'_>
    ensures { lines_left result ≡ lines_of text.now }
{
    Iter { rest: text }
}

impl<'a> Iterator for Iter<'a> {
    type Item = &'a [u8];

    ghost next_gives = { YieldsFirstRef lines_left };

    ghost remaining = { item_count lines_left };

    fn next(&mut self) -> Option<&'a [u8]> {
        if self.rest.is_empty() {
            return None;
        }
        let line = line(self.rest, 0);
        self.rest = &self.rest[(line.len() + 1).min(self.rest.len())..];
        Some(line)
    }
}

// Whether a line's chart is in the default setting.
pub fn is_default(line: &[u8]) -> bool
    ensures { result ≡ is_default line.now }
{
    line.starts_with(b"D")
}

// The setting of a line's chart.
pub fn setting_of(line: &[u8]) -> Setting
    ensures { result ≡ setting_of line.now }
{
    if is_default(line) {
        return Setting::Default;
    }
    Setting::Strict
}

// A line's hexadecimal digits: what follows the `D`, or the whole line.
pub fn digits(line: &[u8]) -> &[u8]
    ensures { result.now ≡ digits_of line.now }
{
    line.strip_prefix(b"D").unwrap_or(line)
}

// The value of a hexadecimal digit in lower case, and 0 of any other byte.
fn digit(c: u8) -> u8
    ensures { result ≡ digit_of c }
{
    match c {
        b'0'..=b'9' => c - b'0',
        b'a'..=b'f' => c - b'a' + 10,
        _ => 0,
    }
}

// Puts the bytes that the text names at the start of out, as many as there is room for, and answers their number.
pub fn decode(text: &[u8], out: &mut [u8]) -> usize
    ensures value { result ≡ min (length text.now / 2) (length out.old) }
    ensures out_after { out.new ≡ decoded text.now result out.old }
    ensures upper_bound { result ≤ length out.new }
{
    let n = (text.len() / 2).min(out.len());
    for k in 0..n {
        out[k] = 16 * digit(text[2 * k]) + digit(text[2 * k + 1]);
    }
    n
}

// The bytes that the digits name, as many as there is room for: they stand at the start of the room lent.
pub fn chart_of<'a>(digits: &[u8], room: &'a mut [u8]) -> &'a [u8]
    ensures { result.now ≡ chart_in digits.now room.old }
{
    let n = decode(digits, room);
    &room[..n]
}

// A program that prints something of each line of its input.
pub trait Program {
    // What it may print of a line, by the bytes that the writer holds before it and after it, where they are known; anything, unless it says more.
    ghost says: { Option (List ℕ) → List ℕ → Option (List ℕ) → Type 0 } = { λ old line new. ⊤ };

    // Prints what there is to say of a line.
    fn print<W: Write>(out: &mut W, line: &[u8]) -> io::Result<()>
        ensures { OnOk result (says (W.contents out.old) line.now (W.contents out.new)) };
}

// Hands each line of the text to the program, once and in order.
fn print_lines<P: Program, W: Write>(out: &mut W, text: &[u8]) -> io::Result<()>
    ensures { OnOk result (FoldsTo P.says (W.contents out.old) (lines_of text.now) (W.contents out.new)) }
{
    for line in lines(text) {
        P::print(out, line)?;
    }
    Ok(())
}

// Reads `room` bytes, or as many as there are, and hands each of their lines to the program, once and in order.
pub fn run<P: Program, R: Read + Drop, W: Write, A: Allocator>(
    reader: R,
    room: u64,
    out: &mut W,
    alloc: A,
) -> io::Result<()>
    ensures { OnOk result ((text : List ℕ) × IfSome (R.remaining reader) (λ left. text ≡ take room left) × FoldsTo P.says (W.contents out.old) (lines_of text) (W.contents out.new)) }
{
    let mut text = Vec::new(alloc);
    reader.take(room).read_to_end(&mut text)?;
    print_lines::<P, W>(out, &text)
}
