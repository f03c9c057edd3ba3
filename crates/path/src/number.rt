// The text of one number, in halves: decimals without leading zeros, bare or with `.5`.
ghost use Rattle.std.specs.Prelude.{◌≡◌, ◌+◌, ◌≤◌, length};
ghost use Rattle.path.specs.Number.{digits, number_text};
ghost use Rattle.path.specs.Writer.{IsPut};

// How many digits n has.
fn digits_len(n: u32) -> usize
    ensures { result ≡ length (digits n) }
{
    match n.checked_ilog10() {
        Some(power) => power as usize + 1,
        None => 1,
    }
}

// The digits of n at a place, from the last to the first, with one division a turn.
pub fn put_digits(buf: &mut [u8], at: usize, n: u32) -> usize
    requires { at + length (digits n) ≤ length buf.old }
    ensures { IsPut buf.old at (digits n) buf.new result }
{
    let e = at + digits_len(n);
    let mut m = n;
    for i in (at + 1..e).rev() {
        let q = m / 10;
        buf[i] = b'0' + (m - 10 * q) as u8;
        m = q;
    }
    buf[at] = b'0' + m as u8;
    e
}

// How many bytes the text of h halves takes.
pub fn number_len(h: u32) -> usize
    ensures { result ≡ length (number_text h) }
{
    let n = digits_len(h / 2);
    if h % 2 == 0 {
        return n;
    }
    n + 2
}
