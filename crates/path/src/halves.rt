// Single-precision numbers that are whole or a half, never rounded. `halves h` is the number h / 2, for a doubled whole number h.
ghost use Rattle.std.specs.Prelude.{◌≡◌, ◌+◌, ◌*◌, ◌^◌, ◌≤◌};
ghost use Rattle.path.specs.Halves.{halves};

// A whole number as a float.
pub fn whole(n: u32) -> f32
    requires { n ≤ 2 ^ 23 }
    ensures { result ≡ halves (2 * n) }
{
    n as f32
}

// The height halfway between two whole heights: exact.
pub fn halfway(a: u32, b: u32) -> f32
    requires { (a ≤ 2 ^ 23) × (b ≤ 2 ^ 23) }
    ensures { result ≡ halves (a + b) }
{
    let x = a as f32;
    let y = b as f32;
    (x + y) * 0.5
}
