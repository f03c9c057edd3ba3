// What the stages ask of a list of numbers.
ghost use Rattle.std.specs.Prelude.{◌≡◌};
ghost use Rattle.grid.specs.Lists.{largest};

// The largest, 0 for none.
pub fn largest_of(xs: &[u8]) -> u8
    ensures { result ≡ largest xs.now }
{
    xs.iter().copied().max().unwrap_or(0)
}
