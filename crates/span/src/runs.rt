// How a span is cut at the borders of lines.
ghost use Rattle.std.specs.Prelude.{◌≡◌};
ghost use Rattle.span.specs.Runs.{run_size, run_count};

use units::LINE;

// How many of n bytes from the address a on lie in the line of a.
pub(crate) fn run_size(a: u64, n: usize) -> usize
    ensures { result ≡ run_size a n }
{
    n.min((LINE - a % LINE) as usize)
}

// How many runs n bytes from a on make. No bytes are one run of none, which is refused.
pub(crate) fn run_count(a: u64, n: usize) -> usize
    ensures { result ≡ run_count a n }
{
    let rest = n.saturating_sub((LINE - a % LINE) as usize);
    1 + rest.div_ceil(LINE as usize)
}
