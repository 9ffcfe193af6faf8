// A power of two: what it is, and that std's test answers it.
ghost use Rattle.std.specs.Prelude.{◌≡◌, Decides};
ghost use Rattle.units.specs.Power.{is_power_of_two, PowerOfTwo};

// Whether n is 1, 2, 4, 8 and so on.
#[tactic(auto, using(crate::proofs::Powers::one_bit))]
pub fn is_power_of_two(n: u64) -> bool
    ensures value { result ≡ is_power_of_two n }
    ensures decides { Decides result (PowerOfTwo n) }
{
    n.is_power_of_two()
}
