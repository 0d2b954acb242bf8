//! The sequence of numbers that weights are drawn by.
ghost use Rattle.std.specs.Prelude.{◌≡◌, ◌<◌, ◌≤◌};
ghost use Rattle.cost_vector.specs.Costs.{max_criteria};
ghost use Rattle.graph_gen.specs.Sequence.{first_number, modulus, next_number, weight_by};

/// The numbers are below this one, which is a prime.
pub(crate) const MODULUS: u32 = 65_537;

/// The number that a criterion begins with.
pub(crate) fn first_number(start: u32, criterion: u32) -> u32
    requires { criterion ≤ max_criteria }
    ensures value { result ≡ first_number start criterion }
    ensures below { result < modulus }
{
    let seed = u64::from(start) + 1_000 * u64::from(criterion);
    (seed % u64::from(MODULUS)) as u32
}

/// The number that follows another.
pub(crate) fn next_number(number: u32) -> u32
    requires { number < modulus }
    ensures value { result ≡ next_number number }
    ensures below { result < modulus }
{
    (75 * number + 74) % MODULUS
}

/// The weight that a number gives.
pub(crate) fn weight_by(number: u32) -> u32
    ensures { result ≡ weight_by number }
{
    1 + number % 100
}
