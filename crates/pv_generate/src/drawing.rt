//! Pseudo-random numbers from a seed, by a linear congruential generator.
ghost use Rattle.std.specs.Prelude.{◌≡◌, ◌<◌, ◌^◌, zero};
ghost use Rattle.pv_generate.specs.Drawing.{next, state_of};

/// Returns the first state of a seed.
pub(crate) fn first(seed: u64) -> u64
    ensures value { result ≡ state_of seed zero }
    ensures bound { result < 2 ^ 31 }
{
    seed % 2_147_483_648
}

/// Returns the state that follows a state.
pub(crate) fn next(state: u64) -> u64
    requires { state < 2 ^ 31 }
    ensures value { result ≡ next state }
    ensures bound { result < 2 ^ 31 }
{
    (1_103_515_245 * state + 12_345) % 2_147_483_648
}
