//! What a command asks of the records of a journal.

ghost use Rattle.std.specs.Prelude.{◌≡◌};
ghost use Rattle.vx_words.specs.Samples.{IsSeed, seed_bytes};

use vx_words::sample_seed;

/// What is told of the records that a seed draws.
#[derive(Clone, Copy)]
pub(crate) enum Told {
    /// How what each of them says compares with what hands read.
    Comparison,
    /// For each contest, what they bound the risk of its outcome by, and whether that is at most so many thousandths.
    Risk(u32),
}

/// So many draws by the words of the generator with a seed, and what is told of them.
#[derive(Clone, Copy)]
pub(crate) struct Asked {
    pub(crate) seed: [u8; 32],
    pub(crate) size: u32,
    pub(crate) told: Told,
}

/// The bytes of a seed's word, 64 hexadecimal digits in lower case.
fn seed_of(seed: &str) -> [u8; 32]
    requires { IsSeed seed.now (seed_bytes seed.now) }
    ensures { result ≡ seed_bytes seed.now }
{
    match sample_seed(seed) {
        Some(bytes) => bytes,
        None => unreachable!(),
    }
}

/// What is asked by a seed's word.
pub(crate) fn asked_by(seed: &str, size: u32, told: Told) -> Asked
    requires { IsSeed seed.now (seed_bytes seed.now) }
    ensures { result ≡ record { seed = seed_bytes seed.now; size = size; told = told } }
{
    Asked {
        seed: seed_of(seed),
        size,
        told,
    }
}
