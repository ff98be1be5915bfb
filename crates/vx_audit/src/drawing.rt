//! The words of a generator, one after another.

ghost use Rattle.std.specs.Prelude.{◌≡◌, ◌+◌};
ghost use Rattle.vx_audit.specs.Sample.{at_word, word_of};

use rand_chacha::ChaCha20Rng;
use rand_core::SeedableRng;
use rand_core::utils::NextWord;

/// The generator whose key is the seed, at the first word of stream 0.
pub(crate) fn generator(seed: [u8; 32]) -> ChaCha20Rng
    ensures { result ≡ at_word seed 0 }
{
    ChaCha20Rng::from_seed(seed)
}

/// The next word, which stands at a place.
pub(crate) fn draw(words: &mut ChaCha20Rng, _seed: &[u8; 32], _place: u32) -> u32
    requires { words.old ≡ at_word _seed.now _place }
    ensures word { result ≡ word_of _seed.now _place }
    ensures next { words.new ≡ at_word _seed.now (_place + 1) }
{
    words.next_word()
}
