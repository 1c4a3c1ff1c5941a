//! The words of which scenarios are made.
ghost use Rattle.std.specs.Prelude.{◌≡◌, ◌<◌, ◌%◌};
ghost use Rattle.mesh_emulate.specs.Making.Pairs.{word};

use mesh_radio::words_of;
use rand_core::utils::NextWord;

/// A word of the stream 1 of a seed.
pub fn word(seed: u64, place: u64) -> u32
    ensures { result ≡ word seed place }
{
    let mut words = words_of(seed, 1);
    words.set_word_pos(u128::from(place));
    words.next_word()
}

/// What a word leaves over when it is divided.
pub fn word_below(seed: u64, place: usize, count: usize) -> usize
    requires { 0 < count }
    ensures value { result ≡ word seed place % count }
    ensures below { result < count }
{
    word(seed, place as u64) as usize % count
}
