//! The draws of an emulated network, which decide on which arcs a frame is lost.
ghost use Rattle.std.specs.Prelude.{◌≡◌, ◌↔◌, IsTrue};
ghost use Rattle.mesh_machine.specs.Draws.{key_by};
ghost use Rattle.mesh_machine.specs.Traffic.{IsLossy, IsLost, draw, next_count};

use mesh_atoms::{RadioArc, Scenario};
use rand_chacha::ChaCha20Rng;
use rand_core::SeedableRng;
use rand_core::utils::NextWord;
use std::marker::Model;

/// The words of a stream of a seed, from the first on.
pub fn words_of(seed: u64, stream: u64) -> ChaCha20Rng
    ensures { result ≡ record { key = key_by seed; stream = stream; word_pos = 0 } }
{
    let low = seed.to_le_bytes();
    let key = [
        low[0], low[1], low[2], low[3], low[4], low[5], low[6], low[7], 0, 0, 0, 0, 0, 0, 0, 0, 0,
        0, 0, 0, 0, 0, 0, 0, 0, 0, 0, 0, 0, 0, 0, 0,
    ];
    let mut words = ChaCha20Rng::from_seed(key);
    words.set_stream(stream);
    words
}

/// The words of a seed's stream 0 in order, and how many were drawn, wrapping at 2^64.
#[derive(Drop)]
pub struct Draws {
    seed: u64,
    drawn: u64,
    stream: ChaCha20Rng,
}

impl Model for Draws {
    ghost use Rattle.std.specs.Prelude.{◌≡◌};
    ghost use Rattle.mesh_machine.specs.Draws.{Drawing, key_by};

    ghost Value = { Drawing };

    ghost view = { λ d. record { seed = d.seed; drawn = d.drawn } };

    ghost invariant = { λ d. d.stream ≡ record { key = key_by d.seed; stream = 0; word_pos = d.drawn } };
}

impl Draws {
    /// No draw yet.
    pub fn new(seed: u64) -> Draws
        ensures { result ≡ record { seed = seed; drawn = 0 } }
    {
        Draws {
            seed,
            drawn: 0,
            stream: words_of(seed, 0),
        }
    }

    /// The next word.
    pub fn draw(&mut self) -> u32
        ensures value { result ≡ draw self.old.seed self.old.drawn }
        ensures drawn { self.new ≡ record { seed = self.old.seed; drawn = next_count self.old.drawn } }
    {
        let word = self.stream.next_word();
        self.drawn = self.drawn.wrapping_add(1);
        if self.drawn == 0 {
            self.stream.set_word_pos(0);
        }
        word
    }
}

/// Whether the next draw loses what is sent now on an arc.
pub fn loses(scenario: &Scenario, now: u64, arc: &RadioArc, draws: &mut Draws) -> bool
    requires seed { draws.old.seed ≡ scenario.now.seed }
    ensures lost { IsTrue result ↔ IsLost scenario.now now draws.old.drawn arc.now }
    ensures drawn { draws.new ≡ record { seed = draws.old.seed; drawn = next_count draws.old.drawn } }
{
    let word = draws.draw();
    is_lossy(scenario.loss_until, now) && word % 1000 < u32::from(arc.loss)
}

// Whether frames may be lost.
fn is_lossy(loss_until: Option<u64>, now: u64) -> bool
    ensures { IsTrue result ↔ IsLossy loss_until now }
{
    match loss_until {
        Some(until) => now < until,
        None => true,
    }
}
