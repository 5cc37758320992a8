//! The random words that the attempts of a run draw: those of O'Neill's generator Lcg64Xsh32, on
//! one stream for all seeds, from any sweep on.
//! It stands on `rand_pcg` and `rand_core`. It promises that the words of a seed that follow the
//! beginning of a sweep are those that a generator of this seed would have come to one by one, so
//! that a run that goes on from a later time draws what it would have drawn. It takes no memory.
#![tactic(auto)]

ghost use Rattle.std.specs.Prelude.{◌≡◌, ℕ, ◌+◌, ◌*◌, ◌≤◌};
ghost use Rattle.bfm_base.specs.declared.limits.TheConstants.{MOST_MONOMERS, GREATEST_MCS};
ghost use Rattle.sweep_stream.specs.RandomWords.{generator_after, word_at};

#[cfg(test)]
mod tests;

use rand_core::utils::NextWord;
use rand_pcg::Lcg64Xsh32;
use std::marker::Model;

/// The number of the stream from which all words of all runs come.
const STREAM: u64 = 54;

/// The random words of a seed, from some place on.
#[derive(Drop)]
pub struct SweepWords {
    generator: Lcg64Xsh32,
}

impl Model for SweepWords {
    ghost use Rattle.rand_pcg.specs.Lcg.{Lcg};

    ghost Value = { Lcg };

    ghost view = { λ words. words.generator };
}

impl SweepWords {
    /// The words from sweep `t` on, in a world of `n` monomers: each sweep takes three words for
    /// each of its `n` attempts.
    #[tactic(auto, unfolding(crate::specs::RandomWords::generator_after))]
    pub fn at(seed: u64, n: u32, t: u64) -> SweepWords
        requires monomers { n ≤ MOST_MONOMERS }
        requires sweep { t ≤ GREATEST_MCS }
        ensures { result ≡ generator_after seed (3 * (n * t)) }
    {
        let mut generator = Lcg64Xsh32::new(seed, STREAM);
        generator.advance(3 * (u64::from(n) * t));
        SweepWords { generator }
    }

    /// The next word.
    pub fn next(&mut self) -> u32
        ensures word { (seed k : ℕ) → self.old ≡ generator_after seed k → result ≡ word_at seed k }
        ensures next { (seed k : ℕ) → self.old ≡ generator_after seed k → self.new ≡ generator_after seed (k + 1) }
    {
        self.generator.next_word()
    }
}
