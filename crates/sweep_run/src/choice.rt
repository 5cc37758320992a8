ghost use Rattle.std.specs.Prelude.{◌≡◌, ℕ, ◌+◌, ◌*◌, ◌<◌};
ghost use Rattle.bfm_base.specs.declared.limits.TheConstants.{MOST_MONOMERS};
ghost use Rattle.sweep_stream.specs.RandomWords.{generator_after};
ghost use Rattle.sweep_run.specs.Sweep.{monomer_of, direction_of, acceptance_word};

use bfm_base::Dir;
use sweep_stream::SweepWords;

/// What three random words select: a monomer, a direction, and the word that accepts the step.
#[derive(Clone, Copy)]
pub(crate) struct Choice {
    pub(crate) monomer: u32,
    pub(crate) dir: Dir,
    pub(crate) word: u32,
}

/// What the next three words select among so many monomers.
pub(crate) fn next_choice(words: &mut SweepWords, monomers: u32) -> Choice
    requires some { 0 < monomers }
    ensures monomer { (seed k : ℕ) → words.old ≡ generator_after seed (3 * k) → result.monomer ≡ monomer_of monomers seed k }
    ensures below { result.monomer < monomers }
    ensures direction { (seed k : ℕ) → words.old ≡ generator_after seed (3 * k) → result.dir ≡ direction_of seed k }
    ensures word { (seed k : ℕ) → words.old ≡ generator_after seed (3 * k) → result.word ≡ acceptance_word seed k }
    ensures words { (seed k : ℕ) → words.old ≡ generator_after seed (3 * k) → words.new ≡ generator_after seed (3 * (k + 1)) }
{
    let monomer = (u64::from(words.next()) * u64::from(monomers)) >> 32;
    let direction = (u64::from(words.next()) * 6) >> 32;
    let word = words.next();
    Choice {
        monomer: monomer as u32,
        dir: Dir::of(direction as u32),
        word,
    }
}
