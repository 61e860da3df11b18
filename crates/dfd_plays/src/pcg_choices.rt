use rand_core::SeedableRng;
use rand_core::utils::NextWord;
use rand_pcg::Lcg64Xsh32;
use trail_record::Choices;

/// Words from a random generator that a number seeds: its successive outputs of 32 bits (M. O'Neill, "PCG: A Family of
/// Simple Fast Space-Efficient Statistically Good Algorithms for Random Number Generation").
#[derive(Drop)]
pub struct PcgChoices {
    generator: Lcg64Xsh32,
}

impl PcgChoices {
    ghost use Rattle.std.specs.Prelude.{◌≡◌};
    ghost use Rattle.rand_core.specs.Pcg32Seed.{pcg32_seed};
    ghost use Rattle.rand_pcg.specs.Pcg.{pcg32_of_seed};

    /// The choices that this seed gives.
    pub fn new(seed: u64) -> PcgChoices
        ensures { result.generator ≡ pcg32_of_seed (pcg32_seed 16 seed) }
    {
        PcgChoices {
            generator: Lcg64Xsh32::seed_from_u64(seed),
        }
    }
}

impl Choices for PcgChoices {
    ghost use Rattle.dfd_plays.specs.PcgChoices.{coming_output};

    ghost coming = { coming_output };

    fn word(&mut self) -> u64 {
        u64::from(self.generator.next_word())
    }
}
