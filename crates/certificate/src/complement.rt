// The positions that a source does not hold.
ghost use Rattle.certificate.specs.Complements.{complement, complement_lawful};

use bit_block::config::Config;
use bit_block::mask::Mask;
use bitset_interface::LevelMasks;
use bitset_interface::spread::{every_level0, every_level1};

// Every position below the capacity that the source does not hold.
#[derive(Drop)]
pub struct Complement<S>(pub S);

impl<S: LevelMasks> LevelMasks for Complement<S> {
    ghost means = { λ s. complement (S.LevelMasks.means s.0) };

    ghost lawful = { λ s. complement_lawful (S.LevelMasks.means s.0) };

    #[inline(always)]
    fn config(&self) -> Option<Config> {
        self.0.config()
    }

    fn trusted(&self) -> bool {
        false
    }

    fn level0_mask(&self) -> Mask {
        every_level0(self.0.config())
    }

    fn level1_mask(&self, i: usize) -> Mask {
        every_level1(self.0.config(), i)
    }

    #[inline(always)]
    fn data_mask(&self, i: usize, j: usize) -> Mask {
        match self.0.config() {
            Some(c) if i < c.level0.bits() && j < c.level1.bits() => {
                Mask::full(c.data).without(self.0.data_mask(i, j))
            }
            _ => Mask::zero(),
        }
    }
}
