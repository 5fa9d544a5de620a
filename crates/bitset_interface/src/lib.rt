// Sources of level masks: what a style set is to every call that reads it.
#![tactic(auto)]

pub mod spread;
pub mod walk;

ghost use Rattle.std.specs.Prelude.{◌≡◌, ℕ};
ghost use Rattle.bit_block.specs.Raised.{raised};
ghost use Rattle.bitset_interface.specs.Source.{Source, Lawful};

use bit_block::config::Config;
use bit_block::mask::Mask;

// A source: a configuration or void, a level-0 mask, level-1 masks, data masks, and whether its masks raise no bit
// over nothing. An implementation shows what it means and that this keeps the laws.
pub trait LevelMasks {
    ghost means: { Self → Source };

    // What it means keeps the laws of a source. Above the functions, so that a clause can name it too.
    ghost lawful: { (s : Self) → Lawful (means s) };

    // The configuration; None where the source is void.
    fn config(&self) -> Option<Config>
        ensures { result ≡ (means self.now).conf };

    // Whether no raised bit of level 0 or level 1 stands over nothing.
    fn trusted(&self) -> bool
        ensures { result ≡ (means self.now).trust };

    // The level-0 mask; zero where the source is void.
    fn level0_mask(&self) -> Mask
        ensures { (t : ℕ) → raised result t ≡ (means self.now).up0 t };

    // The level-1 mask at i; zero where bit i of level 0 is not raised or i is past its width.
    fn level1_mask(&self, i: usize) -> Mask
        ensures { (t : ℕ) → raised result t ≡ (means self.now).up1 i t };

    // The data block at (i, j); zero where bit j of level-1 mask i is not raised or an index is past its width.
    fn data_mask(&self, i: usize, j: usize) -> Mask
        ensures { (t : ℕ) → raised result t ≡ (means self.now).up2 i j t };
}

// What is lent is a source of the same meaning.
impl<S: LevelMasks> LevelMasks for &S {
    ghost means = { λ s. S.LevelMasks.means s.now };

    ghost lawful = { λ s. S.LevelMasks.lawful s.now };

    #[inline(always)]
    fn config(&self) -> Option<Config> {
        (**self).config()
    }

    #[inline(always)]
    fn trusted(&self) -> bool {
        (**self).trusted()
    }

    #[inline(always)]
    fn level0_mask(&self) -> Mask {
        (**self).level0_mask()
    }

    #[inline(always)]
    fn level1_mask(&self, i: usize) -> Mask {
        (**self).level1_mask(i)
    }

    #[inline(always)]
    fn data_mask(&self, i: usize, j: usize) -> Mask {
        (**self).data_mask(i, j)
    }
}
