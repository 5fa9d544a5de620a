// Masks that raise every bit, for sources that skip nothing on their upper levels.
ghost use Rattle.std.specs.Prelude.{◌≡◌, ℕ};
ghost use Rattle.bit_block.specs.Raised.{raised};
ghost use Rattle.bitset_interface.specs.Spread.{every0, every1};

use bit_block::config::Config;
use bit_block::mask::Mask;

// The level-0 mask with every bit raised; zero where the configuration is void.
pub fn every_level0(config: Option<Config>) -> Mask
    ensures { (t : ℕ) → raised result t ≡ every0 config t }
{
    config.map_or(Mask::zero(), |c| Mask::full(c.level0))
}

// The level-1 mask at i with every bit raised; zero where i is past the width of level 0 or the configuration is void.
pub fn every_level1(config: Option<Config>, i: usize) -> Mask
    ensures { (t : ℕ) → raised result t ≡ every1 config i t }
{
    match config {
        Some(c) if i < c.level0.bits() => Mask::full(c.level1),
        _ => Mask::zero(),
    }
}
