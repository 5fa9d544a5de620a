// Lookups, written once above any source.
ghost use Rattle.std.specs.Prelude.{◌≡◌, ℕ, ◌<◌};
ghost use Rattle.bit_block.specs.Bit.{Least};
ghost use Rattle.bit_block.specs.Widths.{capacity};
ghost use Rattle.bitset_interface.specs.Source.{Source, holds};
ghost use Rattle.bitset_interface.specs.Lex.{RowLeast, PlaceLeast};

use crate::LevelMasks;
use bit_block::config::Config;

// How many positions the source's configuration has; none where it is void.
pub fn capacity_of<S: LevelMasks>(s: &S) -> usize
    ensures { result ≡ capacity (S.LevelMasks.means s.now).conf }
{
    s.config().map_or(0, |config| config.capacity())
}

// Whether the source holds position p.
pub fn contains<S: LevelMasks>(s: &S, p: usize) -> bool
    ensures { result ≡ holds (S.LevelMasks.means s.now) p }
{
    let Some(config) = s.config() else {
        return false;
    };
    let (i, j, k) = config.level_indices(p);
    s.data_mask(i, j).get_bit(k)
}

// The least place held in row i, from block `from` on.
fn in_row<S: LevelMasks>(s: &S, i: usize, from: usize) -> Option<(usize, usize)>
    ensures { RowLeast ((S.LevelMasks.means s.now).up2 i) from result }
{
    for found in s.level1_mask(i).ones_from(from) {
        if let Some(k) = s.data_mask(i, found).first_from(0) {
            return Some((found, k));
        }
    }
    None
}

// The least place held from (i, j, k) on.
fn next_place<S: LevelMasks>(s: &S, i: usize, j: usize, k: usize) -> Option<(usize, usize, usize)>
    requires { (i < 256) × (j < 256) }
    ensures { PlaceLeast (S.LevelMasks.means s.now).up2 i j k result }
{
    if let Some(c) = s.data_mask(i, j).first_from(k) {
        return Some((i, j, c));
    }
    if let Some((b, c)) = in_row(s, i, j + 1) {
        return Some((i, b, c));
    }
    for found in s.level0_mask().ones_from(i + 1) {
        if let Some((b, c)) = in_row(s, found, 0) {
            return Some((found, b, c));
        }
    }
    None
}

// The least position held at or above p, or none.
pub fn next_from<S: LevelMasks>(s: &S, p: usize) -> Option<usize>
    ensures { Least (holds (S.LevelMasks.means s.now)) p result }
{
    let config = s.config()?;
    let (i, j, k) = config.level_indices(p);
    if i >= config.level0.bits() {
        return None;
    }
    let width = config.data.bits();
    let block = config.level1.bits() * width;
    let (i, j, k) = next_place(s, i, j, k)?;
    Some(i * block + (j * width + k))
}
