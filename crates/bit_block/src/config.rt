// A configuration is three widths: of the level-0 mask, of the level-1 masks and of the data blocks.
ghost use Rattle.std.specs.Prelude.{◌≡◌, ◌^◌, true, Some};
ghost use Rattle.bit_block.specs.Widths.{bits, exponent, capacity, shared, index0, index1, index_d};

#[derive(Clone, Copy, PartialEq, Eq, Debug)]
pub enum Width {
    W64,
    W128,
    W256,
}

impl Width {
    // How many bits a mask of this width has.
    pub fn bits(self) -> usize
        ensures { result ≡ bits self }
    {
        1 << self.exponent()
    }

    // The power of two that the width is.
    pub fn exponent(self) -> usize
        ensures { result ≡ exponent self }
    {
        match self {
            Width::W64 => 6,
            Width::W128 => 7,
            Width::W256 => 8,
        }
    }
}

#[derive(Clone, Copy, PartialEq, Eq, Debug)]
pub struct Config {
    pub level0: Width,
    pub level1: Width,
    pub data: Width,
}

impl Config {
    pub const SMALL: Config = Config {
        level0: Width::W64,
        level1: Width::W64,
        data: Width::W64,
    };

    pub const BOOK: Config = Config {
        level0: Width::W64,
        level1: Width::W64,
        data: Width::W256,
    };

    pub const LARGE: Config = Config {
        level0: Width::W256,
        level1: Width::W256,
        data: Width::W256,
    };

    // How many positions a set of this configuration can hold: those below this number.
    pub fn capacity(self) -> usize
        ensures { result ≡ capacity (Some self) }
    {
        self.level0.bits() * (self.level1.bits() * self.data.bits())
    }

    // The level-0 index, the level-1 index and the bit of position p: three numbers, as the calls for masks take them.
    pub fn level_indices(self, p: usize) -> (usize, usize, usize)
        ensures level0 { result.0 ≡ index0 (Some self) p }
        ensures level1 { result.1 ≡ index1 (Some self) p }
        ensures bit { result.2 ≡ index_d (Some self) p }
    {
        let data = self.data.exponent();
        let level1 = self.level1.exponent();
        (
            p >> (level1 + data),
            (p >> data) & ((1 << level1) - 1),
            p & ((1 << data) - 1),
        )
    }
}

// The configuration that both have, or none.
pub fn common(a: Option<Config>, b: Option<Config>) -> Option<Config>
    ensures { result ≡ shared a b }
{
    match (a, b) {
        (Some(c), Some(d)) if c == d => Some(c),
        _ => None,
    }
}
