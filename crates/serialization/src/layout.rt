// Where the fields of an image stand, from its start.
ghost use Rattle.std.specs.Prelude.{◌≡◌, ℕ, ◌<◌, ◌≤◌};
ghost use Rattle.serialization.specs.Layout.{size, padding, level0_at, starts0_at, level1_at, starts1_at, starts1_end, data_at, image_length};

use bit_block::config::{Config, Width};

// The bytes of version, n and d.
pub const HEADER_SIZE: usize = 8;

// How many bytes a mask has; its alignment is its size.
pub fn mask_size(width: Width) -> usize
    ensures is { result ≡ size width }
    ensures small { result ≤ 32 }
    ensures some { 0 < result }
{
    width.bits() / 8
}

// How many bytes lie between a place and the next that is a multiple of a mask's size.
pub fn padding_for(width: Width, at: usize) -> usize
    ensures is { result ≡ padding (size width) at }
    ensures small { result < 32 }
{
    let size = mask_size(width);
    (size - at % size) % size
}

// The places of the fields of an image with n level-1 masks and d blocks, and how long it is. Each is a sum in 64 bits.
#[derive(Clone, Copy)]
pub struct Offsets {
    pub level0: usize,
    pub level0_starts: usize,
    pub level1: usize,
    pub level1_starts: usize,
    pub level1_starts_end: usize,
    pub data: usize,
    pub len: usize,
}

impl Offsets {
    // The places in an image that declares n masks and d blocks.
    pub fn new(config: Config, n: u16, d: u32) -> Offsets
        ensures level0 { result.level0 ≡ level0_at config }
        ensures starts0 { result.level0_starts ≡ starts0_at config }
        ensures level1 { result.level1 ≡ level1_at config }
        ensures starts1 { result.level1_starts ≡ starts1_at config n }
        ensures starts1_end { result.level1_starts_end ≡ starts1_end config n }
        ensures blocks { result.«data» ≡ data_at config n }
        ensures len { result.len ≡ image_length config n d }
    {
        let level0 = HEADER_SIZE + padding_for(config.level0, HEADER_SIZE);
        let level0_starts = level0 + mask_size(config.level0);
        let level0_starts_end = level0_starts + 8;
        let level1 = level0_starts_end + padding_for(config.level1, level0_starts_end);
        let level1_starts = level1 + n as usize * mask_size(config.level1);
        let level1_starts_end = level1_starts + n as usize * (config.level1.bits() / 64) * 2;
        let data = level1_starts_end + padding_for(config.data, level1_starts_end);
        let len = data + d as usize * mask_size(config.data);
        Offsets {
            level0,
            level0_starts,
            level1,
            level1_starts,
            level1_starts_end,
            data,
            len,
        }
    }
}
