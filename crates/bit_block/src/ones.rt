// The raised bits of a mask, one after another.
ghost use Rattle.std.specs.Prelude.{◌≡◌, ℕ, ◌+◌, ◌-◌, Some, None};
ghost use Rattle.std.specs.Iterator.{at_most};
ghost use Rattle.bit_block.specs.Onward.{Onward};

use crate::mask::Mask;

// The raised bits of a mask at or above `at`, in order.
#[derive(Clone, Copy)]
pub struct Ones {
    pub mask: Mask,
    pub at: usize,
}

impl Iterator for Ones {
    type Item = usize;

    ghost next_gives = { Onward };

    ghost remaining = { λ s. at_most (256 - s.at) };

    fn next(&mut self) -> Option<usize> {
        let found = self.mask.first_from(self.at)?;
        self.at = found + 1;
        Some(found)
    }
}
