// The rules of what is stored, tested once for every form in which it stands.
#![tactic(auto)]

pub mod rules;

ghost use Rattle.std.specs.Prelude.{◌≡◌, ℕ, slice_index};
ghost use Rattle.bit_block.specs.declared.config.Config.{Config as Conf};
ghost use Rattle.bit_block.specs.Raised.{raised};
ghost use Rattle.serialization.specs.Stored.{Stored};
ghost use Rattle.vetting.specs.Rules.{bit_in};

use bit_block::config::Config;
use bit_block::mask::Mask;

// What is stored, part by part. A word or a start past the last is 0.
pub trait Parts {
    ghost conf: { Self → Conf };

    ghost parts: { Self → Stored };

    fn config(&self) -> Config
        ensures { result ≡ conf self.now };

    // How many level-1 masks are declared.
    fn n(&self) -> u16
        ensures { result ≡ (parts self.now).n };

    // How many blocks are declared.
    fn d(&self) -> u32
        ensures { result ≡ (parts self.now).d };

    fn level0(&self) -> Mask
        ensures { (t : ℕ) → raised result t ≡ bit_in (parts self.now).top t };

    fn level0_start(&self, q: usize) -> u8
        ensures { result ≡ slice_index (parts self.now).starts0 q };

    fn level1_word(&self, m: usize) -> u64
        ensures { result ≡ slice_index (parts self.now).rows m };

    fn level1_start(&self, m: usize) -> u16
        ensures { result ≡ slice_index (parts self.now).starts1 m };

    fn data_word(&self, w: usize) -> u64
        ensures { result ≡ slice_index (parts self.now).blocks w };
}
