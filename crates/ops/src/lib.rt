// Layers over two sources of any kind, held by value. Each is a source itself, so layers stand on layers.
#![tactic(auto)]

pub mod operation;

ghost use Rattle.std.specs.Prelude.{◌≡◌, ℕ, not, ◌&&◌, ◌||◌};
ghost use Rattle.bit_block.specs.Bit.{exclusive};
ghost use Rattle.bit_block.specs.Raised.{raised};
ghost use Rattle.bit_block.specs.Widths.{live};
ghost use Rattle.bitset_interface.specs.Source.{Source, Lawful, holds};
ghost use Rattle.ops.specs.Layer.{applied, both, either, without, one_of};
ghost use Rattle.ops.specs.Lawfulness.{applied_lawful};

use bit_block::config::{Config, common};
use bit_block::mask::Mask;
use bitset_interface::LevelMasks;
use operation::{And, BitSetOp, Or, Sub, Xor};
use std::marker::PhantomData;

// The positions in both.
pub type Both<A, B> = Apply<And, A, B>;

// The positions in at least one. Trusted where both below are.
pub type Either<A, B> = Apply<Or, A, B>;

// The positions in the first only.
pub type Without<A, B> = Apply<Sub, A, B>;

// The positions in just one of the two.
pub type OneOf<A, B> = Apply<Xor, A, B>;

// The layer that an operation makes of two sources; void over sources of unequal configurations.
#[derive(Drop)]
pub struct Apply<Op, A, B>(pub A, pub B, PhantomData<Op>);

impl<Op: BitSetOp, A: LevelMasks, B: LevelMasks> Apply<Op, A, B> {
    // The layer over two sources.
    pub fn new(a: A, b: B) -> Apply<Op, A, B>
        ensures first { result.0 ≡ a }
        ensures second { result.1 ≡ b }
        ensures held { (p : ℕ) → holds (applied Op.hierarchy_bit Op.data_bit Op.TRUSTED_HIERARCHY (A.LevelMasks.means a) (B.LevelMasks.means b)) p ≡ (live (A.LevelMasks.means a).conf (B.LevelMasks.means b).conf && Op.data_bit (holds (A.LevelMasks.means a) p) (holds (B.LevelMasks.means b) p)) }
    {
        Apply(a, b, PhantomData)
    }
}

// What both hold.
pub fn both_of<A: LevelMasks, B: LevelMasks>(a: A, b: B) -> Both<A, B>
    ensures first { result.0 ≡ a }
    ensures second { result.1 ≡ b }
    ensures means { ⟦<Both<A, B> as LevelMasks>⟧.means result ≡ both (A.LevelMasks.means a) (B.LevelMasks.means b) }
    ensures held { (p : ℕ) → holds (both (A.LevelMasks.means a) (B.LevelMasks.means b)) p ≡ (live (A.LevelMasks.means a).conf (B.LevelMasks.means b).conf && (holds (A.LevelMasks.means a) p && holds (B.LevelMasks.means b) p)) }
{
    Apply::new(a, b)
}

// What at least one holds.
pub fn either_of<A: LevelMasks, B: LevelMasks>(a: A, b: B) -> Either<A, B>
    ensures first { result.0 ≡ a }
    ensures second { result.1 ≡ b }
    ensures means { ⟦<Either<A, B> as LevelMasks>⟧.means result ≡ either (A.LevelMasks.means a) (B.LevelMasks.means b) }
    ensures held { (p : ℕ) → holds (either (A.LevelMasks.means a) (B.LevelMasks.means b)) p ≡ (live (A.LevelMasks.means a).conf (B.LevelMasks.means b).conf && (holds (A.LevelMasks.means a) p || holds (B.LevelMasks.means b) p)) }
{
    Apply::new(a, b)
}

// What the first holds alone.
pub fn first_without<A: LevelMasks, B: LevelMasks>(a: A, b: B) -> Without<A, B>
    ensures first { result.0 ≡ a }
    ensures second { result.1 ≡ b }
    ensures means { ⟦<Without<A, B> as LevelMasks>⟧.means result ≡ without (A.LevelMasks.means a) (B.LevelMasks.means b) }
    ensures held { (p : ℕ) → holds (without (A.LevelMasks.means a) (B.LevelMasks.means b)) p ≡ (live (A.LevelMasks.means a).conf (B.LevelMasks.means b).conf && (holds (A.LevelMasks.means a) p && not (holds (B.LevelMasks.means b) p))) }
{
    Apply::new(a, b)
}

// What just one holds.
pub fn just_one_of<A: LevelMasks, B: LevelMasks>(a: A, b: B) -> OneOf<A, B>
    ensures first { result.0 ≡ a }
    ensures second { result.1 ≡ b }
    ensures means { ⟦<OneOf<A, B> as LevelMasks>⟧.means result ≡ one_of (A.LevelMasks.means a) (B.LevelMasks.means b) }
    ensures held { (p : ℕ) → holds (one_of (A.LevelMasks.means a) (B.LevelMasks.means b)) p ≡ (live (A.LevelMasks.means a).conf (B.LevelMasks.means b).conf && (exclusive (holds (A.LevelMasks.means a) p) (holds (B.LevelMasks.means b) p))) }
{
    Apply::new(a, b)
}

impl<Op: BitSetOp, A: LevelMasks, B: LevelMasks> LevelMasks for Apply<Op, A, B> {
    ghost means = { λ s. applied Op.hierarchy_bit Op.data_bit Op.TRUSTED_HIERARCHY (A.LevelMasks.means s.0) (B.LevelMasks.means s.1) };

    ghost lawful = { λ s. applied_lawful Op.hierarchy_bit Op.data_bit Op.TRUSTED_HIERARCHY Op.laws (A.LevelMasks.means s.0) (B.LevelMasks.means s.1) (A.LevelMasks.lawful s.0) (B.LevelMasks.lawful s.1) };

    #[inline(always)]
    fn config(&self) -> Option<Config> {
        common(self.0.config(), self.1.config())
    }

    fn trusted(&self) -> bool {
        Op::TRUSTED_HIERARCHY && self.config().is_some() && self.0.trusted() && self.1.trusted()
    }

    #[inline(always)]
    fn level0_mask(&self) -> Mask {
        let Some(_) = self.config() else {
            return Mask::zero();
        };
        Op::hierarchy_op(self.0.level0_mask(), self.1.level0_mask())
    }

    #[inline(always)]
    fn level1_mask(&self, i: usize) -> Mask {
        let Some(_) = self.config() else {
            return Mask::zero();
        };
        Op::hierarchy_op(self.0.level1_mask(i), self.1.level1_mask(i))
    }

    #[inline(always)]
    fn data_mask(&self, i: usize, j: usize) -> Mask {
        let Some(_) = self.config() else {
            return Mask::zero();
        };
        Op::data_op(self.0.data_mask(i, j), self.1.data_mask(i, j))
    }
}
