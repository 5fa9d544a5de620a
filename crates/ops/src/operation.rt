// The operations of layers, on two masks of one level.
ghost use Rattle.std.specs.Prelude.{◌≡◌, ℕ, Bool, true, false, not, ◌&&◌, ◌||◌};
ghost use Rattle.bit_block.specs.Bit.{exclusive};
ghost use Rattle.bit_block.specs.Raised.{raised};
ghost use Rattle.ops.specs.Operations.{OperationLaws, and_laws, or_laws, sub_laws, xor_laws};

use bit_block::mask::Mask;

// An operation on masks: on those of levels 0 and 1, and on data blocks. Its laws make each layer of it lawful.
pub trait BitSetOp {
    // what becomes of two bits of level 0 or 1, and of two data bits
    ghost hierarchy_bit: { Bool → Bool → Bool };

    ghost data_bit: { Bool → Bool → Bool };

    ghost TRUSTED_HIERARCHY: { Bool };

    ghost laws: { OperationLaws hierarchy_bit data_bit TRUSTED_HIERARCHY };

    // Whether a layer over two trusted sources is trusted.
    const TRUSTED_HIERARCHY: bool;

    // The operation on masks of level 0 or 1.
    fn hierarchy_op(left: Mask, right: Mask) -> Mask
        ensures { (t : ℕ) → raised result t ≡ hierarchy_bit (raised left t) (raised right t) };

    // The operation on data blocks.
    fn data_op(left: Mask, right: Mask) -> Mask
        ensures { (t : ℕ) → raised result t ≡ data_bit (raised left t) (raised right t) };
}

// What both raise.
#[derive(Clone, Copy)]
pub struct And;

impl BitSetOp for And {
    ghost hierarchy_bit = { λ p q. p && q };

    ghost data_bit = { λ p q. p && q };

    ghost TRUSTED_HIERARCHY = { false };

    ghost laws = { and_laws };

    const TRUSTED_HIERARCHY: bool = false;

    fn hierarchy_op(left: Mask, right: Mask) -> Mask {
        left.and(right) // where both have a block
    }

    fn data_op(left: Mask, right: Mask) -> Mask {
        left.and(right) // the positions in both
    }
}

// What at least one raises.
#[derive(Clone, Copy)]
pub struct Or;

impl BitSetOp for Or {
    ghost hierarchy_bit = { λ p q. p || q };

    ghost data_bit = { λ p q. p || q };

    ghost TRUSTED_HIERARCHY = { true };

    ghost laws = { or_laws };

    const TRUSTED_HIERARCHY: bool = true;

    fn hierarchy_op(left: Mask, right: Mask) -> Mask {
        left.or(right) // where one has a block
    }

    fn data_op(left: Mask, right: Mask) -> Mask {
        left.or(right) // the positions in at least one
    }
}

// What the left alone raises.
#[derive(Clone, Copy)]
pub struct Sub;

impl BitSetOp for Sub {
    ghost hierarchy_bit = { λ p q. p };

    ghost data_bit = { λ p q. p && not q };

    ghost TRUSTED_HIERARCHY = { false };

    ghost laws = { sub_laws };

    const TRUSTED_HIERARCHY: bool = false; // taking away may empty a block that stays raised

    fn hierarchy_op(left: Mask, _right: Mask) -> Mask {
        left // a block may stay, whatever is taken from it
    }

    fn data_op(left: Mask, right: Mask) -> Mask {
        left.without(right)
    }
}

// What just one of the two raises.
#[derive(Clone, Copy)]
pub struct Xor;

impl BitSetOp for Xor {
    ghost hierarchy_bit = { λ p q. p || q };

    ghost data_bit = { exclusive };

    ghost TRUSTED_HIERARCHY = { false };

    ghost laws = { xor_laws };

    const TRUSTED_HIERARCHY: bool = false;

    fn hierarchy_op(left: Mask, right: Mask) -> Mask {
        Or::hierarchy_op(left, right)
    }

    fn data_op(left: Mask, right: Mask) -> Mask {
        left.xor(right)
    }
}
