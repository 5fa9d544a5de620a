// The test of the six rules, in their order: it stops at the first place that breaks one.
ghost use Rattle.std.specs.Prelude.{◌≡◌, ◌*◌, ◌==◌, IfOk, slice_index};
ghost use Rattle.bit_block.specs.Ranges.{count};
ghost use Rattle.bit_block.specs.Widths.{bits};
ghost use Rattle.packing.specs.Packed.{before};
ghost use Rattle.packing.specs.Starts0.{start0};
ghost use Rattle.serialization.specs.Faults.{accessed, rule_number};
ghost use Rattle.serialization.specs.Layout.{words};
ghost use Rattle.vetting.specs.Levels.{words_in};
ghost use Rattle.vetting.specs.Rules.{bit_in, raises_one, first_not, broken_at, broken};

use crate::Parts;
use bit_block::config::Width;
use serialization::error::{AccessError, Rule};

// The words that stand in masks of one width: those of level 1, or those of the blocks.
#[derive(Clone, Copy)]
enum Level {
    Masks,
    Blocks,
}

// Word m of a level.
fn word<P: Parts>(parts: &P, level: Level, m: usize) -> u64
    ensures { result ≡ slice_index (words_in level (P.Parts.parts parts.now)) m }
{
    match level {
        Level::Masks => parts.level1_word(m),
        Level::Blocks => parts.data_word(m),
    }
}

// Whether mask i of a level raises a bit.
fn raises<P: Parts>(parts: &P, level: Level, width: Width, i: u32) -> bool
    ensures { result ≡ raises_one (words_in level (P.Parts.parts parts.now)) (bits width) i }
{
    let count = width.bits() / 64;
    let first = i as usize * count;
    for q in 0..count {
        if word(parts, level, first + q) != 0 {
            return true;
        }
    }
    false
}

// The first of so many masks of a level that is zero.
fn first_zero<P: Parts>(parts: &P, level: Level, width: Width, masks: u32) -> Option<usize>
    ensures { result ≡ first_not (raises_one (words_in level (P.Parts.parts parts.now)) (bits width)) masks }
{
    for i in 0..masks {
        if !raises(parts, level, width, i) {
            return Some(i as usize);
        }
    }
    None
}

// A rule is broken at the place that was found.
fn keep(rule: Rule, found: Option<usize>) -> Result<(), AccessError>
    ensures { accessed result ≡ broken_at (rule_number rule) found }
{
    match found {
        Some(place) => Err(AccessError::Broken(rule, place)),
        None => Ok(()),
    }
}

// A rule that is tested at one place.
#[tactic(auto, unfolding(crate::specs::Rules::first_not))]
fn hold(rule: Rule, kept: bool) -> Result<(), AccessError>
    ensures { accessed result ≡ broken_at (rule_number rule) (first_not (λ _. kept) 1) }
{
    keep(rule, if kept { None } else { Some(0) })
}

// Tests that n counts the raised bits of the level-0 mask.
fn level1_count<P: Parts>(parts: &P) -> Result<(), AccessError>
    ensures { let c = P.Parts.conf parts.now in
        let r = P.Parts.parts parts.now in
        accessed result ≡ broken_at 1 (first_not (λ _. (r.n == count (bit_in r.top) (bits c.level0))) 1) }
{
    let rows = parts.level0().rank(parts.config().level0.bits());
    hold(Rule::Level1Count, parts.n() as usize == rows)
}

// Tests that each level-0 start is as defined.
fn level0_starts<P: Parts>(parts: &P) -> Result<(), AccessError>
    ensures { let c = P.Parts.conf parts.now in
        let r = P.Parts.parts parts.now in
        accessed result ≡ broken_at 2 (first_not (λ q. (slice_index r.starts0 q == start0 (bit_in r.top) (bits c.level0) q)) 8) }
{
    let starts = packing::level0_starts(parts.level0(), parts.config().level0);
    for q in 0..8 {
        if parts.level0_start(q) != starts[q] {
            return Err(AccessError::Broken(Rule::Level0Start, q));
        }
    }
    Ok(())
}

// Tests that no level-1 mask is zero.
fn level1_masks<P: Parts>(parts: &P) -> Result<(), AccessError>
    ensures { let c = P.Parts.conf parts.now in
        let r = P.Parts.parts parts.now in
        accessed result ≡ broken_at 3 (first_not (raises_one r.rows (bits c.level1)) r.n) }
{
    let masks = u32::from(parts.n());
    keep(
        Rule::Level1Mask,
        first_zero(parts, Level::Masks, parts.config().level1, masks),
    )
}

// Tests that each level-1 start is as defined, and counts the raised level-1 bits.
fn level1_starts<P: Parts>(parts: &P) -> Result<usize, AccessError>
    ensures rule { let c = P.Parts.conf parts.now in
        let r = P.Parts.parts parts.now in
        accessed result ≡ broken_at 4 (first_not (λ m. (slice_index r.starts1 m == before r.rows m)) (r.n * words c.level1)) }
    ensures ones { let c = P.Parts.conf parts.now in
        let r = P.Parts.parts parts.now in
        IfOk result (λ ones. ones ≡ before r.rows (r.n * words c.level1)) }
{
    let len = parts.n() as usize * (parts.config().level1.bits() / 64);
    let mut ones = 0;
    for m in 0..len {
        if parts.level1_start(m) as usize != ones {
            return Err(AccessError::Broken(Rule::Level1Start, m));
        }
        ones += parts.level1_word(m).count_ones() as usize;
    }
    Ok(ones)
}

// Tests that d counts the raised level-1 bits, of which there are so many.
fn data_count<P: Parts>(parts: &P, ones: usize) -> Result<(), AccessError>
    requires { let c = P.Parts.conf parts.now in
        let r = P.Parts.parts parts.now in
        ones ≡ before r.rows (r.n * words c.level1) }
    ensures { let c = P.Parts.conf parts.now in
        let r = P.Parts.parts parts.now in
        accessed result ≡ broken_at 5 (first_not (λ _. (r.d == before r.rows (r.n * words c.level1))) 1) }
{
    hold(Rule::DataCount, parts.d() as usize == ones)
}

// Tests that no block is zero.
fn data_blocks<P: Parts>(parts: &P) -> Result<(), AccessError>
    ensures { let c = P.Parts.conf parts.now in
        let r = P.Parts.parts parts.now in
        accessed result ≡ broken_at 6 (first_not (raises_one r.blocks (bits c.«data»)) r.d) }
{
    keep(
        Rule::DataBlock,
        first_zero(parts, Level::Blocks, parts.config().data, parts.d()),
    )
}

// Tests the six rules: the refusal names the first that is broken, and its first place.
#[tactic(auto, unfolding(crate::specs::Rules::broken, crate::specs::Rules::first_broken))]
pub fn vet<P: Parts>(parts: &P) -> Result<(), AccessError>
    ensures { accessed result ≡ broken (P.Parts.conf parts.now) (P.Parts.parts parts.now) }
{
    level1_count(parts)?;
    level0_starts(parts)?;
    level1_masks(parts)?;
    let ones = level1_starts(parts)?;
    data_count(parts, ones)?;
    data_blocks(parts)
}
