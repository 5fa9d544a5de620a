// Packing: the words and numbers of small examples, refusals, and what a packed set answers.
use crate::set_ups::{marked, marked_four, packed};
use bit_block::config::Config;
use bitset_interface::LevelMasks;
use bitset_interface::walk::{contains, next_from};
use certificate::runs::count_held;
use draft::Draft;
use immutable_bitset::Blank;
use immutable_bitset::error::FillError;
use ops::{Either, Without};
use packing::most_words;
use std::test::Fail;

#[test]
fn words_of_four_positions(rt: HostRuntime) -> Result<(), Fail> {
    let mut marks = [0u64; 4_096];
    let d = marked_four(&mut marks)?;
    let mut words = [9u64; 7];
    {
        let set = packed(&mut words, &d)?;
        assert_eq!(rt; set.n(), 2);
        assert_eq!(rt; set.d(), 3);
        assert_eq!(rt; set.level0_mask().words[0], 3);
    }
    assert_eq!(rt; words, [3, 1, 0x0000_0002_0000_0000, 8, 65, 1, 9]);
    Ok(())
}

#[test]
fn one_word_too_few(rt: HostRuntime) -> Result<(), Fail> {
    let mut marks = [0u64; 4_096];
    let d = marked_four(&mut marks)?;
    let mut words = [9u64; 5];
    {
        let mut blank = Blank::new(&mut words);
        assert_eq!(rt; blank.materialize(&d), Err(FillError::NoMemory(6)));
        let set = blank.finish();
        assert!(rt; set.config().is_none());
        assert!(rt; !contains(&set, 3));
    }
    assert_eq!(rt; words, [9; 5]);
    Ok(())
}

#[test]
fn a_packed_set_answers(rt: HostRuntime) -> Result<(), Fail> {
    let mut marks = [0u64; 4_096];
    let d = marked_four(&mut marks)?;
    let mut words = [0u64; 6];
    let set = packed(&mut words, &d)?;
    assert!(rt; set.trusted());
    assert!(rt; contains(&set, 70));
    assert!(rt; !contains(&set, 65));
    assert_eq!(rt; next_from(&set, 71), Some(4_096));
    assert_eq!(rt; next_from(&set, 4_097), None);
    assert_eq!(rt; count_held(&set), 4);
    Ok(())
}

#[test]
fn emptied_blocks_are_not_stored(rt: HostRuntime) -> Result<(), Fail> {
    let (mut x, mut y) = ([0u64; 4_096], [0u64; 4_096]);
    let a = marked(&mut x, [(0, 200)])?;
    let b = marked(&mut y, [(0, 128)])?;
    let mut words = [0u64; 8];
    let first = packed(&mut words, &a)?;
    assert_eq!(rt; first.d(), 4);
    let mut more = [0u64; 8];
    let rest = packed(&mut more, &Without::new(&first, &b))?;
    assert_eq!(rt; rest.d(), 2);
    assert_eq!(rt; next_from(&rest, 0), Some(128));
    Ok(())
}

#[test]
fn packed_again_and_in_layers(rt: HostRuntime) -> Result<(), Fail> {
    let mut marks = [0u64; 4_096];
    let d = marked_four(&mut marks)?;
    let (mut x, mut y) = ([0u64; 6], [0u64; 6]);
    {
        let set = packed(&mut x, &d)?;
        let _ = packed(&mut y, &Either::new(&set, &set))?;
    }
    assert_eq!(rt; x, y);
    Ok(())
}

#[test]
fn released_words_are_unfilled(rt: HostRuntime) -> Result<(), Fail> {
    let mut marks = [0u64; 4_096];
    let d = marked_four(&mut marks)?;
    let mut words = [0u64; 6];
    let empty = packed(&mut words, &d)?.release().finish();
    assert!(rt; empty.config().is_none());
    assert_eq!(rt; empty.n(), 0);
    assert_eq!(rt; next_from(&empty, 0), None);
    Ok(())
}

#[test]
fn empty_and_void(rt: HostRuntime) {
    let (mut x, mut y) = ([0u64; 4_096], [0u64; 10]);
    let empty = Draft::new(&mut x, Config::SMALL);
    let void = Draft::new(&mut y, Config::SMALL);
    let mut none = [0u64; 0];
    let mut blank = Blank::new(&mut none);
    assert_eq!(rt; blank.materialize(&void), Err(FillError::Void));
    assert_eq!(rt; blank.materialize(&empty), Ok(()));
    let set = blank.finish();
    assert!(rt; set.config().is_some());
    assert_eq!(rt; count_held(&set), 0);
}

#[test]
fn the_largest_set(rt: HostRuntime) -> Result<(), Fail> {
    let heap = rt.alloc();
    assert_eq!(rt; most_words(Config::LARGE), 263_424);
    let mut marks = vec![in heap; 0u64; 262_144]?;
    let mut words = vec![in heap; 0u64; 263_424]?;
    let mut d = Draft::new(marks.as_mut_slice(), Config::LARGE);
    d.mark(0, 16_777_216)?;
    let set = packed(words.as_mut_slice(), &d)?;
    assert_eq!(rt; set.n(), 256);
    assert_eq!(rt; set.d(), 65_536);
    assert!(rt; contains(&set, 16_777_215));
    assert_eq!(rt; count_held(&set), 16_777_216);
    Ok(())
}
