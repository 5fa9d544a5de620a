// Drafts: what they hold, marks at word edges, refusals, and the words behind them.
use crate::set_ups::{marked, marked_four};
use bit_block::config::Config;
use bitset_interface::LevelMasks;
use bitset_interface::walk::{contains, next_from};
use certificate::runs::{Run, count_held, next_run};
use draft::{Draft, DraftError};
use std::test::Fail;

#[test]
fn four_positions(rt: HostRuntime) -> Result<(), Fail> {
    let mut words = [9u64; 4_096];
    let d = marked_four(&mut words)?;
    assert!(rt; contains(&d, 70));
    assert!(rt; !contains(&d, 65));
    assert_eq!(rt; next_from(&d, 71), Some(4_096));
    assert_eq!(rt; next_from(&d, 4_097), None);
    assert_eq!(rt; next_from(&d, 0), Some(3));
    assert_eq!(rt; count_held(&d), 4);
    Ok(())
}

#[test]
fn positions_past_the_capacity(rt: HostRuntime) -> Result<(), Fail> {
    let mut words = [0u64; 4_096];
    let d = marked(&mut words, [(0, 262_144)])?;
    assert!(rt; contains(&d, 262_143));
    assert!(rt; !contains(&d, 262_144));
    assert!(rt; !contains(&d, usize::MAX));
    assert_eq!(rt; next_from(&d, 262_143), Some(262_143));
    assert_eq!(rt; next_from(&d, 262_144), None);
    assert_eq!(rt; next_from(&d, usize::MAX), None);
    Ok(())
}

// The position at which a draft answers otherwise than it should.
#[derive(Clone, Copy, Debug)]
struct WrongAt(usize);

// Whether the draft holds p has to be as said.
fn answers(d: &Draft<'_>, p: usize, held: bool) -> Result<(), WrongAt> {
    if contains(d, p) == held {
        Ok(())
    } else {
        Err(WrongAt(p))
    }
}

// After one mark, or one mark and one clear, just these positions below 200 are held.
fn spans(d: &mut Draft<'_>, from: usize, to: usize) -> Result<(), Fail> {
    d.clear(0, 262_144)?;
    d.mark(from, to)?;
    for p in 0..200 {
        answers(d, p, from <= p && p < to)?;
    }
    d.mark(0, 200)?;
    d.clear(from, to)?;
    for p in 0..200 {
        answers(d, p, p < from || to <= p)?;
    }
    Ok(())
}

#[test]
fn marks_at_word_edges() -> Result<(), Fail> {
    let mut words = [0u64; 4_096];
    let mut d = Draft::new(&mut words, Config::SMALL);
    for (from, to) in [
        (0, 0),
        (64, 64),
        (0, 1),
        (0, 64),
        (1, 63),
        (63, 65),
        (64, 128),
        (127, 129),
        (5, 190),
    ] {
        spans(&mut d, from, to)?;
    }
    Ok(())
}

#[test]
fn a_whole_draft(rt: HostRuntime) -> Result<(), Fail> {
    let mut words = [0u64; 4_096];
    let mut d = marked(&mut words, [(0, 262_144)])?;
    assert_eq!(rt; count_held(&d), 262_144);
    assert!(rt;
        next_run(&d, 0)
            == Some(Run {
                from: 0,
                to: 262_144
            })
    );
    d.clear(100, 200)?;
    assert!(rt; next_run(&d, 0) == Some(Run { from: 0, to: 100 }));
    assert!(rt;
        next_run(&d, 100)
            == Some(Run {
                from: 200,
                to: 262_144
            })
    );
    d.clear(0, 262_144)?;
    assert!(rt; next_run(&d, 0).is_none());
    Ok(())
}

#[test]
fn bad_ranges(rt: HostRuntime) {
    let mut words = [0u64; 4_096];
    let mut d = Draft::new(&mut words, Config::SMALL);
    assert_eq!(rt; d.mark(2, 1), Err(DraftError::BadRange));
    assert_eq!(rt; d.mark(0, 262_145), Err(DraftError::BadRange));
    assert_eq!(rt; d.clear(usize::MAX, 0), Err(DraftError::BadRange));
    assert_eq!(rt; d.mark(262_144, 262_144), Ok(()));
    assert_eq!(rt; count_held(&d), 0);
}

#[test]
fn words_behind_a_draft(rt: HostRuntime) -> Result<(), Fail> {
    let mut words = [7u64; 4_098];
    let _ = marked(&mut words, [(262_080, 262_144)])?;
    assert_eq!(rt; words[0], 0);
    assert_eq!(rt; words[4_095], u64::MAX);
    assert_eq!(rt; words[4_096], 7);
    assert_eq!(rt; words[4_097], 7);
    Ok(())
}

#[test]
fn too_few_words(rt: HostRuntime) {
    let mut words = [5u64; 4_095];
    assert_eq!(rt;
        Draft::check(4_095, Config::SMALL),
        Err(DraftError::NoWords)
    );
    assert_eq!(rt; Draft::check(4_096, Config::SMALL), Ok(()));
    {
        let mut d = Draft::new(&mut words, Config::SMALL);
        assert!(rt; d.config().is_none());
        assert!(rt; !contains(&d, 0));
        assert_eq!(rt; d.mark(0, 0), Ok(()));
        assert_eq!(rt; d.mark(0, 1), Err(DraftError::BadRange));
    }
    assert_eq!(rt; words[0], 5);
}
