// Layers over drafts, three deep and over unequal configurations.
use crate::set_ups::marked;
use bit_block::config::{Config, Width};
use bitset_interface::LevelMasks;
use bitset_interface::walk::{contains, next_from};
use certificate::conditions::{Condition, comparable, next_fault};
use certificate::runs::Run;
use draft::Draft;
use ops::{Both, Either, OneOf, Without};
use std::test::Fail;

#[test]
fn three_deep(rt: HostRuntime) -> Result<(), Fail> {
    let (mut x, mut y, mut z) = ([0u64; 4_096], [0u64; 4_096], [0u64; 4_096]);
    let a = marked(&mut x, [(0, 100)])?;
    let b = marked(&mut y, [(50, 150)])?;
    let c = marked(&mut z, [(90, 200)])?;
    let pile = OneOf::new(Both::new(Either::new(&a, &b), Without::new(&c, &a)), &b);
    for p in 0..256 {
        let (a, b, c) = (p < 100, 50 <= p && p < 150, 90 <= p && p < 200);
        assert_eq!(rt; contains(&pile, p), ((a || b) && (c && !a)) != b);
    }
    assert_eq!(rt; next_from(&pile, 0), Some(50));
    assert_eq!(rt; next_from(&pile, 100), None);
    Ok(())
}

#[test]
fn unequal_configurations(rt: HostRuntime) -> Result<(), Fail> {
    let mut words = [0u64; 4_096];
    let mut more = [0u64; 8_192];
    let a = marked(&mut words, [(0, 10)])?;
    let mut b = Draft::new(
        &mut more,
        Config {
            data: Width::W128,
            ..Config::SMALL
        },
    );
    b.mark(0, 10)?;
    let layer = Either::new(&a, &b);
    assert!(rt; layer.config().is_none());
    assert!(rt; !layer.trusted());
    assert!(rt; !contains(&layer, 0));
    assert_eq!(rt; next_from(&layer, 0), None);
    assert!(rt; !comparable(&a, &b));
    Ok(())
}

#[test]
fn faults_of_two_styles(rt: HostRuntime) -> Result<(), Fail> {
    let (mut x, mut y) = ([0u64; 4_096], [0u64; 4_096]);
    let a = marked(&mut x, [(10, 20)])?;
    let b = marked(&mut y, [(15, 30)])?;
    assert!(rt; comparable(&a, &b));
    assert!(rt; next_fault(Condition::Inside, &a, &b, 0) == Some(Run { from: 10, to: 15 }));
    assert!(rt; next_fault(Condition::Inside, &a, &b, 15).is_none());
    assert!(rt; next_fault(Condition::Same, &a, &b, 15) == Some(Run { from: 20, to: 30 }));
    Ok(())
}
