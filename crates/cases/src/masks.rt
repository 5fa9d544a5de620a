// Masks at and past their edges.
use bit_block::config::Config;
use bit_block::mask::Mask;

#[test]
fn ranks_and_first_bits(rt: HostRuntime) {
    let m = Mask {
        words: [0b1001, 0, 1 << 63, 0],
    };
    assert_eq!(rt; m.count_ones(), 3);
    assert_eq!(rt; m.rank(0), 0);
    assert_eq!(rt; m.rank(3), 1);
    assert_eq!(rt; m.rank(4), 2);
    assert_eq!(rt; m.rank(191), 2);
    assert_eq!(rt; m.rank(192), 3);
    assert_eq!(rt; m.rank(usize::MAX), 3);
    assert_eq!(rt; m.first_from(1), Some(3));
    assert_eq!(rt; m.first_from(4), Some(191));
    assert_eq!(rt; m.first_from(192), None);
    assert_eq!(rt; m.first_from(usize::MAX), None);
}

#[test]
fn places_past_the_last_bit(rt: HostRuntime) {
    let m = Mask {
        words: [u64::MAX; 4],
    };
    assert!(rt; m.get_bit(255));
    assert!(rt; !m.get_bit(256));
    assert!(rt; !m.get_bit(usize::MAX));
    assert!(rt; Mask::zero().set_bit(256).is_zero());
    assert!(rt; !Mask::zero().set_bit(255).is_zero());
}

#[test]
fn capacities_and_indices(rt: HostRuntime) {
    assert_eq!(rt; Config::SMALL.capacity(), 262_144);
    assert_eq!(rt; Config::BOOK.capacity(), 1_048_576);
    assert_eq!(rt; Config::LARGE.capacity(), 16_777_216);
    assert_eq!(rt; Config::SMALL.level_indices(4_096), (1, 0, 0));
    assert_eq!(rt; Config::BOOK.level_indices(1_048_575), (63, 63, 255));
    assert_eq!(rt; Config::LARGE.level_indices(16_777_215), (255, 255, 255));
}
