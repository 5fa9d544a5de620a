// Writing a set as an image, its bytes whole, empty sets and refusals; and loading one again, with each refusal.
use crate::set_ups::{marked_four, packed};
use bit_block::config::Config;
use draft::{Draft, words_needed};
use immutable_bitset::Blank;
use immutable_bitset::error::{FillError, SerializeError};
use packing::most_words;
use reader::fault::ReadFault;
use reader::{Device, Limit, Reader};
use serialization::error::{AccessError, Rule};
use serialization::layout::Offsets;
use std::alloc::Global;
use std::test::Fail;

// The image of 3, 64, 70 and 4,096 in a small set.
const FOUR: [u8; 72] = [
    3, 0, 2, 0, 3, 0, 0, 0, // version, n, d
    3, 0, 0, 0, 0, 0, 0, 0, // the level-0 mask
    0, 0, 0, 0, 0, 0, 0, 0, // its starts
    3, 0, 0, 0, 0, 0, 0, 0, // the level-1 mask of row 0
    1, 0, 0, 0, 0, 0, 0, 0, // and of row 1
    0, 0, 2, 0, 0, 0, 0, 0, // their starts, and padding
    8, 0, 0, 0, 0, 0, 0, 0, // the block of 3
    65, 0, 0, 0, 0, 0, 0, 0, // of 64 and 70
    1, 0, 0, 0, 0, 0, 0, 0, // and of 4,096
];

#[test]
fn the_image_of_four_positions(rt: HostRuntime) -> Result<(), Fail> {
    let mut marks = [0u64; 4_096];
    let d = marked_four(&mut marks)?;
    let mut words = [0u64; 6];
    let set = packed(&mut words, &d)?;
    let mut image = [9u8; 72];
    assert_eq!(rt; set.serialize(&mut image), Ok(72));
    assert_eq!(rt; image, FOUR);
    Ok(())
}

#[test]
fn bytes_behind_an_image_stay(rt: HostRuntime) -> Result<(), Fail> {
    let mut marks = [0u64; 4_096];
    let d = marked_four(&mut marks)?;
    let mut words = [0u64; 6];
    let set = packed(&mut words, &d)?;
    let mut buffer = [9u8; 74];
    assert_eq!(rt; set.serialize(&mut buffer), Ok(72));
    assert!(rt; &buffer[..72] == FOUR.as_slice());
    assert_eq!(rt; [buffer[72], buffer[73]], [9, 9]);
    Ok(())
}

#[test]
fn one_byte_too_few(rt: HostRuntime) -> Result<(), Fail> {
    let mut marks = [0u64; 4_096];
    let d = marked_four(&mut marks)?;
    let mut words = [0u64; 6];
    let set = packed(&mut words, &d)?;
    let mut buffer = [9u8; 71];
    assert_eq!(rt; set.serialize(&mut buffer), Err(SerializeError::NoRoom));
    assert_eq!(rt; buffer, [9; 71]);
    Ok(())
}

#[test]
fn a_void_set_has_no_image(rt: HostRuntime) {
    let mut none = [0u64; 0];
    let set = Blank::new(&mut none).finish();
    let mut buffer = [9u8; 24];
    assert_eq!(rt; set.serialize(&mut buffer), Err(SerializeError::Void));
    assert_eq!(rt; buffer, [9; 24]);
    assert_eq!(rt; set.serialize(&mut buffer[..0]), Err(SerializeError::Void));
}

// Writes the image of an empty set of a configuration, and answers its length.
fn empty_image(heap: Global, config: Config, buffer: &mut [u8]) -> Result<usize, Fail> {
    let mut marks = vec![in heap; 0u64; words_needed(config)]?;
    let empty = Draft::new(marks.as_mut_slice(), config);
    let mut none = [0u64; 0];
    let set = packed(&mut none, &empty)?;
    Ok(set.serialize(buffer)?)
}

#[test]
fn empty_images(rt: HostRuntime) -> Result<(), Fail> {
    let (mut small, mut book, mut large) = ([9u8; 24], [9u8; 32], [9u8; 96]);
    assert_eq!(rt; empty_image(rt.alloc(), Config::SMALL, &mut small)?, 24);
    assert_eq!(rt; empty_image(rt.alloc(), Config::BOOK, &mut book)?, 32);
    assert_eq!(rt; empty_image(rt.alloc(), Config::LARGE, &mut large)?, 96);
    // the version, and nothing else
    assert_eq!(rt; [small[0], book[0], large[0]], [3; 3]);
    assert!(rt; small[1..].iter().all(|byte| *byte == 0));
    assert!(rt; book[1..].iter().all(|byte| *byte == 0));
    assert!(rt; large[1..].iter().all(|byte| *byte == 0));
    Ok(())
}

#[test]
fn lengths_of_images(rt: HostRuntime) {
    assert_eq!(rt; Offsets::new(Config::SMALL, 2, 3).len, 72);
    assert_eq!(rt; Offsets::new(Config::SMALL, 0, 0).len, 24);
    assert_eq!(rt; Offsets::new(Config::BOOK, 0, 0).len, 32);
    assert_eq!(rt; Offsets::new(Config::LARGE, 0, 0).len, 96);
}

// What loading a small set from a reader into six words answers.
fn loaded<R: Reader>(reader: &mut R) -> Result<(), FillError> {
    let mut words = [0u64; 6];
    Blank::new(&mut words).deserialize(Config::SMALL, reader)
}

// The bytes are refused so: those left, and why.
fn refusal(bytes: &[u8]) -> (usize, Result<(), FillError>) {
    let mut reader = bytes;
    let result = loaded(&mut reader);
    (reader.len(), result)
}

// The image of four positions with one byte changed.
fn changed(at: usize, byte: u8) -> [u8; 72] {
    let mut image = FOUR;
    if let Some(changed) = image.get_mut(at) {
        *changed = byte;
    }
    image
}

// A rule is broken first at a place.
fn broken(rule: Rule, place: usize) -> Result<(), FillError> {
    Err(FillError::Access(AccessError::Broken(rule, place)))
}

// The reader refused with a fault.
fn faulted(fault: ReadFault) -> Result<(), FillError> {
    Err(FillError::Access(AccessError::IOError(fault)))
}

#[test]
fn four_positions_loaded_again(rt: HostRuntime) -> Result<(), Fail> {
    let mut marks = [0u64; 4_096];
    let d = marked_four(&mut marks)?;
    let mut packed_words = [0u64; 6];
    let _ = packed(&mut packed_words, &d)?.n();
    let mut words = [0u64; 6];
    let mut blank = Blank::new(&mut words);
    let mut reader = FOUR.as_slice();
    blank.deserialize(Config::SMALL, &mut reader)?;
    assert_eq!(rt; reader.len(), 0);
    let set = blank.finish();
    assert_eq!(rt; (set.n(), set.d()), (2, 3));
    let mut image = [9u8; 72];
    assert_eq!(rt; set.serialize(&mut image), Ok(72));
    assert_eq!(rt; image, FOUR);
    assert_eq!(rt; words, packed_words);
    Ok(())
}

#[test]
fn bytes_behind_an_image_are_left(rt: HostRuntime) {
    let mut bytes = [7u8; 75];
    bytes[..72].copy_from_slice(&FOUR);
    assert_eq!(rt; refusal(&bytes), (3, Ok(())));
}

#[test]
fn another_version(rt: HostRuntime) {
    assert_eq!(rt;
        refusal(&[4, 0, 5]),
        (1, Err(FillError::Access(AccessError::FormatMismatch(4))))
    );
}

#[test]
fn too_few_words(rt: HostRuntime) {
    let mut words = [0u64; 5];
    let mut reader = FOUR.as_slice();
    assert_eq!(rt;
        Blank::new(&mut words).deserialize(Config::SMALL, &mut reader),
        Err(FillError::NoMemory(6))
    );
    assert_eq!(rt; reader.len(), 64);
}

// The places where a field of the image of four positions ends.
const ENDS: [usize; 22] = [
    0, 2, 4, 8, 16, 17, 18, 19, 20, 21, 22, 23, 24, 32, 40, 42, 44, 48, 56, 64, 72, 72,
];

#[test]
fn cut_at_every_length(rt: HostRuntime) {
    for length in 0..72 {
        let whole = ENDS.iter().filter(|end| **end <= length).max().copied();
        let left = length - whole.unwrap_or(0);
        assert_eq!(rt; refusal(&FOUR[..length]), (left, faulted(ReadFault::Short)));
    }
}

#[test]
fn a_limit_at_the_edge_of_a_field(rt: HostRuntime) {
    let mut rest = FOUR.as_slice();
    assert_eq!(rt;
        loaded(&mut Limit::new(&mut rest, 16)),
        faulted(ReadFault::Short)
    );
    assert_eq!(rt; rest.len(), 56);
    let mut rest = FOUR.as_slice();
    assert_eq!(rt; loaded(&mut Limit::new(&mut rest, 72)), Ok(()));
    assert_eq!(rt; rest.len(), 0);
}

#[test]
fn a_device_at_the_edge_of_a_field(rt: HostRuntime) {
    let mut device = Device::new(&FOUR[..16], 7);
    assert_eq!(rt; loaded(&mut device), faulted(ReadFault::Device(7)));
    assert_eq!(rt; device.rest().len(), 0);
    let mut device = Device::new(&FOUR, 7);
    assert_eq!(rt; loaded(&mut device), Ok(()));
}

#[test]
fn each_rule_broken(rt: HostRuntime) {
    // a third row in the level-0 mask
    assert_eq!(rt; refusal(&changed(8, 7)).1, broken(Rule::Level1Count, 0));
    assert_eq!(rt; refusal(&changed(16, 1)).1, broken(Rule::Level0Start, 0));
    assert_eq!(rt; refusal(&changed(32, 0)).1, broken(Rule::Level1Mask, 1));
    assert_eq!(rt; refusal(&changed(42, 1)).1, broken(Rule::Level1Start, 1));
    // a third block in row 0, whose next start is then another
    assert_eq!(rt; refusal(&changed(32, 3)).1, broken(Rule::DataCount, 0));
    assert_eq!(rt; refusal(&changed(64, 0)).1, broken(Rule::DataBlock, 2));
}
