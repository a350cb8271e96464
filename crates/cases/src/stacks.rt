// Devices in stacks, at the ends of chips, pairs and segments: what each place tells, and what a power loss leaves.
use device::Device;
use guard::{Guard, SegmentSize};
use pair::Pair;
use ram::{BackedRam, Ram};
use rom::{Empty, Rom};
use std::test::Fail;
use terms::{Fault, Place, Refusal};

fn place(index: u32) -> Result<Place, Fault> {
    Place::try_from(index)
}

#[test]
fn a_guard_over_a_pair_of_a_guard_and_a_rom(rt: HostRuntime) -> Result<(), Fail> {
    let mut ram = [10, 11, 12];
    let rom = [20, 21];
    let guarded = Guard::new(Ram::new(&mut ram), SegmentSize::Places2048);
    let pair = Pair::new(guarded, Rom::new(&rom));
    let mut stack = Guard::new(pair, SegmentSize::Places4096);
    assert_eq!(rt; stack.size(), 4, "twice the shorter");
    assert_eq!(rt; stack.write(place(2)?, 99), Ok(()));
    assert_eq!(rt; stack.read(place(2)?), Ok(99));
    assert_eq!(rt; stack.write(place(3)?, 99), Err(Fault::WriteProtected));
    assert_eq!(rt; stack.read(place(3)?), Ok(21));
    assert_eq!(rt; stack.write(place(4)?, 99), Err(Fault::NoSuchPlace));
    assert_eq!(rt; stack.read(place(4)?), Err(Fault::NoSuchPlace));
    assert!(rt; stack.protect(0).is_ok());
    assert!(rt; !stack.is_open(place(2)?));
    assert_eq!(rt; stack.write(place(2)?, 1), Err(Fault::WriteProtected));
    assert_eq!(rt;
        stack.write(place(4)?, 1),
        Err(Fault::NoSuchPlace),
        "beyond the end comes first"
    );
    Ok(())
}

#[test]
fn sizes_none_and_one(rt: HostRuntime) -> Result<(), Fail> {
    let one = [5];
    let none = Pair::new(Rom::new(&one), Empty);
    assert_eq!(rt; none.size(), 0);
    assert_eq!(rt; none.read(place(0)?), Err(Fault::NoSuchPlace));
    let both = Pair::new(Rom::new(&one), Rom::new(&one));
    assert_eq!(rt; both.size(), 2);
    assert_eq!(rt; both.read(place(1)?), Ok(5));
    Ok(())
}

#[test]
fn a_segment_ends_at_its_last_place(rt: HostRuntime) -> Result<(), Fail> {
    let mut bytes = [0; 4096];
    let mut guard = Guard::new(Ram::new(&mut bytes), SegmentSize::Places2048);
    assert!(rt; guard.protect(0).is_ok());
    assert_eq!(rt; guard.write(place(2047)?, 1), Err(Fault::WriteProtected));
    assert_eq!(rt; guard.write(place(2048)?, 1), Ok(()));
    Ok(())
}

#[test]
fn a_flag_number_may_be_too_large(rt: HostRuntime) {
    let mut guard = Guard::new(Empty, SegmentSize::Places4096);
    assert_eq!(rt; guard.protect(255), Ok(()));
    assert_eq!(rt; guard.protect(256), Err(Refusal::IndexTooLarge));
}

#[test]
fn an_image_stays_within_the_end(rt: HostRuntime) {
    let mut bytes = [0; 4];
    let mut ram = Ram::new(&mut bytes);
    assert_eq!(rt; ram.load(1, &[7, 8, 9]), Ok(()));
    assert_eq!(rt; ram.load(2, &[1, 1, 1]), Err(Fault::NoSuchPlace));
    assert_eq!(rt; ram.load(4, &[]), Ok(()), "empty, at the end");
    assert_eq!(rt; ram.load(5, &[]), Err(Fault::NoSuchPlace));
    assert!(rt; matches!(ram.into_bytes(), [0, 7, 8, 9]));
}

#[test]
fn a_power_loss_reaches_volatile_places_only(rt: HostRuntime) -> Result<(), Fail> {
    let mut lost = [1, 2];
    let mut kept = [3, 4];
    let mut pair = Pair::new(Ram::new(&mut lost), BackedRam::new(&mut kept));
    pair.lose_power();
    assert_eq!(rt; pair.read(place(2)?), Ok(0xFF));
    assert_eq!(rt; pair.read(place(3)?), Ok(4));
    Ok(())
}

#[test]
fn a_pair_of_chips_of_one_byte_ends_at_its_second_place(rt: HostRuntime) -> Result<(), Fail> {
    let one = [5];
    let both = Pair::new(Rom::new(&one), Rom::new(&one));
    assert_eq!(rt; both.read(place(2)?), Err(Fault::NoSuchPlace));
    Ok(())
}

#[test]
fn a_flag_closes_a_place_and_leaves_its_byte(rt: HostRuntime) -> Result<(), Fail> {
    let mut ram = [10, 11, 12];
    let rom = [20, 21];
    let guarded = Guard::new(Ram::new(&mut ram), SegmentSize::Places2048);
    let pair = Pair::new(guarded, Rom::new(&rom));
    let mut stack = Guard::new(pair, SegmentSize::Places4096);
    assert_eq!(rt; stack.write(place(2)?, 99), Ok(()));
    assert!(rt; stack.is_open(place(2)?));
    assert!(rt; stack.protect(0).is_ok());
    assert_eq!(rt; stack.write(place(2)?, 1), Err(Fault::WriteProtected));
    assert_eq!(rt; stack.read(place(2)?), Ok(99));
    Ok(())
}
