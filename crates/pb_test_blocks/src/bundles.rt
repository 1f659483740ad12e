//! Tests of bundles by block: which block is best, and bundles that leave and come back.
ghost use Rattle.std.specs.Prelude.{◌≡◌, IsSome, OnOk};
ghost use Rattle.std.specs.Map.{keys_of};
ghost use Rattle.pb_bundles.specs.Parts.{content_in};

use pb_bundles::{BundleRoom, Homes, KeptRooms, LentBundles};
use pb_model::{Estimate, Key};
use pb_packed::Packed;
use std::alloc::AllocError;
use std::test::Fail;

fn state(number: u8) -> Packed {
    Packed::zero().with_bits(0, 8, u64::from(number))
}

// Offers the start of a search, at a block that is at home. The helpers here have no clauses, so a
// test's proof stays short.
fn offer(homes: &mut Homes, block: u32, number: u8, estimate: Estimate) -> Result<(), AllocError> {
    if homes.is_home(block) {
        homes.offer_start(block, state(number), estimate)?;
    }
    Ok(())
}

// The best of those blocks whose bits are 1.
fn choice(homes: &Homes, blocks: u32) -> Option<u32> {
    homes.first_choice(|block| (blocks >> (block % 32)) & 1 == 1)
}

fn rival(homes: &Homes, block: u32, near: &[u32]) -> Option<u32> {
    homes.rival(block, near)
}

#[test]
fn the_best_block_is_chosen(rt: HostRuntime) -> Result<(), Fail> {
    let mut homes = Homes::new(rt.alloc(), 5, 3, 2)?;
    assert!(rt; !homes.is_any_opened() && choice(&homes, 0b11111) == None);
    offer(&mut homes, 1, 1, Estimate::Dead)?;
    offer(&mut homes, 2, 2, Estimate::Cost(4))?;
    offer(&mut homes, 3, 3, Estimate::Cost(4))?;
    offer(&mut homes, 4, 4, Estimate::Cost(5))?;
    assert!(rt; homes.key(2) == Some(Key::Sum { sum: 12, h: 4 }) && homes.key(0) == None);
    assert!(rt; homes.key(4) == Some(Key::Sum { sum: 15, h: 5 }));
    assert!(rt; homes.is_any_opened());
    for (blocks, wanted) in [
        (0b11111, Some(2)),
        (0b11011, Some(3)),
        (0b00011, Some(1)),
        (0b00001, None),
    ] {
        assert!(rt; choice(&homes, blocks) == wanted);
    }
    assert!(rt; rival(&homes, 4, &[0, 1, 3, 2]) == Some(2));
    assert!(rt; rival(&homes, 2, &[3, 4]) == None);
    Ok(())
}

// Opens a row of a block that is away.
fn open(parts: &mut LentBundles, block: u32, number: u8, h: u64) -> Result<(), AllocError>
    requires { IsSome (content_in parts.old.parts block) }
    ensures { OnOk result (keys_of parts.new.parts ≡ keys_of parts.old.parts) }
{
    parts
        .bundle_mut(block)
        .offer(state(number), 0, Estimate::Cost(h), None, 0)?;
    Ok(())
}

#[test]
fn bundles_leave_home_and_come_back(rt: HostRuntime) -> Result<(), Fail> {
    let mut homes = Homes::new(rt.alloc(), 4, 1, 1)?;
    assert!(rt; homes.bundle(1).len() == 0);
    let room = BundleRoom::new(rt.alloc(), 2)?;
    let mut parts = homes.take_out(&[2, 0], room);
    assert!(rt; homes.is_home(1) && !homes.is_home(2) && !homes.is_home(0) && homes.count() == 4);
    assert!(rt; parts.bundle(2).len() == 0);
    open(&mut parts, 2, 7, 9)?;
    assert!(rt; homes.key(2) == None);
    homes.note(&parts);
    assert!(rt; homes.key(2) == Some(Key::Sum { sum: 9, h: 9 }) && homes.key(0) == None);
    open(&mut parts, 2, 8, 3)?;
    homes.bring_back(parts);
    assert!(rt; homes.is_home(2) && homes.key(2) == Some(Key::Sum { sum: 3, h: 3 }));
    Ok(())
}

#[test]
fn rooms_are_kept(rt: HostRuntime) -> Result<(), Fail> {
    let mut kept = KeptRooms::new(rt.alloc(), 1)?;
    let first = kept.take(rt.alloc(), 3)?;
    let second = kept.take(rt.alloc(), 1)?;
    kept.keep(first);
    kept.keep(second);
    let again = kept.take(rt.alloc(), 3)?;
    kept.keep(again);
    let larger = kept.take(rt.alloc(), 40)?;
    kept.keep(larger);
    Ok(())
}

fn moved<T: Send>(value: T) -> T {
    value
}

fn shared<T: Sync>(value: &T) -> &T {
    value
}

#[test]
fn homes_and_parts_cross_threads(rt: HostRuntime) -> Result<(), Fail> {
    let mut homes = moved(Homes::new(rt.alloc(), 1, 1, 1)?);
    assert!(rt; shared(&homes).count() == 1);
    let room = BundleRoom::new(rt.alloc(), 0)?;
    let _parts: LentBundles = moved(homes.take_out(&[], room));
    Ok(())
}
