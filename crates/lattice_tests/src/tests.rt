use lattice::*;
use readings::*;
use refusal::{Part, Refusal};
use std::process::Abort;
use std::test::Fail;

// The cases are of one shape, each with its own values, and stand apart so that each can be read by itself.

// `reversed` stands in other test crates too. A crate for it would be a library, and each of its public functions would owe a
// contract and a must-fail edit, for three lines.

fn reversed(value: u16) -> Reversed<Level> {
    Reversed {
        inner: Level::new(value),
    }
}

/// Checks that a call was refused as no reading: number 17, place 0, part reading.
fn check_refused<R: Reading + Drop>(rt: &impl Abort, made: Result<R, Refusal>) -> Result<(), Fail> {
    let Err(refusal) = made else {
        return Err(Fail::new("no reading, but accepted"));
    };
    assert_eq!(rt; refusal.number(), 17);
    assert_eq!(rt; refusal.place(), 0);
    assert_eq!(rt; refusal.part(), Part::Reading);
    Ok(())
}

// A type with ghost fields takes no more memory than its number.
#[test]
fn sizes(rt: HostRuntime) {
    assert_eq!(rt; std::mem::size_of::<Presence>(), 1);
    assert_eq!(rt; std::mem::size_of::<Level>(), 2);
    assert_eq!(rt; std::mem::size_of::<Classes>(), 4);
    assert_eq!(rt; std::mem::size_of::<Reversed<Level>>(), 2);
    assert_eq!(rt; std::mem::size_of::<Reversed<Reversed<Classes>>>(), 4);
    assert_eq!(rt; std::mem::size_of::<LevelCut>(), 2);
    assert_eq!(rt; std::mem::size_of::<ClassPick>(), 1);
}

// How many bytes a record of each kind has.
#[test]
fn widths(rt: HostRuntime) {
    assert_eq!(rt; Presence::WIDTH, 1);
    assert_eq!(rt; Level::WIDTH, 2);
    assert_eq!(rt; Classes::WIDTH, 4);
    assert_eq!(rt; Reversed::<Presence>::WIDTH, 1);
    assert_eq!(rt; Reversed::<Reversed<Classes>>::WIDTH, 4);
}

#[test]
fn ends(rt: HostRuntime) {
    assert_eq!(rt; Presence::lowest(), Presence::Absent);
    assert_eq!(rt; Presence::highest(), Presence::Present);
    assert_eq!(rt; Level::lowest().value(), 0);
    assert_eq!(rt; Level::highest().value(), 65535);
    assert_eq!(rt; Classes::lowest().bits(), 0);
    assert_eq!(rt; Classes::highest().bits(), 0xffff_ffff);
    assert_eq!(rt; Reversed::<Level>::lowest(), reversed(65535));
    assert_eq!(rt; Reversed::<Level>::highest(), reversed(0));
}

#[test]
fn joins_and_meets(rt: HostRuntime) {
    assert_eq!(rt; Presence::Absent.join(Presence::Present), Presence::Present);
    assert_eq!(rt; Presence::Absent.meet(Presence::Present), Presence::Absent);
    assert_eq!(rt; Level::new(5).join(Level::new(7)), Level::new(7));
    assert_eq!(rt; Level::new(5).meet(Level::new(7)), Level::new(5));
    assert_eq!(rt; reversed(5).join(reversed(7)), reversed(5));
    assert_eq!(rt; reversed(5).meet(reversed(7)), reversed(7));
    assert_eq!(rt; Classes::from_bits(3).join(Classes::from_bits(6)).bits(), 7);
    assert_eq!(rt; Classes::from_bits(3).meet(Classes::from_bits(6)).bits(), 2);
}

#[test]
fn a_reversal_reversed_is_the_kind(rt: HostRuntime) {
    let five = Reversed { inner: reversed(5) };
    let seven = Reversed { inner: reversed(7) };
    assert_eq!(rt; five.join(seven), seven);
    assert!(rt; five.is_below(seven));
    assert!(rt; five.at_most(seven));
}

#[test]
fn orders(rt: HostRuntime) {
    assert!(rt; Presence::Absent.is_below(Presence::Present));
    assert!(rt; !Presence::Present.is_below(Presence::Absent));
    assert!(rt; Level::new(7).is_below(Level::new(7)));
    assert!(rt; !Level::new(8).is_below(Level::new(7)));
    assert!(rt; reversed(8).is_below(reversed(7)));
    assert!(rt; Classes::from_bits(2).is_below(Classes::from_bits(6)));
    // Neither of these sets is in the other.
    assert!(rt; !Classes::from_bits(3).is_below(Classes::from_bits(6)));
    assert!(rt; !Classes::from_bits(6).is_below(Classes::from_bits(3)));
}

#[test]
fn classes_in_a_set(rt: HostRuntime) {
    let set = Classes::from_bits(0x8000_0005);
    assert!(rt; set.has(0));
    assert!(rt; !set.has(1));
    assert!(rt; set.has(2));
    assert!(rt; set.has(31));
    assert!(rt; !Classes::highest().has(32));
    assert!(rt; !Classes::highest().has(255));
}

#[test]
fn presence_records(rt: HostRuntime) {
    assert_eq!(rt; Presence::record_size(), 1);
    assert_eq!(rt; Presence::decode(&[0]), Some(Presence::Absent));
    assert_eq!(rt; Presence::decode(&[1]), Some(Presence::Present));
    assert_eq!(rt; Presence::decode(&[2]), None);
    assert_eq!(rt; Presence::decode(&[]), None);
    assert_eq!(rt; Presence::decode(&[1, 0]), None);
    let mut bytes = [9];
    assert!(rt; Presence::Present.encode(&mut bytes));
    assert_eq!(rt; bytes, [1]);
}

#[test]
fn level_records(rt: HostRuntime) {
    assert_eq!(rt; Level::record_size(), 2);
    assert_eq!(rt; Level::decode(&[1, 2]), Some(Level::new(513)));
    assert_eq!(rt; Level::decode(&[255, 255]), Some(Level::highest()));
    assert_eq!(rt; Level::decode(&[1]), None);
    assert_eq!(rt; Level::decode(&[1, 2, 3]), None);
    let mut bytes = [9, 9];
    assert!(rt; Level::new(513).encode(&mut bytes));
    assert_eq!(rt; bytes, [1, 2]);
    let mut wrong = [9, 9, 9];
    assert!(rt; !Level::new(513).encode(&mut wrong));
    assert_eq!(rt; wrong, [9, 9, 9]);
}

#[test]
fn class_records(rt: HostRuntime) {
    assert_eq!(rt; Classes::record_size(), 4);
    assert_eq!(rt;
        Classes::decode(&[1, 2, 3, 4]),
        Some(Classes::from_bits(0x0403_0201))
    );
    assert_eq!(rt; Classes::decode(&[1, 2, 3]), None);
    let mut bytes = [0; 4];
    assert!(rt; Classes::from_bits(0x0403_0201).encode(&mut bytes));
    assert_eq!(rt; bytes, [1, 2, 3, 4]);
    let mut wrong = [9; 5];
    assert!(rt; !Classes::highest().encode(&mut wrong));
    assert_eq!(rt; wrong, [9; 5]);
}

#[test]
fn reversed_records(rt: HostRuntime) {
    assert_eq!(rt; Reversed::<Level>::record_size(), 2);
    assert_eq!(rt; Reversed::<Level>::decode(&[1, 2]), Some(reversed(513)));
    assert_eq!(rt; Reversed::<Level>::decode(&[1]), None);
    let mut bytes = [9, 9];
    assert!(rt; reversed(513).encode(&mut bytes));
    assert_eq!(rt; bytes, [1, 2]);
}

#[test]
fn level_cuts(rt: HostRuntime) -> Result<(), Fail> {
    check_refused(&rt, LevelCut::new(Level::new(0)))?;
    let cut = LevelCut::new(Level::new(5))?;
    assert_eq!(rt; cut.threshold(), Level::new(5));
    assert_eq!(rt; cut.read(Level::new(5)), Presence::Present);
    assert_eq!(rt; cut.read(Level::new(4)), Presence::Absent);
    assert_eq!(rt; read_lowest(&cut), Presence::Absent);
    assert_eq!(rt; read_highest(&cut), Presence::Present);
    assert_eq!(rt;
        read_join(&cut, Level::new(4), Level::new(6)),
        Presence::Present
    );
    assert_eq!(rt;
        read_meet(&cut, Level::new(4), Level::new(6)),
        Presence::Absent
    );
    assert!(rt; LevelCut::new(Level::new(1)).is_ok());
    assert!(rt; LevelCut::new(Level::new(65535)).is_ok());
    Ok(())
}

#[test]
fn reversed_level_cuts(rt: HostRuntime) -> Result<(), Fail> {
    check_refused(&rt, ReversedLevelCut::new(reversed(65535)))?;
    let cut = ReversedLevelCut::new(reversed(5))?;
    assert_eq!(rt; cut.threshold(), reversed(5));
    assert_eq!(rt; cut.read(reversed(5)), Presence::Present);
    assert_eq!(rt; cut.read(reversed(4)), Presence::Present);
    assert_eq!(rt; cut.read(reversed(6)), Presence::Absent);
    assert!(rt; ReversedLevelCut::new(reversed(0)).is_ok());
    Ok(())
}

#[test]
fn presence_cuts(rt: HostRuntime) -> Result<(), Fail> {
    check_refused(&rt, PresenceCut::new(Presence::Absent))?;
    let cut = PresenceCut::new(Presence::Present)?;
    assert_eq!(rt; cut.threshold(), Presence::Present);
    assert_eq!(rt; cut.read(Presence::Present), Presence::Present);
    assert_eq!(rt; cut.read(Presence::Absent), Presence::Absent);
    Ok(())
}

#[test]
fn class_picks(rt: HostRuntime) -> Result<(), Fail> {
    check_refused(&rt, ClassPick::new(32))?;
    assert!(rt; ClassPick::new(255).is_err());
    let pick = ClassPick::new(31)?;
    assert_eq!(rt; pick.class(), 31);
    assert_eq!(rt;
        pick.read(Classes::from_bits(0x8000_0000)),
        Presence::Present
    );
    assert_eq!(rt;
        pick.read(Classes::from_bits(0x7fff_ffff)),
        Presence::Absent
    );
    Ok(())
}
