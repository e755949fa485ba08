// Rows that are papers, and rows that are none with the number and place told.
use crate::making::{number_and_place, too_deep};
use papers::{DEEPEST, Refusal, Why, read, read_front};
use std::process::Abort;
use std::test::Fail;

// Each row is a paper, so deep.
fn are_deep(rt: &impl Abort, rows: &[(&[u64], u64)]) {
    for (row, depth) in rows {
        assert_eq!(rt; read(row).ok(), Some(*depth));
    }
}

// Each row is turned away with this number, at this place.
fn are_refused(rt: &impl Abort, rows: &[(&[u64], u64, u64)]) -> Result<(), Fail> {
    for (row, number, place) in rows {
        let Err(refusal) = read(row) else {
            return Err(Fail::new("the row is a paper"));
        };
        assert_eq!(rt; number_and_place(refusal), (*number, *place));
    }
    Ok(())
}

#[test]
fn shapes(rt: HostRuntime) {
    are_deep(
        &rt,
        &[
            (&[0, 7], 1),
            (&[0, 4294967295], 1),
            (&[1, 0], 1),
            (&[2, 0], 1),
            (&[1, 2, 0, 5, 1, 0], 2),
            (&[2, 2, 1, 0, 5, 4294967295, 1, 1, 2, 0], 3),
            (&[1, 3, 1, 1, 0, 1, 0, 2, 2, 0], 3),
        ],
    );
}

#[test]
fn cut_short(rt: HostRuntime) -> Result<(), Fail> {
    are_refused(
        &rt,
        &[
            (&[], 5, 0),
            (&[0], 5, 1),
            (&[1], 5, 1),
            (&[1, 2, 0, 5], 5, 4),
            (&[2, 1], 5, 2),
            (&[2, 1, 9], 5, 3),
            (&[1, 4294967295, 0, 1], 5, 4),
        ],
    )
}

#[test]
fn damaged(rt: HostRuntime) -> Result<(), Fail> {
    are_refused(
        &rt,
        &[
            (&[3, 0], 5, 0),
            (&[1, 1, 3], 5, 2),
            (&[0, 4294967296], 5, 1),
            (&[1, 4294967296], 5, 1),
            (&[2, 4294967296], 5, 1),
            (&[2, 1, 4294967296, 0, 1], 5, 2),
            (&[2, 2, 3, 0, 1, 3, 0, 1], 5, 5),
            (&[2, 2, 3, 0, 1, 2, 0, 1], 5, 5),
            (&[0, 7, 0], 5, 2),
        ],
    )
}

#[test]
fn depth(rt: HostRuntime) -> Result<(), Fail> {
    let row = too_deep();
    let mut unknown = row;
    unknown[512] = 3;
    are_deep(&rt, &[(&row[2..514], DEEPEST)]);
    // At the level that is too deep a paper begins, or the row ends, or no paper could begin.
    are_refused(
        &rt,
        &[(&row, 6, 512), (&row[0..512], 5, 512), (&unknown, 5, 512)],
    )
}

#[test]
fn fronts(rt: HostRuntime) -> Result<(), Fail> {
    let row = [1, 1, 0, 5, 0, 6];
    let Ok(part) = read_front(&row, 2) else {
        return Err(Fail::new("the front is a paper"));
    };
    assert_eq!(rt; part.value, 2);
    assert_eq!(rt; part.rest.len(), 2);
    let Err(fault) = read_front(&row, 1) else {
        return Err(Fail::new("the front is too deep"));
    };
    assert_eq!(rt; fault.why, Why::Deeper);
    assert_eq!(rt; fault.left, 4);
    Ok(())
}

#[test]
fn numbers_and_places(rt: HostRuntime) {
    let all = [
        Refusal::FirstForm(10),
        Refusal::SecondForm(20),
        Refusal::NoKind(30),
        Refusal::NoRoom(40),
        Refusal::NotPaper(50),
        Refusal::TooDeep(60),
        Refusal::BadNode(70),
    ];
    let mut number = 0u64;
    for refusal in &all {
        assert_eq!(rt; refusal.place(), refusal.number().saturating_mul(10));
        assert!(rt; refusal.number() > number);
        number = refusal.number();
    }
    assert_eq!(rt; number, 7);
}
