// Forms at the bounds, each way in which a row is none, and the order of the refusals.
use crate::making::{TOP, number_and_place};
use forms::{FormView, Place, Room, Side, Way, kinds_of, one_form, side_of, two_forms};
use papers::Refusal;
use std::test::Fail;

// Four kinds; the first may be a number, a list or a record of four places, each at its bounds.
const FULL: [(usize, u64); 15] = [
    (0, 4),
    (1, 3),
    (3, TOP),
    (4, TOP),
    (18, 1),
    (19, 3),
    (20, 16),
    (21, 16),
    (34, 2),
    (35, 4),
    (41, 1),
    (44, 2),
    (47, TOP),
    (48, 3),
    (49, 1),
];

// Rows that are no form, with the place to tell.
const NONE: [([(usize, u64); 4], u64); 14] = [
    // the count of kinds
    ([(0, 0), (0, 0), (0, 0), (0, 0)], 4),
    ([(0, 5), (0, 5), (0, 5), (0, 5)], 4),
    // the count of ways, and the tag
    ([(0, 1), (0, 1), (0, 1), (1, 4)], 0),
    ([(0, 2), (0, 2), (50, 1), (51, 3)], 1),
    // a number's ends
    ([(0, 1), (1, 1), (2, 0), (3, TOP + 1)], 0),
    ([(0, 1), (1, 1), (2, 0), (4, TOP + 1)], 0),
    // a list's kind and lengths
    ([(0, 1), (1, 1), (2, 1), (3, 1)], 0),
    ([(0, 1), (1, 1), (2, 1), (4, 17)], 0),
    ([(0, 1), (1, 1), (2, 1), (5, 17)], 0),
    // the count of places, and a place's name, kind and mark
    ([(1, 1), (2, 2), (3, 5), (3, 5)], 0),
    ([(1, 1), (2, 2), (3, 1), (6, TOP + 1)], 0),
    ([(1, 1), (2, 2), (3, 1), (7, 1)], 0),
    ([(1, 1), (2, 2), (3, 1), (8, 2)], 0),
    // two places of one name
    ([(0, 1), (1, 1), (2, 2), (3, 2)], 0),
];

// A plain row with numbers at places. Kind 0 begins at 1, its ways at 2, 18 and 34, and kind 1 at 50.
fn row_with(numbers: &[(usize, u64)]) -> [u64; 197] {
    let mut row = [0; 197];
    row[0] = 1;
    for (place, number) in numbers {
        if *place < 197 {
            row[*place] = *number;
        }
    }
    row
}

// The number and the place of the refusal, if there is one.
fn refusal<T: Drop>(answer: Result<T, Refusal>) -> Option<(u64, u64)> {
    answer.err().map(number_and_place)
}

fn refusal_of_one(row: &[u64], k: u64) -> Option<(u64, u64)> {
    refusal(one_form(row, Room::Plain, k))
}

#[test]
fn reads_a_form_at_every_bound(rt: HostRuntime) -> Result<(), Fail> {
    let row = row_with(&FULL);
    let Some(kinds) = kinds_of(&row, Room::Plain) else {
        return Err(Fail::new("no form"));
    };
    let Ok(form) = FormView::of(&row, Room::Plain) else {
        return Err(Fail::new("no form"));
    };
    assert_eq!(rt; kinds, 4);
    assert!(rt; form.kinds() == 4);
    assert!(rt; form.ways(0) == 3);
    assert_eq!(rt; form.way(0, 0).read(), Way::Number { from: TOP, to: TOP });
    assert_eq!(rt;
        form.way(0, 1).read(),
        Way::List {
            kind: 3,
            least: 16,
            most: 16
        }
    );
    let record = form.way(0, 2);
    assert_eq!(rt; record.read(), Way::Record { places: 4 });
    let last = Place {
        name: TOP,
        kind: 3,
        must: true,
    };
    assert_eq!(rt; record.place(3), last);
    assert_eq!(rt; form.place(0, 2, 3), last);
    Ok(())
}

#[test]
fn tells_the_place_at_fault(rt: HostRuntime) {
    for (numbers, place) in &NONE {
        assert_eq!(rt; refusal_of_one(&row_with(numbers), 0), Some((1, *place)));
    }
    assert_eq!(rt; refusal_of_one(&row_with(&FULL)[0..196], 0), Some((1, 4)));
    assert_eq!(rt; refusal_of_one(&row_with(&FULL), 4), Some((3, 4)));
}

#[test]
fn looks_at_nothing_that_is_not_used(rt: HostRuntime) {
    assert_eq!(rt;
        refusal_of_one(&row_with(&[(2, 9), (50, 9), (196, 9)]), 0),
        None
    );
    let mut long = [0; 200];
    long[0] = 1;
    long[197] = 9;
    assert_eq!(rt; refusal_of_one(&long, 0), None);
}

#[test]
fn refuses_in_order(rt: HostRuntime) {
    let form = row_with(&[(0, 2)]);
    let none = row_with(&[(0, 2), (50, 4)]);
    assert_eq!(rt; refusal(two_forms(&form, &form, 1, 1)), None);
    assert_eq!(rt; refusal(two_forms(&none, &none, 7, 9)), Some((1, 1)));
    assert_eq!(rt; refusal(two_forms(&form, &none, 7, 9)), Some((2, 1)));
    assert_eq!(rt; refusal(two_forms(&form, &form, 7, 9)), Some((3, 7)));
    assert_eq!(rt; refusal(two_forms(&form, &form, 1, 9)), Some((3, 9)));
}

// A refusal of two forms speaks of the second: 2 always, 3 where the first has its kind.
#[test]
fn tells_the_form_at_fault(rt: HostRuntime) -> Result<(), Fail> {
    let form = row_with(&[(0, 2)]);
    for (k, j, side) in [
        (7, 9, Side::First),
        (1, 9, Side::Second),
        (9, 1, Side::First),
    ] {
        let Err(refusal) = two_forms(&form, &form, k, j) else {
            return Err(Fail::new("nothing is refused"));
        };
        assert_eq!(rt; side_of(&form, k, refusal), side);
    }
    Ok(())
}
