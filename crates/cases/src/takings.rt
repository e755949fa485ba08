// Which papers a form takes: every way at its bounds, kinds of several ways, kinds that hold themselves, and the order of
// the refusals. A way is `0 from to`, `1 kind least most`, or `2 count 0 0` and its places: name, kind, 1 if it must be
// filled.
use crate::making::{TOP, lay, number_and_place, plain, too_deep};
use forms::Room;
use std::process::Abort;
use taking::{Taking, take, take_in};

// Whether a paper is taken, or the number and the place of the refusal: by hand, since the words of the tables below are these.
fn told(taking: Taking) -> Result<bool, (u64, u64)> {
    match taking {
        Taking::Taken => Ok(true),
        Taking::NotTaken => Ok(false),
        Taking::Refused(refusal) => Err(number_and_place(refusal)),
    }
}

// Whether a plain form of these kinds takes each paper as a kind.
fn are_taken(rt: &impl Abort, kinds: &[&[&[u64]]], papers: &[(&[u64], u64, bool)]) {
    let form = plain(kinds);
    for (row, kind, taken) in papers {
        assert_eq!(rt; told(take(&form, row, *kind)), Ok(*taken));
    }
}

// Each paper, asked about as a kind, is refused with this number, at this place. (Not one function with the one above: a row of a table
// says no more than what is expected of it.)
fn are_refused(rt: &impl Abort, kinds: &[&[&[u64]]], papers: &[(&[u64], u64, u64, u64)]) {
    let form = plain(kinds);
    for (row, kind, number, place) in papers {
        assert_eq!(rt; told(take(&form, row, *kind)), Err((*number, *place)));
    }
}

// A list of up to 17 zeros; its row is as long as that of 17.
fn zeros(count: u64) -> [u64; 36] {
    let mut row = [0; 36];
    row[0] = 1;
    row[1] = count;
    row
}

// The list of the numbers 0 to 9.
const ZERO_TO_NINE: [u64; 22] = [
    1, 10, 0, 0, 0, 1, 0, 2, 0, 3, 0, 4, 0, 5, 0, 6, 0, 7, 0, 8, 0, 9,
];

#[test]
fn numbers(rt: HostRuntime) {
    are_taken(
        &rt,
        &[&[&[0, 5, 9]], &[&[0, 9, 5]], &[&[0, 7, 7]], &[&[0, 0, TOP]]],
        &[
            (&[0, 4], 0, false),
            (&[0, 5], 0, true),
            (&[0, 9], 0, true),
            (&[0, 10], 0, false),
            // a list and a record are no number, nor is a list of one
            (&[1, 0], 0, false),
            (&[2, 0], 0, false),
            (&[1, 1, 0, 5], 0, false),
            // no number is at least 9 and at most 5
            (&[0, 4], 1, false),
            (&[0, 5], 1, false),
            (&[0, 7], 1, false),
            (&[0, 9], 1, false),
            (&[0, 10], 1, false),
            (&[0, 6], 2, false),
            (&[0, 7], 2, true),
            (&[0, 8], 2, false),
            (&[0, 0], 3, true),
            (&[0, TOP], 3, true),
        ],
    );
}

#[test]
fn lists(rt: HostRuntime) {
    are_taken(
        &rt,
        &[
            &[&[0, 0, 9]],
            &[&[1, 0, 2, 3]],
            &[&[1, 0, 3, 2]],
            &[&[1, 0, 0, 16]],
        ],
        &[
            (&[1, 0], 1, false),
            (&[1, 1, 0, 9], 1, false),
            (&[1, 2, 0, 9, 0, 9], 1, true),
            (&[1, 3, 0, 9, 0, 9, 0, 9], 1, true),
            (&[1, 4, 0, 9, 0, 9, 0, 9, 0, 9], 1, false),
            // every paper in it has to be of the kind
            (&[1, 3, 0, 10, 0, 9, 0, 9], 1, false),
            (&[1, 3, 0, 9, 0, 10, 0, 9], 1, false),
            (&[1, 3, 0, 9, 0, 9, 0, 10], 1, false),
            // no list has at least 3 and at most 2
            (&[1, 0], 2, false),
            (&[1, 2, 0, 9, 0, 9], 2, false),
            (&[1, 3, 0, 9, 0, 9, 0, 9], 2, false),
            (&[1, 0], 3, true),
            (&[1, 1, 0, 10], 3, false),
            (&zeros(16)[0..34], 3, true),
            (&zeros(17), 3, false),
            // a number and a record are no list
            (&[0, 9], 3, false),
            (&[2, 0], 3, false),
        ],
    );
}

// Kind 3 has the places 2 and 6, which must be filled, and 4 and 8, which may.
#[test]
fn records(rt: HostRuntime) {
    are_taken(
        &rt,
        &[
            &[&[0, 0, 9]],
            &[&[2, 0]],
            &[&[2, 2, 0, 0, 3, 0, 0, 5, 1, 0]],
            &[&[2, 4, 0, 0, 2, 0, 1, 4, 1, 0, 6, 0, 1, 8, 2, 0]],
        ],
        &[
            // {}
            (&[2, 0], 0, false),
            (&[2, 0], 1, true),
            (&[2, 0], 2, true),
            (&[2, 0], 3, false),
            // a number and a list are no record
            (&[0, 0], 1, false),
            (&[1, 0], 1, false),
            // {0: 0}, where there is no place
            (&[2, 1, 0, 0, 0], 1, false),
            // {3: 9}, {5: {}}, {3: 9, 5: {}}
            (&[2, 1, 3, 0, 9], 2, true),
            (&[2, 1, 5, 2, 0], 2, true),
            (&[2, 2, 3, 0, 9, 5, 2, 0], 2, true),
            // {3: 10}, {3: {}}, {5: 9}, {3: 9, 5: 9}
            (&[2, 1, 3, 0, 10], 2, false),
            (&[2, 1, 3, 2, 0], 2, false),
            (&[2, 1, 5, 0, 9], 2, false),
            (&[2, 2, 3, 0, 9, 5, 0, 9], 2, false),
            // {2: 9}, {4: 9}, {6: 9}, {3: 9, 4: {}, 5: {}}
            (&[2, 1, 2, 0, 9], 2, false),
            (&[2, 1, 4, 0, 9], 2, false),
            (&[2, 1, 6, 0, 9], 2, false),
            (&[2, 3, 3, 0, 9, 4, 2, 0, 5, 2, 0], 2, false),
            // {2: 0, 6: 0}, and with 4: {}, with 8: {3: 1}, with both
            (&[2, 2, 2, 0, 0, 6, 0, 0], 3, true),
            (&[2, 3, 2, 0, 0, 4, 2, 0, 6, 0, 0], 3, true),
            (&[2, 3, 2, 0, 0, 6, 0, 0, 8, 2, 1, 3, 0, 1], 3, true),
            (&[2, 4, 2, 0, 0, 4, 2, 0, 6, 0, 0, 8, 2, 0], 3, true),
            // left out: 2; 6; 2 with 4 filled; 6 with 4 filled; 6 with 8 filled
            (&[2, 1, 6, 0, 0], 3, false),
            (&[2, 1, 2, 0, 0], 3, false),
            (&[2, 2, 4, 2, 0, 6, 0, 0], 3, false),
            (&[2, 2, 2, 0, 0, 4, 2, 0], 3, false),
            (&[2, 2, 2, 0, 0, 8, 2, 0], 3, false),
            // {2: 0, 6: 0} and one name more: 1, 3, 5, 7, 9
            (&[2, 3, 1, 0, 0, 2, 0, 0, 6, 0, 0], 3, false),
            (&[2, 3, 2, 0, 0, 3, 0, 0, 6, 0, 0], 3, false),
            (&[2, 3, 2, 0, 0, 5, 0, 0, 6, 0, 0], 3, false),
            (&[2, 3, 2, 0, 0, 6, 0, 0, 7, 0, 0], 3, false),
            (&[2, 3, 2, 0, 0, 6, 0, 0, 9, 0, 0], 3, false),
            // of a wrong kind: 2; 4; 6; 8; what is in 8
            (&[2, 2, 2, 2, 0, 6, 0, 0], 3, false),
            (&[2, 3, 2, 0, 0, 4, 0, 0, 6, 0, 0], 3, false),
            (&[2, 2, 2, 0, 0, 6, 2, 0], 3, false),
            (&[2, 3, 2, 0, 0, 6, 0, 0, 8, 0, 0], 3, false),
            (&[2, 3, 2, 0, 0, 6, 0, 0, 8, 2, 1, 3, 0, 10], 3, false),
        ],
    );
}

// One way has to take all fields of a record. Kind 1 is 0 to 4, kind 2 is 5 to 9.
#[test]
fn records_of_two_ways(rt: HostRuntime) {
    are_taken(
        &rt,
        &[
            &[
                &[2, 2, 0, 0, 1, 1, 1, 2, 1, 1],
                &[2, 2, 0, 0, 1, 2, 1, 2, 2, 1],
            ],
            &[&[0, 0, 4]],
            &[&[0, 5, 9]],
            &[
                &[2, 2, 0, 0, 1, 1, 1, 2, 2, 0],
                &[2, 3, 0, 0, 1, 2, 1, 2, 1, 1, 3, 1, 0],
            ],
        ],
        &[
            // both fields of kind 1, or both of kind 2: the first way alone, the second alone
            (&[2, 2, 1, 0, 0, 2, 0, 4], 0, true),
            (&[2, 2, 1, 0, 5, 2, 0, 9], 0, true),
            // each field is taken by one of the ways, but not by the same
            (&[2, 2, 1, 0, 0, 2, 0, 5], 0, false),
            (&[2, 2, 1, 0, 5, 2, 0, 0], 0, false),
            // a field is left out
            (&[2, 1, 1, 0, 0], 0, false),
            (&[2, 1, 2, 0, 5], 0, false),
            // the first way of kind 3 alone: {1: 0}, {1: 0, 2: 5}
            (&[2, 1, 1, 0, 0], 3, true),
            (&[2, 2, 1, 0, 0, 2, 0, 5], 3, true),
            // the second alone: {1: 5, 2: 0}, and with 3: 0
            (&[2, 2, 1, 0, 5, 2, 0, 0], 3, true),
            (&[2, 3, 1, 0, 5, 2, 0, 0, 3, 0, 0], 3, true),
            // what only the second asks for, and what only the second has
            (&[2, 1, 1, 0, 5], 3, false),
            (&[2, 3, 1, 0, 0, 2, 0, 5, 3, 0, 0], 3, false),
            // again taken one by one: {1: 0, 2: 0}, {1: 5, 2: 5}
            (&[2, 2, 1, 0, 0, 2, 0, 0], 3, false),
            (&[2, 2, 1, 0, 5, 2, 0, 5], 3, false),
        ],
    );
}

// One way has to take all papers of a list: kind 2 is a list of kind 0 or one of kind 1, kind 3 holds numbers of both.
#[test]
fn lists_of_two_ways(rt: HostRuntime) {
    are_taken(
        &rt,
        &[
            &[&[0, 0, 4]],
            &[&[0, 5, 9]],
            &[&[1, 0, 0, 16], &[1, 1, 0, 16]],
            &[&[0, 0, 4], &[0, 5, 9], &[1, 3, 0, 16]],
        ],
        &[
            (&[1, 0], 2, true),
            (&[1, 5, 0, 0, 0, 1, 0, 2, 0, 3, 0, 4], 2, true),
            (&[1, 5, 0, 5, 0, 6, 0, 7, 0, 8, 0, 9], 2, true),
            (&ZERO_TO_NINE, 2, false),
            (&ZERO_TO_NINE, 3, true),
            (&[1, 2, 0, 4, 0, 5], 2, false),
            (&[1, 2, 0, 5, 0, 4], 2, false),
            (&[1, 3, 0, 4, 0, 5, 0, 10], 3, false),
            // [[0], [5]], [[0, 5]], [[0], [10]]
            (&[1, 2, 1, 1, 0, 0, 1, 1, 0, 5], 3, true),
            (&[1, 1, 1, 2, 0, 0, 0, 5], 3, true),
            (&[1, 2, 1, 1, 0, 0, 1, 1, 0, 10], 3, false),
        ],
    );
}

// Kind 0 has a way of each shape, kind 1 has none. Kind 2 may hold one of kind 1, and kind 3 must.
#[test]
fn several_shapes_and_no_ways(rt: HostRuntime) {
    are_taken(
        &rt,
        &[
            &[&[0, 7, 7], &[1, 1, 0, 1], &[2, 1, 0, 0, 1, 0, 0]],
            &[],
            &[&[2, 2, 0, 0, 1, 1, 0, 2, 0, 0]],
            &[&[2, 1, 0, 0, 1, 1, 1]],
        ],
        &[
            (&[0, 7], 0, true),
            (&[0, 8], 0, false),
            (&[1, 0], 0, true),
            (&[1, 1, 0, 7], 0, false),
            // {}, {1: 7}, {1: []}, {1: {1: {}}}
            (&[2, 0], 0, true),
            (&[2, 1, 1, 0, 7], 0, true),
            (&[2, 1, 1, 1, 0], 0, true),
            (&[2, 1, 1, 2, 1, 1, 2, 0], 0, true),
            // {1: 8}, {1: [7]}, {1: {1: 8}}, {2: 7}
            (&[2, 1, 1, 0, 8], 0, false),
            (&[2, 1, 1, 1, 1, 0, 7], 0, false),
            (&[2, 1, 1, 2, 1, 1, 0, 8], 0, false),
            (&[2, 1, 2, 0, 7], 0, false),
            // nothing is of kind 1
            (&[0, 7], 1, false),
            (&[1, 0], 1, false),
            (&[2, 0], 1, false),
            // {} and {2: 7} leave place 1 out, {1: 7}, {1: []} and {1: {}, 2: 7} do not
            (&[2, 0], 2, true),
            (&[2, 1, 2, 0, 7], 2, true),
            (&[2, 1, 1, 0, 7], 2, false),
            (&[2, 1, 1, 1, 0], 2, false),
            (&[2, 2, 1, 2, 0, 2, 0, 7], 2, false),
            (&[2, 0], 3, false),
            (&[2, 1, 1, 0, 7], 3, false),
            (&[2, 1, 1, 2, 0], 3, false),
        ],
    );
}

// Kind 0 is a list of itself, kind 1 must hold itself, kinds 2 and 3 hold each other, and kind 3 may hold kind 1.
#[test]
fn kinds_within_themselves(rt: HostRuntime) {
    are_taken(
        &rt,
        &[
            &[&[1, 0, 0, 16]],
            &[&[2, 1, 0, 0, 1, 1, 1]],
            &[&[1, 3, 0, 2]],
            &[&[2, 2, 0, 0, 1, 2, 1, 2, 1, 0]],
        ],
        &[
            // [], [[]], [[], [[]]]
            (&[1, 0], 0, true),
            (&[1, 1, 1, 0], 0, true),
            (&[1, 2, 1, 0, 1, 1, 1, 0], 0, true),
            // 0, [0], [[], 0], [[], [[0]]], [{}]
            (&[0, 0], 0, false),
            (&[1, 1, 0, 0], 0, false),
            (&[1, 2, 1, 0, 0, 0], 0, false),
            (&[1, 2, 1, 0, 1, 1, 1, 1, 0, 0], 0, false),
            (&[1, 1, 2, 0], 0, false),
            // {}, {1: {}}, {1: {1: {}}}, {1: []}
            (&[2, 0], 1, false),
            (&[2, 1, 1, 2, 0], 1, false),
            (&[2, 1, 1, 2, 1, 1, 2, 0], 1, false),
            (&[2, 1, 1, 1, 0], 1, false),
            // [], [{1: []}], [{1: [{1: []}]}, {1: []}]
            (&[1, 0], 2, true),
            (&[1, 1, 2, 1, 1, 1, 0], 2, true),
            (
                &[1, 2, 2, 1, 1, 1, 1, 2, 1, 1, 1, 0, 2, 1, 1, 1, 0],
                2,
                true,
            ),
            // [[]], [{}], [{1: {1: []}}], [{1: [[]]}]
            (&[1, 1, 1, 0], 2, false),
            (&[1, 1, 2, 0], 2, false),
            (&[1, 1, 2, 1, 1, 2, 1, 1, 1, 0], 2, false),
            (&[1, 1, 2, 1, 1, 1, 1, 1, 0], 2, false),
            // {1: []}, {1: [{1: []}]}
            (&[2, 1, 1, 1, 0], 3, true),
            (&[2, 1, 1, 1, 1, 2, 1, 1, 1, 0], 3, true),
            // {}, {1: [], 2: {}}, {1: [], 2: {1: {}}}
            (&[2, 0], 3, false),
            (&[2, 2, 1, 1, 0, 2, 2, 0], 3, false),
            (&[2, 2, 1, 1, 0, 2, 2, 1, 1, 2, 0], 3, false),
        ],
    );
}

// Kind 1 is a list of a kind that is not there.
#[test]
fn refuses_a_form_first(rt: HostRuntime) {
    are_refused(
        &rt,
        &[&[&[0, 0, 9]], &[&[1, 2, 0, 16]]],
        &[
            (&[3], 9, 1, 1),
            (&too_deep(), 0, 1, 1),
            (&[3], 0, 1, 1),
            (&[0, 5], 9, 1, 1),
            (&[0, 5], 0, 1, 1),
        ],
    );
}

// Kind 0 is a list of itself, or 0 to 9.
#[test]
fn refuses_a_kind_and_then_a_paper(rt: HostRuntime) {
    let deep = too_deep();
    are_refused(
        &rt,
        &[&[&[1, 0, 0, 16], &[0, 0, 9]]],
        &[
            (&[3], 1, 3, 1),
            (&deep, 7, 3, 7),
            (&[0, 5], u64::MAX, 3, u64::MAX),
            // no paper, also where it would not be taken
            (&[], 0, 5, 0),
            (&[3], 0, 5, 0),
            (&[1, 2, 0, 5], 0, 5, 4),
            (&[1, 2, 2, 0, 0, TOP + 1], 0, 5, 5),
            (&[2, 2, 3, 0, 1, 3, 0, 1], 0, 5, 5),
            (&[0, 10, 0], 0, 5, 2),
            // 257 deep, and cut short where the next level would begin
            (&deep, 0, 6, 512),
            (&deep[0..512], 0, 5, 512),
        ],
    );
}

// 256 deep, with 1 in the innermost list, which only kind 0 takes.
#[test]
fn takes_at_the_deepest(rt: HostRuntime) {
    let deep = too_deep();
    are_taken(
        &rt,
        &[&[&[1, 0, 0, 16], &[0, 1, 1]], &[&[1, 1, 0, 16], &[0, 2, 9]]],
        &[(&deep[2..514], 0, true), (&deep[2..514], 1, false)],
    );
}

// What a form takes as its last kind, and as the ones before: 10, 80 or a list of itself; a record of one of the last;
// nothing.
const LAST: [(&[u64], u64, bool); 11] = [
    (&[0, 10], 0, true),
    (&[0, 80], 0, true),
    (&[0, 81], 0, false),
    // [], [80, [10]], [80, [81]]
    (&[1, 0], 0, true),
    (&[1, 2, 0, 80, 1, 1, 0, 10], 0, true),
    (&[1, 2, 0, 80, 1, 1, 0, 81], 0, false),
    // 10, {1: [80]}, {1: [81]}, {}
    (&[0, 10], 1, false),
    (&[2, 1, 1, 1, 1, 0, 80], 1, true),
    (&[2, 1, 1, 1, 1, 0, 81], 1, false),
    (&[2, 0], 1, false),
    (&[0, 10], 2, false),
];

// The last kind of a form takes what it should, and so do those before it; there is no kind more, and the row, one number
// shorter, is no form.
fn is_told_in(rt: &impl Abort, room: Room, form: &[u64], last: u64) {
    for (row, before, taken) in &LAST {
        let kind = last.saturating_sub(*before);
        assert_eq!(rt; told(take_in(form, room, row, kind)), Ok(*taken));
    }
    let next = last.saturating_add(1);
    assert_eq!(rt; told(take_in(form, room, &[3], next)), Err((3, next)));
    let short = form.len().saturating_sub(1);
    assert_eq!(rt;
        told(take_in(&form[0..short], room, &[3], next)),
        Err((1, next))
    );
}

// Forms with as many kinds as there is room for, and the last with as many ways, of which the last is the list of itself.
#[test]
fn takes_in_every_room(rt: HostRuntime) {
    let plain = plain(&[
        &[],
        &[],
        &[&[2, 1, 0, 0, 1, 3, 1]],
        &[&[0, 10, 10], &[0, 80, 80], &[1, 3, 0, 16]],
    ]);
    is_told_in(&rt, Room::Plain, &plain, 3);
    let mut both = [0; 2321];
    lay(
        &mut both,
        9,
        14,
        &[
            &[&[2, 1, 0, 0, 1, 15, 1]],
            &[
                &[0, 10, 10],
                &[0, 20, 20],
                &[0, 30, 30],
                &[0, 40, 40],
                &[0, 50, 50],
                &[0, 60, 60],
                &[0, 70, 70],
                &[0, 80, 80],
                &[1, 15, 0, 16],
            ],
        ],
    );
    is_told_in(&rt, Room::Both, &both, 15);
    let mut either = [0; 874];
    lay(
        &mut either,
        6,
        7,
        &[
            &[&[2, 1, 0, 0, 1, 8, 1]],
            &[
                &[0, 10, 10],
                &[0, 20, 20],
                &[0, 30, 30],
                &[0, 40, 40],
                &[0, 80, 80],
                &[1, 8, 0, 16],
            ],
        ],
    );
    is_told_in(&rt, Room::Either, &either, 8);
}
