// A row that is known to be a form, and the numbers in it that are known to be a way.
ghost use Rattle.std.specs.Prelude.{◌≡◌, ◌<◌, true, length};
ghost use Rattle.std.specs.List.{list_all};
ghost use Rattle.forms.specs.Form.{proper, Closed, Bounded};
ghost use Rattle.forms.specs.Fits.{form_fits, way_fits};
ghost use Rattle.forms.specs.Layout.{form_in, room_kinds, room_ways};

use crate::layout::{PLACE, WAY};
use crate::room::Room;

#[derive(Clone, Copy)]
pub struct FormView<'a> {
    pub(crate) row: &'a [u64],
    pub(crate) room: Room,
    ghost fits: { form_fits room row.now ≡ true },
}

// A kind that was asked of a form, and is there.
#[derive(Clone, Copy)]
pub struct Asked<'a> {
    pub form: FormView<'a>,
    pub kind: usize,
    ghost there: { kind < length (form_in form.room form.row.now) },
}

// One way of a form, none of which has more than 16 kinds.
#[derive(Clone, Copy)]
pub struct WayView<'a> {
    pub(crate) numbers: &'a [u64; WAY],
    ghost fits: { way_fits 16 numbers.now 0 ≡ true },
}

// The ways of a kind that are still to come.
#[derive(Drop)]
pub struct Ways<'a> {
    pub(crate) left: &'a [[u64; WAY]],
    ghost fit: { list_all (λ numbers. way_fits 16 numbers 0) left.now ≡ true },
}

// The places of a way that are still to come.
#[derive(Drop)]
pub struct Places<'a> {
    pub(crate) left: &'a [[u64; PLACE]],
}

impl<'a> FormView<'a> {
    // The view of a row that is a form. It has a `requires` since it makes the fact that the view carries: `of`, which checks
    // the row, has none.
    pub fn new(row: &'a [u64], room: Room) -> FormView<'a>
        requires { form_fits room row.now ≡ true }
        ensures row { result.row ≡ row.entry }
        ensures room { result.room ≡ room }
        ensures proper { proper (form_in room row.now) ≡ true }
        ensures closed { Closed (form_in room row.now) }
        ensures bounded { Bounded (room_kinds room) (room_ways room) (form_in room row.now) }
    {
        FormView { row, room }
    }
}
