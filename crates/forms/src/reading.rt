// Reading the parts of a form.
//
// `ways`, `ways_of`, `way`, `FormView::place` and `WayView::place` have a `requires`, that the part is there, as the index of a
// slice has: they are the inner steps of loops over a form, where the bound of the loop shows it, and a test at each of them would
// only be repeated. What comes from outside, a row or the number of a kind, is refused by `one_form` and `two_forms`, which have
// none and hand on the view.
//
// That the kind is there stands in four of them: a caller that goes over all kinds has it from its loop, and one that asks for
// one kind has it in `Asked`.
ghost use Rattle.std.specs.Prelude.{◌≡◌, ℕ, ◌^◌, ◌<◌, ◌≤◌, length, slice_index_or};
ghost use Rattle.forms.specs.Form.{shape, shape_places, ways_at, way_at, places_of, place_at, no_place};
ghost use Rattle.forms.specs.Fits.{KeepsTo, PlaceKeepsTo};
ghost use Rattle.forms.specs.Layout.{room_kinds, room_ways};
ghost use Rattle.forms.specs.View.{form_of, way_of, ways_left, places_left};

use crate::layout::{self, Laid};
use crate::view::{FormView, Places, WayView, Ways};
use crate::way::{Place, Way};

impl<'a> FormView<'a> {
    // The row as one that is long enough.
    fn laid(&self) -> Laid<'a>
        ensures row { result.row ≡ self.now.row }
        ensures room { result.room ≡ self.now.room }
    {
        Laid {
            row: self.row,
            room: self.room,
        }
    }

    // How many kinds there are.
    pub fn kinds(&self) -> usize
        ensures is { result ≡ length (form_of self.now) }
        ensures some { 1 ≤ result }
        ensures few { result ≤ room_kinds self.now.room }
    {
        self.laid().kinds()
    }

    // How many ways a kind has.
    pub fn ways(&self, kind: usize) -> usize
        requires { kind < length (form_of self.now) }
        ensures is { result ≡ length (ways_at (form_of self.now) kind) }
        ensures few { result ≤ room_ways self.now.room }
    {
        self.ways_of(kind).left.len()
    }

    // The ways of a kind, in order.
    pub fn ways_of(&self, kind: usize) -> Ways<'a>
        requires { kind < length (form_of self.now) }
        ensures is { ways_left result ≡ ways_at (form_of self.now) kind }
    {
        let ways = self.laid().ways(kind).unwrap();
        Ways { left: ways }
    }

    // One way of a kind.
    #[tactic(auto, using(crate::proofs::Views::view_room))]
    pub fn way(&self, kind: usize, way: usize) -> WayView<'a>
        requires kind_there { kind < length (form_of self.now) }
        requires way_there { way < length (ways_at (form_of self.now) kind) }
        ensures is { way_of result ≡ way_at (form_of self.now) kind way }
        ensures limits { KeepsTo (length (form_of self.now)) (shape (way_at (form_of self.now) kind way)) }
        ensures places { (i : ℕ) → i < length (places_of (way_at (form_of self.now) kind way)) → PlaceKeepsTo (length (form_of self.now)) (place_at (form_of self.now) kind way i) }
    {
        WayView {
            numbers: &self.laid().room_for_ways(kind)[way],
        }
    }

    // A place of a way that is a record.
    pub fn place(&self, kind: usize, way: usize, index: usize) -> Place
        requires kind_there { kind < length (form_of self.now) }
        requires way_there { way < length (ways_at (form_of self.now) kind) }
        requires place_there { index < length (places_of (way_at (form_of self.now) kind way)) }
        ensures is { result ≡ place_at (form_of self.now) kind way index }
        ensures limits { (result.name < 2 ^ 32) × (result.kind < length (form_of self.now)) }
    {
        self.way(kind, way).place(index)
    }
}

impl<'a> WayView<'a> {
    // What the way is.
    pub fn read(&self) -> Way
        ensures is { result ≡ shape (way_of self.now) }
        ensures places { shape_places result ≡ length (places_of (way_of self.now)) }
        ensures limits { KeepsTo 16 result }
    {
        layout::way_of(self.numbers)
    }

    // The places, in order: none, unless it is a record.
    pub fn places(&self) -> Places<'a>
        ensures is { places_left result ≡ places_of (way_of self.now) }
    {
        Places {
            left: &layout::places(self.numbers)[..self.read().places()],
        }
    }

    // A place of a way that is a record.
    #[tactic(auto, using(crate::proofs::Views::way_few))]
    pub fn place(&self, index: usize) -> Place
        requires { index < length (places_of (way_of self.now)) }
        ensures is { result ≡ slice_index_or (places_of (way_of self.now)) index no_place }
        ensures limits { PlaceKeepsTo 16 result }
    {
        layout::place_of(&layout::places(self.numbers)[index])
    }
}
