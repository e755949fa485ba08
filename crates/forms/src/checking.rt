// Whether a row is a form, and where it is not.
ghost use Rattle.std.specs.Prelude.{◌≡◌, ℕ, ◌<◌, ◌≤◌, true, false, MatchOption, IfOk, IfErr};
ghost use Rattle.std.specs.List.{list_all};
ghost use Rattle.forms.specs.Fits.{every, place_fits, place_within, within_limits, way_fits, kind_fits, form_fits, fault, FirstFault};
ghost use Rattle.forms.specs.Form.{proper, Closed, Bounded};
ghost use Rattle.forms.specs.Layout.{form_in, room_kinds, room_ways, kinds_count};

use crate::layout::{self, Laid, PLACE, WAY};
use crate::room::Room;
use crate::view::FormView;
use crate::way::Way;

// Numbers and names are below this.
const LIMIT: u64 = 1 << 32;
// How long a list may at least and at most be.
const LONGEST: usize = 16;
// How many places a record may have.
const PLACES: usize = 4;

impl<'a> FormView<'a> {
    // The view of a row, or the place that the refusal of one that is no form carries: the kind at fault, or, if the row is too short
    // or counts its kinds wrongly, the number of kinds that it should have room for.
    pub fn of(row: &'a [u64], room: Room) -> Result<FormView<'a>, u64>
        ensures row { IfOk result (λ form. form.row ≡ row.entry) }
        ensures room { IfOk result (λ form. form.room ≡ room) }
        ensures fits { IfOk result (λ _. form_fits room row.now ≡ true) }
        ensures proper { IfOk result (λ _. proper (form_in room row.now) ≡ true) }
        ensures closed { IfOk result (λ _. Closed (form_in room row.now)) }
        ensures bounded { IfOk result (λ _. Bounded (room_kinds room) (room_ways room) (form_in room row.now)) }
        ensures fault { IfErr result (λ place. (form_fits room row.now ≡ false) × (place ≡ fault room row.now) × FirstFault room row.now place) }
    {
        let Some(laid) = Laid::of(row, room) else {
            return Err(room.kinds() as u64);
        };
        match first_misfit(&laid) {
            Some(kind) => Err(kind as u64),
            None => Ok(FormView::new(row, room)),
        }
    }
}

// The first kind at fault.
fn first_misfit(laid: &Laid<'_>) -> Option<usize>
    ensures { MatchOption result ((k : ℕ) → k < kinds_count laid.now.row.now → kind_fits laid.now.room laid.now.row.now k ≡ true) (λ i. (i < kinds_count laid.now.row.now) × (kind_fits laid.now.room laid.now.row.now i ≡ false) × ((k : ℕ) → k < i → kind_fits laid.now.room laid.now.row.now k ≡ true)) }
{
    (0..laid.kinds()).find(|kind| !kind_fits(laid, *kind))
}

// Whether there is room for a kind's ways, and each is one.
fn kind_fits(laid: &Laid<'_>, kind: usize) -> bool
    requires { kind < room_kinds laid.now.room }
    ensures { result ≡ kind_fits laid.now.room laid.now.row.now kind }
{
    let kinds = laid.kinds();
    laid.ways(kind).is_some_and(|ways| ways_fit(ways, kinds))
}

// Whether each is a way.
fn ways_fit(ways: &[[u64; WAY]], kinds: usize) -> bool
    ensures { result ≡ list_all (λ way. way_fits kinds way 0) ways.now }
{
    ways.iter().all(|way| way_fits(way, kinds))
}

// Whether the way keeps to the limits, and its places do.
fn way_fits(way: &[u64; WAY], kinds: usize) -> bool
    ensures { result ≡ way_fits kinds way.now 0 }
{
    let shown = layout::way_of(way);
    // Numbers and lists have no places: to see that first is quicker.
    layout::shape_of(way).is_ok()
        && within_limits(shown, kinds)
        && (shown.places() == 0 || places_fit(way, shown.places(), kinds))
}

// Whether a way keeps to the limits, its places aside.
fn within_limits(way: Way, kinds: usize) -> bool
    ensures { result ≡ within_limits kinds way }
{
    match way {
        Way::Number { from, to } => from < LIMIT && to < LIMIT,
        Way::List { kind, least, most } => kind < kinds && least <= LONGEST && most <= LONGEST,
        Way::Record { places } => places <= PLACES,
    }
}

// Whether the first so many places of a record are such, each named above the one before it.
fn places_fit(way: &[u64; WAY], places: usize, kinds: usize) -> bool
    requires { places ≤ 4 }
    ensures { result ≡ every (place_fits kinds way.now 0) places }
{
    let places = &layout::places(way)[..places];
    places.iter().all(|place| place_within(place, kinds))
        && places.is_sorted_by(|before, next| before[0] < next[0])
}

// Whether a place keeps to the limits, its name's order aside.
fn place_within(place: &[u64; PLACE], kinds: usize) -> bool
    ensures { result ≡ place_within kinds place.now }
{
    let [name, kind, mark] = *place;
    mark <= 1 && kind < kinds as u64 && name < LIMIT
}
