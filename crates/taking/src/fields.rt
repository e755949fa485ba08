// The fields of a record, one at a time: what a field makes of each record way, and which ways take a record that ends.
ghost use Rattle.std.specs.Prelude.{◌≡◌, ℕ, ◌<◌, length, drop, MatchOption};
ghost use Rattle.papers.specs.declared.shape.Shape.TheVariants.{Record};
ghost use Rattle.forms.specs.Form.{places_of};
ghost use Rattle.taking.specs.Groups.{listed_places};
ghost use Rattle.taking.specs.Sorted.{sorted_of, shaped_of};
ghost use Rattle.forms.specs.View.{way_of};
ghost use Rattle.taking.specs.Advance.{progress_at, ends_well, Advances, StopsAt};
ghost use Rattle.taking.specs.Takes.{nowhere, find, record_takes};

use crate::group::WAYS;
use crate::mask::holds;
use crate::progress::Records;
use crate::shapes::FieldSeen;
use crate::sorted::SortedForm;
use forms::{Place, WayView};
use papers::Shape;

impl Records {
    // Before the first field: every way is at its first place.
    pub(crate) fn new() -> Records
        ensures { (i : ℕ) → progress_at result.ways i ≡ Some 0 }
    {
        Records {
            ways: [Some(0); WAYS],
        }
    }

    // Takes each record way of a form on by a field.
    pub(crate) fn advance(&mut self, form: &SortedForm<'_>, field: FieldSeen)
        ensures { (i : ℕ) → i < length (shaped_of Record form.now) → Advances field.name field.kinds (listed_places (sorted_of form.now) (shaped_of Record form.now) i) (progress_at self.old.ways i) (progress_at self.new.ways i) }
    {
        // By index: of what is written through a zip with `iter_mut` a proof knows nothing behind the loop (tried).
        for (index, at) in form.ways(Shape::Record).iter().enumerate() {
            let way = form.form.way(at.kind as usize, at.way as usize);
            self.ways[index] = advanced(way, self.ways[index], field);
        }
    }
}

// What becomes of a way that has come so far. It goes on behind the place of the field's name if the place's kind takes the field's
// paper.
fn advanced(way: WayView<'_>, progress: Option<u8>, field: FieldSeen) -> Option<u8>
    ensures { Advances field.name field.kinds (places_of (way_of way.entry)) progress result }
{
    let (index, place) = stop(way, progress?, field.name)?;
    (place.name == field.name && holds(field.kinds, place.kind)).then_some(index as u8 + 1)
}

// Where the search for a name ends, from a place on: at the first place that has the name, or that must be filled.
fn stop(way: WayView<'_>, from: u8, name: u64) -> Option<(usize, Place)>
    ensures { MatchOption result (find name (drop from (places_of (way_of way.entry))) ≡ nowhere) (StopsAt name from (places_of (way_of way.entry))) }
{
    way.places()
        .enumerate()
        .skip(from as usize)
        .find(|(_, place)| place.name == name || place.must)
}

// Whether a way that has come so far takes a record that ends there: no place left over must be filled.
pub(crate) fn ends_well(way: WayView<'_>, progress: Option<u8>) -> bool
    ensures { result ≡ record_takes (ends_well progress) (way_of way.entry) }
{
    let Some(from) = progress else {
        return false;
    };
    way.read().shape() == Shape::Record && way.places().skip(from as usize).all(|place| !place.must)
}
