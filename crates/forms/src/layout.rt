// Where the parts of a form lie in its row, and reading them there: every offset stands here.
ghost use Rattle.std.specs.Prelude.{◌≡◌, ℕ, ◌+◌, ◌*◌, ◌<◌, ◌≤◌, true, false, [], length, take, drop, MatchOption, MatchResult, slice_index, slice_index_or};
ghost use Rattle.papers.specs.Telling.{shape_number};
ghost use Rattle.forms.specs.Form.{shape};
ghost use Rattle.forms.specs.Fits.{count_fits};
ghost use Rattle.forms.specs.Layout.{row_length, way_start, kinds_count, ways_count, place_by, way_from, block_length, room_kinds, room_ways};

use crate::room::Room;
use crate::way::{Place, Way};
use papers::{NoShape, Shape};

// How many numbers a way has.
pub(crate) const WAY: usize = 16;
// Where in a record its places begin.
const PLACES: usize = 4;
// How many numbers a place has.
pub(crate) const PLACE: usize = 3;

// A row that is long enough, and counts at least one kind and not more than it has room for.
#[derive(Clone, Copy)]
pub(crate) struct Laid<'a> {
    pub(crate) row: &'a [u64],
    pub(crate) room: Room,
    ghost long: { row_length room ≤ length row.now },
    ghost some: { 1 ≤ kinds_count row.now },
    ghost few: { kinds_count row.now ≤ room_kinds room },
}

// How many numbers a form's row has at least.
fn row_length(room: Room) -> usize
    ensures { result ≡ row_length room }
{
    1 + room.kinds() * block(room)
}

// How many numbers a kind has.
fn block(room: Room) -> usize
    ensures { result ≡ block_length room }
{
    1 + WAY * room.ways()
}

impl<'a> Laid<'a> {
    pub(crate) fn of(row: &'a [u64], room: Room) -> Option<Laid<'a>>
        ensures { MatchOption result (count_fits room row.now ≡ false) (λ laid. (count_fits room row.now ≡ true) × (laid.row ≡ row.entry) × (laid.room ≡ room)) }
    {
        if row.len() < row_length(room) || row[0] < 1 || row[0] > room.kinds() as u64 {
            return None;
        }
        Some(Laid { row, room })
    }

    // How many kinds there are.
    pub(crate) fn kinds(&self) -> usize
        ensures { result ≡ kinds_count self.now.row.now }
    {
        self.row[0] as usize
    }

    // The room for the ways of a kind: those that it has stand at the front.
    pub(crate) fn room_for_ways(&self, kind: usize) -> &'a [[u64; WAY]]
        requires { kind < room_kinds self.now.room }
        ensures { (length result.now ≡ room_ways self.now.room) × ((w : ℕ) → w < room_ways self.now.room → slice_index_or result.now w [] ≡ take 16 (drop (way_start self.now.room kind w) self.now.row.now)) }
    {
        let block = block(self.room);
        let start = 1 + kind * block;
        self.row[start + 1..start + block].as_chunks::<WAY>().0
    }

    // The ways of a kind, if there is room for as many as it says that it has.
    pub(crate) fn ways(&self, kind: usize) -> Option<&'a [[u64; WAY]]>
        requires { kind < room_kinds self.now.room }
        ensures { MatchOption result (room_ways self.now.room < ways_count self.now.room self.now.row.now kind) (λ ways. (length ways.now ≡ ways_count self.now.room self.now.row.now kind) × (length ways.now ≤ room_ways self.now.room) × ((w : ℕ) → w < length ways.now → slice_index_or ways.now w [] ≡ take 16 (drop (way_start self.now.room kind w) self.now.row.now))) }
    {
        let count = self.row[1 + kind * block(self.room)];
        self.room_for_ways(kind).get(..count as usize)
    }
}

// The shape of the papers that a way takes, if its first number stands for one.
pub(crate) fn shape_of(way: &[u64; WAY]) -> Result<Shape, NoShape>
    ensures { MatchResult result (λ shape. shape_number shape ≡ slice_index way.now 0) (λ _. 2 < slice_index way.now 0) }
{
    Shape::try_from(way[0])
}

// The way that the numbers say. One whose first number stands for no shape reads as a record: that it stands for one is part of the
// check, so that reading asks nothing of the row.
pub(crate) fn way_of(way: &[u64; WAY]) -> Way
    ensures { result ≡ shape (way_from way.now 0) }
{
    match shape_of(way) {
        Ok(Shape::Number) => Way::Number {
            from: way[1],
            to: way[2],
        },
        Ok(Shape::List) => Way::List {
            kind: way[1] as usize,
            least: way[2] as usize,
            most: way[3] as usize,
        },
        Ok(Shape::Record) | Err(_) => Way::Record {
            places: way[1] as usize,
        },
    }
}

// The room for the places of a record: name, kind and mark of each.
pub(crate) fn places(way: &[u64; WAY]) -> &[[u64; PLACE]]
    ensures room { length result.now ≡ 4 }
    ensures places { (i : ℕ) → i < 4 → slice_index_or result.now i [] ≡ take 3 (drop (4 + 3 * i) way.now) }
{
    way[PLACES..].as_chunks::<PLACE>().0
}

// The place that three numbers say.
pub(crate) fn place_of(numbers: &[u64; PLACE]) -> Place
    ensures { result ≡ place_by numbers.now }
{
    let [name, kind, mark] = *numbers;
    Place {
        name,
        kind: kind as usize,
        must: mark == 1,
    }
}
