// What the tests share: forms laid out from their kinds, what a refusal tells, and a paper that is one too deep.
use papers::Refusal;

// The largest number that a paper or a form may have.
pub(crate) const TOP: u64 = 4294967295;

// How many numbers a way has.
const WAY: usize = 16;

// Writes numbers to the front of a row, as far as there is room.
fn put(row: &mut [u64], numbers: &[u64]) {
    for (place, number) in row.iter_mut().zip(numbers) {
        *place = *number;
    }
}

// Writes a form into a row of zeros in which a kind has room for so many ways: so many kinds without ways, and then these. A
// kind is its ways, and a way its numbers.
pub(crate) fn lay(row: &mut [u64], ways: usize, without: usize, kinds: &[&[&[u64]]]) {
    let block = WAY.saturating_mul(ways).saturating_add(1);
    let [count, blocks @ ..] = row else {
        return;
    };
    *count = without.saturating_add(kinds.len()) as u64;
    for (kind, ways) in blocks.chunks_exact_mut(block).skip(without).zip(kinds) {
        let [count, room @ ..] = kind else {
            return;
        };
        *count = ways.len() as u64;
        for (way, numbers) in room.chunks_exact_mut(WAY).zip(*ways) {
            put(way, numbers);
        }
    }
}

// What a refusal tells: its number in the fixed list, and its place.
pub(crate) fn number_and_place(refusal: Refusal) -> (u64, u64) {
    (refusal.number(), refusal.place())
}

// A plain form of up to four kinds, each of up to three ways.
pub(crate) fn plain(kinds: &[&[&[u64]]]) -> [u64; 197] {
    let mut row = [0; 197];
    lay(&mut row, 3, 0, kinds);
    row
}

// 256 lists of one, and in the innermost the number 1: one too deep. From its third number on it is 256 deep.
pub(crate) fn too_deep() -> [u64; 514] {
    let mut row = [1; 514];
    row[512] = 0;
    row
}
