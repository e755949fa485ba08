// Numbers as a file or a stream has them: four bytes each, the low byte first.
ghost use Rattle.std.specs.Prelude.{◌≡◌, ◌/◌, min, ◌++◌, length, take, drop, IfOk, vec_len};
ghost use Rattle.programs.specs.Bytes.{four, numbers_in};

use std::alloc::{AllocError, Global};

// The numbers of these bytes; up to three bytes at the end that make no number are left out.
pub fn numbers(heap: Global, bytes: &[u8]) -> Result<Vec<u64>, AllocError>
    ensures is { IfOk result (λ v. v.items ≡ numbers_in bytes.now) }
    ensures len { IfOk result (λ v. vec_len v ≡ length bytes.now / 4) }
{
    let (fours, _) = bytes.as_chunks::<4>();
    fours
        .iter()
        .map(|&[a, b, c, d]| number(a, b, c, d))
        .collect(heap)
}

// Writes the numbers of these bytes to the front of a row, as many as it has room for, and says how many; the rest of the row
// stays as it is.
pub fn numbers_into(bytes: &[u8], row: &mut [u64]) -> usize
    ensures count { result ≡ min (length bytes.now / 4) (length row.old) }
    ensures row { row.new ≡ take result (numbers_in bytes.now) ++ drop result row.old }
{
    let (fours, _) = bytes.as_chunks::<4>();
    let count = row.len().min(fours.len());
    // The row by index: in a `zip` over its `iter_mut` an invariant has no name for it (tried).
    for (i, &[a, b, c, d]) in fours[..count].iter().enumerate() {
        row[i] = number(a, b, c, d);
    }
    count
}

// One number, from its low byte to its high byte.
fn number(a: u8, b: u8, c: u8, d: u8) -> u64
    ensures { result ≡ four a b c d }
{
    u64::from(u32::from_le_bytes([a, b, c, d]))
}
