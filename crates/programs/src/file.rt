// A file of numbers.
ghost use Rattle.std.specs.Prelude.{◌≡◌, ℕ, ◌%◌, List, length, IfOk};
ghost use Rattle.programs.specs.Bytes.{numbers_in};

use crate::bytes::numbers;
use crate::error::Error;
use std::fs;

// The numbers of a file, four bytes each; a file with a part of a number at its end is an error.
pub fn row_of(rt: &HostRuntime, path: &str) -> Result<Vec<u64>, Error>
    ensures { IfOk result (λ row. (bytes : List ℕ) × (length bytes % 4 ≡ 0) × (row.items ≡ numbers_in bytes)) }
{
    let heap = rt.alloc();
    let bytes = match fs::read(rt, path) {
        Ok(bytes) => bytes,
        Err(error) => {
            let path = String::from_str(heap, path)?;
            return Err(Error::File { path, error });
        }
    };
    if bytes.len() % 4 != 0 {
        return Err(Error::CutShort(String::from_str(heap, path)?));
    }
    Ok(numbers(heap, &bytes)?)
}
