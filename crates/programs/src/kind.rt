// The number of a kind on a command line.
ghost use Rattle.std.specs.Prelude.{◌≡◌, ℕ, IfOk, Ok, string_bytes, MatchOption};
ghost use Rattle.std.specs.Str.Parse.{ParsesUnsigned};

use crate::error::Error;

// The word as a number, or what stands for a word that is not there.
pub fn kind_of(word: Option<&String>, absent: u64) -> Result<u64, Error>
    ensures { MatchOption word.entry (result ≡ Ok absent) (λ w. IfOk result (λ k. ParsesUnsigned {E = ℕ} 64 10 (string_bytes w.now) (Ok k))) }
{
    let Some(word) = word else {
        return Ok(absent);
    };
    let Ok(kind) = word.as_str().parse() else {
        return Err(Error::NotAKind(word.clone()?));
    };
    Ok(kind)
}
