// How a program ends.
ghost use Rattle.std.specs.Prelude.{◌≡◌, MatchResult};
ghost use Rattle.std.specs.Process.{exit_status};

use std::fmt::{Display, InlineText};
use std::process::ExitCode;

// How many bytes of an error's text are told; a longer text is cut and ends in three dots.
const TOLD: usize = 120;

// The status that a run ended with; an error is told on standard error, and makes it 1.
pub fn finish<E: Display + Drop>(
    rt: &HostRuntime,
    program: &str,
    res: Result<ExitCode, E>,
) -> ExitCode
    ensures { MatchResult res (λ status. result ≡ status) (λ _. exit_status result ≡ 1) }
{
    match res {
        Ok(status) => status,
        Err(error) => {
            let text = InlineText::<{ TOLD }>::of(error);
            let _ = eprintln!(rt; "{program}: {}", text.as_str());
            ExitCode::FAILURE
        }
    }
}
