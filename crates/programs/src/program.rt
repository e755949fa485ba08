// What all programs do alike.
ghost use Rattle.std.specs.Prelude.{◌≡◌, ◌≤◌, false, length, vec_len, IfOk, IfErr, OnOk, Ok, Err};
ghost use Rattle.std.specs.Process.{exit_status};

use crate::ending::finish;
use crate::error::Error;
use crate::line::{Command, parse};
use std::env;
use std::fmt::Display;
use std::process::ExitCode;

// What a program is, but for its answer.
#[derive(Clone, Copy, Debug)]
pub struct Program {
    // Its name, which is told before an error.
    pub name: &'static str,
    // What `--help` prints.
    pub help: &'static str,
    // Which words it takes, as it is told where there are too few or too many.
    pub takes: &'static str,
    // How many words it takes at least.
    pub least: usize,
    // How many words it takes at most.
    pub most: usize,
}

// Whether a program's answer is the good one.
#[derive(Clone, Copy, Debug, PartialEq, Eq)]
pub enum Answer {
    Good,
    Bad,
}

impl Program {
    ghost use Rattle.programs.specs.Endings.{Ended, Failed};

    // Runs it: `answer` gets the words, which are as many as it takes. That `answer` may be called so is all that is asked; a function
    // that counts on so many words says no more. The command line comes from outside, so no clause can say which status it is; that
    // stands at `status`, which asks the same.
    pub fn run<E, F>(&self, rt: &HostRuntime, answer: F) -> ExitCode
    where
        E: From<Error> + Display + Drop,
        F: FnOnce(&HostRuntime, &[String]) -> Result<Answer, E>,
        requires { (words : _) → self.now.least ≤ length words.now → length words.now ≤ self.now.most → F.pre answer rt words }
        ensures { exit_status result ≤ 1 }
    {
        match parse_own(rt) {
            Ok(command) => finish(rt, self.name, self.status(rt, &command, answer)),
            Err(error) => finish(rt, self.name, Err(E::from(error))),
        }
    }

    // The status of a run with this command line.
    pub fn status<E, F>(
        &self,
        rt: &HostRuntime,
        command: &Command,
        answer: F,
    ) -> Result<ExitCode, E>
    where
        E: From<Error>,
        F: FnOnce(&HostRuntime, &[String]) -> Result<Answer, E>,
        requires { (words : _) → self.now.least ≤ length words.now → length words.now ≤ self.now.most → F.pre answer rt words }
        ensures counted { OnOk result (command.now.help ≡ false → (self.now.least ≤ vec_len command.now.words) × (vec_len command.now.words ≤ self.now.most)) }
        ensures failed { IfErr result (Failed self.now.least self.now.most command.now.help command.now.words.items (λ error. (words : _) × (words.now ≡ command.now.words.items) × F.post answer rt.entry words (Err error))) }
        ensures ended { IfOk result (λ status. Ended command.now.help command.now.exit_code (λ given. (words : _) × (words.now ≡ command.now.words.items) × F.post answer rt.entry words (Ok given)) status) }
    {
        if command.help {
            rt.print(self.help).map_err(Error::Io)?;
            return Ok(ExitCode::SUCCESS);
        }
        let words = command.words.as_slice();
        if words.len() < self.least || words.len() > self.most {
            return Err(E::from(Error::Usage(self.takes)));
        }
        match answer(rt, words)? {
            Answer::Bad if command.exit_code => Ok(ExitCode::FAILURE),
            _ => Ok(ExitCode::SUCCESS),
        }
    }
}

// The command line that the program was given.
fn parse_own(rt: &HostRuntime) -> Result<Command, Error> {
    parse(rt.alloc(), env::args(rt)?)
}

#[cfg(test)]
mod tests {
    use super::*;
    use std::test::Fail;

    const PROGRAM: Program = Program {
        name: "one",
        help: "",
        takes: "it takes one word",
        least: 1,
        most: 1,
    };

    #[test]
    fn ends_as_answered(rt: HostRuntime) -> Result<(), Fail> {
        let heap = rt.alloc();
        let cases = [
            (true, Answer::Good, ExitCode::SUCCESS),
            (true, Answer::Bad, ExitCode::FAILURE),
            (false, Answer::Good, ExitCode::SUCCESS),
            (false, Answer::Bad, ExitCode::SUCCESS),
        ];
        for (exit_code, given, status) in cases {
            let command = Command {
                help: false,
                exit_code,
                words: vec![in heap; String::from_str(heap, "word")?]?,
            };
            let ended = PROGRAM.status(&rt, &command, |_, _| Ok::<Answer, Error>(given))?;
            assert_eq!(rt; ended, status);
        }
        Ok(())
    }
}
