// The words of a command line: options, which begin with two dashes, and the others.
ghost use Rattle.std.specs.Prelude.{IfOk};
ghost use Rattle.std.specs.List.{AllByRecursion};
ghost use Rattle.programs.specs.Words.{IsWord, NoOption};

use crate::error::Error;
use std::alloc::Global;
use std::env;

#[derive(Clone, Copy)]
enum Word {
    // `--help`
    Help,
    // `--exit-code`
    ExitCode,
    // Any other option.
    Unknown,
    // A word that is no option.
    Plain,
}

// What a command line asks for. The two options stand each by itself: either may be given, or both.
#[derive(Drop)]
pub struct Command {
    pub help: bool,
    pub exit_code: bool,
    pub words: Vec<String>,
}

// Which word it is.
impl From<&str> for Word {
    ghost from_gives = { λ word result. IsWord result word.now };

    fn from(word: &str) -> Word {
        if word == "--help" {
            Word::Help
        } else if word == "--exit-code" {
            Word::ExitCode
        } else if word.starts_with("--") {
            Word::Unknown
        } else {
            Word::Plain
        }
    }
}

// The options and the words behind the program's name; none of the words is an option.
pub fn parse(heap: Global, args: env::Args) -> Result<Command, Error>
    ensures { IfOk result (λ command. AllByRecursion NoOption command.words.items) }
{
    let mut command = Command {
        help: false,
        exit_code: false,
        words: Vec::new(heap),
    };
    for arg in args.skip(1) {
        match Word::from(arg.as_str()) {
            Word::Help => command.help = true,
            Word::ExitCode => command.exit_code = true,
            Word::Unknown => return Err(Error::NoSuchOption(arg)),
            Word::Plain => command.words.push(arg)?,
        }
    }
    Ok(command)
}
