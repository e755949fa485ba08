// Prints a form in words.
#![tactic(auto)]

ghost use Rattle.std.specs.Prelude.{◌≤◌, length};

mod words;

use forms::{Room, one_form};
use programs::{Answer, Error, Program, row_of};
use std::process::ExitCode;
use words::print_form;

const HELP: &str = "\
inspect_form FORM

Prints the form in the file FORM in words: a line for each kind, and below it a line for each way in which a paper of
that kind may look.

A form is 197 numbers, four bytes each, the low byte first. If the file holds none it prints:
  refused 1 at 2   kind 2 is at fault; 4 stands for the count of kinds or a short file

Options:
  --exit-code   end with status 1 where the file holds no form
  --help        print this text
";

const PROGRAM: Program = Program {
    name: "inspect_form",
    help: HELP,
    takes: "it takes one form",
    least: 1,
    most: 1,
};

// Prints the form in the file that is named.
fn inspect(rt: &HostRuntime, words: &[String]) -> Result<Answer, Error>
    requires { 1 ≤ length words.now }
{
    let row = row_of(rt, words[0].as_str())?;
    match one_form(&row, Room::Plain, 0) {
        Ok(asked) => {
            print_form(rt, asked.form)?;
            Ok(Answer::Good)
        }
        Err(refusal) => {
            println!(rt; "{refusal}")?;
            Ok(Answer::Bad)
        }
    }
}

fn main(rt: HostRuntime) -> ExitCode {
    PROGRAM.run(&rt, inspect)
}
