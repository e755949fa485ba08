// Compares two forms: whether the second takes every paper that the first takes.
#![tactic(auto)]

ghost use Rattle.std.specs.Prelude.{◌≤◌, length};

use forms::{side_of, two_forms};
use programs::{Answer, Error, Program, kind_of, row_of};
use std::process::ExitCode;

const HELP: &str = "\
compare_forms OLD NEW [K [J]]

Says whether every paper that the form in the file OLD takes as kind K is taken by the form in the file NEW as kind J,
or shows one of the flattest papers that is not. K is 0 where it is left out, and J is K.

A form is 197 numbers, four bytes each, the low byte first.

It prints one line:
  all                     every paper is
  not: {1: 0, 2: []}      this paper is not
  first refused 1 at 2    the first form is none: kind 2 is at fault; 4 stands for the count of kinds or a short file
  second refused 2 at 4   the second form is none
  first refused 3 at 7    the first form has no kind 7

Options:
  --exit-code   end with status 1 where the answer is `not` or `refused`
  --help        print this text
";

const PROGRAM: Program = Program {
    name: "compare_forms",
    help: HELP,
    takes: "it takes two forms and up to two kinds",
    least: 2,
    most: 4,
};

// Compares the forms in the two files that are named.
fn compare(rt: &HostRuntime, words: &[String]) -> Result<Answer, Error>
    requires { 2 ≤ length words.now }
{
    let k = kind_of(words.get(2), 0)?;
    let j = kind_of(words.get(3), k)?;
    let one = row_of(rt, words[0].as_str())?;
    let two = row_of(rt, words[1].as_str())?;
    match two_forms(&one, &two, k, j) {
        Ok(_) => Err(Error::NotYet("comparing two forms")),
        Err(refusal) => {
            let side = side_of(&one, k, refusal);
            println!(rt; "{side} {refusal}")?;
            Ok(Answer::Bad)
        }
    }
}

fn main(rt: HostRuntime) -> ExitCode {
    PROGRAM.run(&rt, compare)
}
