// Takes or refuses papers, one after the other, from standard input.
#![tactic(auto)]

ghost use Rattle.std.specs.Prelude.{◌≡◌, ◌≤◌, true, length, IfOk};
ghost use Rattle.programs.specs.declared.program.Answer.TheVariants.{Good};
ghost use Rattle.taking.specs.Answers.{Exactly, RowTaken};
ghost use Rattle.taking.specs.Sorted.{sorted_of};

mod block;
mod broken;
mod stream;

use broken::Failure;
use forms::{Room, one_form};
use programs::{Answer, Program, kind_of, row_of};
use std::io;
use std::io::{BufWriter, Stdin, Stdout, Write};
use std::process::ExitCode;
use stream::{MOST, Papers};
use taking::{SortedForm, Taking, take_as};

const HELP: &str = "\
take_papers FORM [K]

Says of each paper on standard input whether the form in the file FORM takes it as kind K, which is 0 where it is left
out.

A form is 197 numbers, four bytes each, the low byte first. A paper comes as the count of its numbers, at most 1000, and
these: 0 and a number; 1, a count and so many papers; 2, a count and so many fields by rising name, each a name and a
paper.

It prints one line for each paper:
  taken            the form takes it
  not taken        the form does not
  refused 5 at 3   it is no paper, as the number at place 3 shows
  refused 6 at 3   it is more than 256 deep, the next level begins at place 3

If the file holds no form, or the form has no kind K, it prints one line and reads no paper:
  refused 1 at 2   the file holds no form: kind 2 is at fault; 4 stands for the count of kinds or a short file
  refused 3 at 7   the form has no kind 7

Options:
  --exit-code   end with status 1 where an answer is `not taken` or `refused`
  --help        print this text
";

const PROGRAM: Program = Program {
    name: "take_papers",
    help: HELP,
    takes: "it takes a form and up to one kind",
    least: 1,
    most: 2,
};

// Writes the answer to one paper, which is good if the form took it.
fn answer(
    form: &SortedForm<'_>,
    kind: usize,
    row: &[u64],
    out: &mut BufWriter<Stdout>,
) -> io::Result<Answer>
    ensures { IfOk result (λ given. Exactly (given ≡ Good) (RowTaken (sorted_of form.now) row.now kind true)) }
{
    let taking = take_as(form, row, kind);
    writeln!(out, "{taking}")?;
    Ok(match taking {
        Taking::Taken => Answer::Good,
        Taking::NotTaken | Taking::Refused(_) => Answer::Bad,
    })
}

// Answers every paper of the stream; the answer to all is good if the form took each.
fn answer_all(
    form: &SortedForm<'_>,
    kind: usize,
    papers: &mut Papers<Stdin>,
    out: &mut BufWriter<Stdout>,
) -> Result<Answer, Failure> {
    let mut row = [0; MOST];
    let mut all = Answer::Good;
    // Counted, since a stream may go on for ever, and each loop must end.
    for number in 1..u64::MAX {
        match papers.next_into(&mut row) {
            Ok(Some(count)) => {
                if answer(form, kind, &row[..count], out)? == Answer::Bad {
                    all = Answer::Bad;
                }
            }
            Ok(None) => break,
            Err(broken) => return Err(Failure::Paper { number, broken }),
        }
    }
    Ok(all)
}

// Takes the papers by the form in the file that is named.
fn take(rt: &HostRuntime, words: &[String]) -> Result<Answer, Failure>
    requires { 1 ≤ length words.now }
{
    let k = kind_of(words.get(1), 0)?;
    let form = row_of(rt, words[0].as_str())?;
    let asked = match one_form(&form, Room::Plain, k) {
        Ok(asked) => asked,
        Err(refusal) => {
            println!(rt; "{refusal}")?;
            return Ok(Answer::Bad);
        }
    };
    let form = SortedForm::new(asked.form);
    let mut papers = Papers::new(rt.stdin());
    let mut out = BufWriter::new(rt.alloc(), rt.stdout())?;
    let answered = answer_all(&form, asked.kind, &mut papers, &mut out);
    // What was answered is written even where the stream then failed.
    out.flush()?;
    answered
}

fn main(rt: HostRuntime) -> ExitCode {
    PROGRAM.run(&rt, take)
}
