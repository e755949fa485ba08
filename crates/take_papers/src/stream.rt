// A stream of papers: each is a count of numbers, four bytes, and so many numbers.
ghost use Rattle.std.specs.Prelude.{◌≡◌, []};
ghost use Rattle.take_papers.specs.Coming.{Counted, Comes};

use crate::block::Block;
use crate::broken::Broken;
use programs::numbers_into;
use std::io::Read;

// How many numbers a paper may have.
pub(crate) const MOST: usize = 1000;

// The papers of an input, and the bytes of it that are read ahead.
#[derive(Drop)]
pub(crate) struct Papers<R> {
    input: R,
    block: Block,
}

// How many numbers the paper has that begins these bytes, or none where there are no bytes.
fn count_of(bytes: &[u8]) -> Result<Option<usize>, Broken>
    ensures { Counted bytes.now result }
{
    match bytes {
        [] => Ok(None),
        [a, b, c, d, ..] => {
            let count = u32::from_le_bytes([*a, *b, *c, *d]) as usize;
            if count > MOST {
                return Err(Broken::TooLong(count as u64));
            }
            Ok(Some(count))
        }
        _ => Err(Broken::InLength),
    }
}

impl<R: Read> Papers<R> {
    // The papers of an input of which nothing is read yet.
    pub(crate) fn new(input: R) -> Papers<R>
        ensures { result.block.bytes ≡ [] }
    {
        Papers {
            input,
            block: Block::new(),
        }
    }

    // Writes the next paper's numbers to the front of the row, and says how many; or none where the stream ends.
    pub(crate) fn next_into(&mut self, row: &mut [u64; MOST]) -> Result<Option<usize>, Broken>
        ensures { Comes self.old.block.bytes self.new.block.bytes row.old row.new result }
    {
        self.block.fill(&mut self.input, 4).map_err(Broken::Unread)?;
        let Some(count) = count_of(self.block.held())? else {
            return Ok(None);
        };
        let size = 4 + 4 * count;
        self.block
            .fill(&mut self.input, size)
            .map_err(Broken::Unread)?;
        let held = self.block.held();
        if held.len() < size {
            return Err(Broken::InPaper);
        }
        numbers_into(&held[4..size], row);
        self.block.skip(size);
        Ok(Some(count))
    }
}
