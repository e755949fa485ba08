// Bytes that are read ahead, a large block at a time.
ghost use Rattle.std.specs.Prelude.{◌≡◌, ◌+◌, ◌-◌, ◌≤◌, [], length, take, drop, IfOk};
ghost use Rattle.take_papers.specs.Held.{Holding, GoesOn};

use std::io;
use std::io::Read;
use std::marker::Model;

// How many bytes there is room for.
const ROOM: usize = 65536;

// The bytes from `start` to `end` are read and not used yet: it holds these. It is no `BufReader`, which reads no more while it
// holds a byte, and so cannot lend a paper whole that lies across its end; and no `Vec` that lets go of its front, which was
// tried in the reader of bench/ and took over four times as long.
#[derive(Drop)]
pub(crate) struct Block {
    bytes: [u8; ROOM],
    start: usize,
    end: usize,
}

impl Model for Block {
    ghost Value = { Holding };

    ghost view = { λ block. record { before = block.start; bytes = take (block.end - block.start) (drop block.start block.bytes) } };

    ghost invariant = { λ block. (block.start ≤ block.end) × (block.end ≤ 65536) };
}

impl Block {
    // A block that holds nothing.
    pub(crate) fn new() -> Block
        ensures { result ≡ record { before = 0; bytes = [] } }
    {
        Block {
            bytes: [0; ROOM],
            start: 0,
            end: 0,
        }
    }

    // What it holds.
    pub(crate) fn held(&self) -> &[u8]
        ensures { result.now ≡ self.now.bytes }
    {
        let (start, end) = (self.start, self.end);
        &self.bytes[start..end]
    }

    // Lets go of the first bytes that it holds.
    pub(crate) fn skip(&mut self, count: usize)
        requires { count ≤ length self.old.bytes }
        ensures { self.new.bytes ≡ drop count self.old.bytes }
    {
        self.start += count;
    }

    // Reads on until it holds so many bytes or the input ends.
    pub(crate) fn fill<R: Read>(&mut self, input: &mut R, least: usize) -> io::Result<()>
        requires { least ≤ 65536 }
        ensures { GoesOn self.old.bytes self.new.bytes }
    {
        if least <= self.held().len() {
            return Ok(());
        }
        self.move_to_front();
        while self.held().len() < least {
            if self.read_more(input)? == 0 {
                break;
            }
        }
        Ok(())
    }

    // Makes all the room there is behind what it holds.
    fn move_to_front(&mut self)
        ensures same { self.new.bytes ≡ self.old.bytes }
        ensures front { self.new.before ≡ 0 }
    {
        let (start, end) = (self.start, self.end);
        self.bytes.copy_within(start..end, 0);
        self.start = 0;
        self.end = end - start;
    }

    // Reads once, as much as there is room for behind what it holds, and says how many bytes came.
    fn read_more<R: Read>(&mut self, input: &mut R) -> io::Result<usize>
        ensures more { GoesOn self.old.bytes self.new.bytes }
        ensures count { IfOk result (λ n. length self.new.bytes ≡ length self.old.bytes + n) }
        ensures before { self.new.before ≡ self.old.before }
    {
        let end = self.end;
        let count = input.read(&mut self.bytes[end..])?;
        self.end = end + count;
        Ok(count)
    }
}
