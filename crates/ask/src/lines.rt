// Standard input, line by line, and the answers to standard output.
ghost use Rattle.std.specs.Prelude.{◌≤◌, length};

use questions::replies;
use std::io;
use std::io::{Read, Write};

// Room for a line.
pub fn one_line() -> [u8; 65536] {
    [0; 65536]
}

// Answers are written out once they take half of their room, so that the other half is left for the next one.
const HALF: usize = 65536;

// The line that has not ended yet: how many of its bytes are held, and whether it has more than can be held. Nothing is allocated.
#[derive(Drop)]
struct Line {
    bytes: [u8; 65536],
    held: usize,
    long: bool,
}

impl Line {
    fn empty() -> Line {
        Line {
            bytes: one_line(),
            held: 0,
            long: false,
        }
    }

    fn is_begun(&self) -> bool {
        0 < self.held || self.long
    }

    // The bytes join it, if it has room.
    fn gather(&mut self, text: &[u8]) {
        let end = spelled::bytes(&mut self.bytes, self.held, text);
        self.long = self.long || end == self.held && !text.is_empty();
        self.held = end;
    }

    // None where it is too long.
    fn question(&self) -> Option<&[u8]> {
        if self.long {
            return None;
        }
        self.bytes.get(..self.held)
    }

    fn clear(&mut self) {
        self.held = 0;
        self.long = false;
    }
}

// The answers that are still to be written out, and how many bytes of them there are. There is room for twice what a line has: bytes in an answer take no more
// than its line, and any other answer has three numbers or a word.
#[derive(Drop)]
pub struct Answers {
    bytes: [u8; 131072],
    used: usize,
}

impl Answers {
    pub fn none() -> Answers {
        Answers {
            bytes: [0; 131072],
            used: 0,
        }
    }

    // None is a question that is too long.
    pub fn add(&mut self, question: Option<&[u8]>) {
        let behind = match question {
            Some(line) => questions::answer(line, &mut self.bytes, self.used),
            None => replies::malformed(&mut self.bytes, self.used),
        };
        self.used = replies::line_end(&mut self.bytes, behind);
    }

    pub fn write_out<W: Write>(&mut self, output: &mut W) -> io::Result<()> {
        let written = match self.bytes.get(..self.used) {
            Some(said) => output.write_all(said),
            None => Ok(()),
        };
        self.used = 0;
        written
    }
}

// A proved loop has to end, and nothing says that the input does: the turns are counted up to a number that no run reaches. What was answered is written out
// before each read, which may wait for whoever reads it. Where it cannot be written, there is nothing left to do.
pub fn answer_all<R: Read, W: Write>(input: &mut R, output: &mut W) -> io::Result<()> {
    let mut block = one_line();
    let mut line = Line::empty();
    let mut answers = Answers::none();
    for _ in 0..u64::MAX {
        answers.write_out(output)?;
        let n = got(input, &mut block);
        if n == 0 {
            break;
        }
        answer_block(&block[..n], &mut line, &mut answers, output)?;
    }
    if line.is_begun() {
        answers.add(line.question());
    }
    answers.write_out(output)
}

// How many bytes one read gave: none at the end, and where it fails.
fn got<R: Read>(input: &mut R, block: &mut [u8]) -> usize
    ensures { result ≤ length block.new }
{
    match input.read(block) {
        Ok(n) => n,
        Err(_) => 0,
    }
}

// Answers each line that ends in the block, and holds what is left behind the last. Where a write fails, the lines of the block are answered all the same, and
// nothing is read any more.
fn answer_block<W: Write>(
    block: &[u8],
    line: &mut Line,
    answers: &mut Answers,
    output: &mut W,
) -> io::Result<()> {
    let mut written = Ok(());
    for piece in block.split_inclusive(|b| *b == b'\n') {
        match piece {
            [text @ .., b'\n'] => {
                line.gather(text);
                answers.add(line.question());
                line.clear();
                if HALF <= answers.used {
                    written = written.and(answers.write_out(output));
                }
            }
            _ => line.gather(piece),
        }
    }
    written
}
