// Reads grids from standard input and writes what the search answers and leaves in the room. The file stdout has what
// an independent program works out (second/, `search-vectors`). A case is n, the allowance, how many cells and how many
// numbers of room, and the cells; the room holds -7 everywhere before. An answer is a kind (0 placed, 1 none, 2 gave up,
// 3 refused), the tries or the refusal's number, and the room.
#![tactic(auto)]

ghost use Rattle.std.specs.Prelude.{◌*◌, ◌≤◌, length};

use cases::Answer;
use refusal::Refusal;
use search::{Looked, Outcome};
use std::io;
use std::io::{Read, Write};

// A case has at most so many cells and numbers.
const CELLS: usize = 1100;

const NUMBERS: usize = 80;

// Writes the numbers to the front of the room.
fn write_numbers(out: &mut [u8], xs: &[i32])
    requires { 4 * length xs.now ≤ length out.old }
{
    let (fours, _) = out.as_chunks_mut::<4>();
    for (four, x) in fours.iter_mut().zip(xs) {
        *four = x.to_le_bytes();
    }
}

fn told(answer: Result<Looked, Refusal>) -> Answer {
    let Looked { outcome, tries } = match answer {
        Ok(looked) => looked,
        Err(why) => return Answer::refused(why),
    };
    let kind = match outcome {
        Outcome::Placed => 0,
        Outcome::None => 1,
        Outcome::GaveUp => 2,
    };
    Answer {
        kind,
        number: tries,
    }
}

// Answers one case: whether there was one.
fn answered<R: Read, W: Write>(reader: &mut R, writer: &mut W) -> io::Result<bool> {
    let Some(head) = cases::receive_numbers::<_, 4>(reader)? else {
        return Ok(false);
    };
    let [n, allowance, cells, numbers] = head;
    let (cells, numbers) = (cells as usize, numbers as usize);
    if CELLS < cells || NUMBERS < numbers {
        return Ok(false);
    }
    let mut bytes = [0u8; 2 * CELLS];
    if !cases::receive(reader, &mut bytes[..2 * cells])? {
        return Ok(false);
    }
    let mut g = [0u16; CELLS];
    cases::read16s(&bytes, &mut g[..cells]);
    let mut room = [-7i32; NUMBERS];
    let room = &mut room[..numbers];
    let answer = told(search::find_placing(&g[..cells], n as usize, allowance, room));
    let mut left = [0u8; 4 * NUMBERS];
    let left = &mut left[..4 * numbers];
    write_numbers(left, room);
    cases::send(writer, answer, left)?;
    Ok(true)
}

fn main(rt: HostRuntime) -> io::Result<()> {
    cases::answer_all(&mut rt.stdin(), &mut rt.stdout(), answered)
}
