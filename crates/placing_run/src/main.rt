// Reads cases from standard input and writes the answers of `check_placing`. The file stdout has those of an independent
// program, which compares the ends itself (second/, `check-vectors`). A case is n, how many cells and how many numbers, the
// cells and the numbers; an answer a kind (0 yes, 1 no, 3 refused) and a refusal's number or 0.
#![tactic(auto)]

ghost use Rattle.std.specs.Prelude.{◌*◌, ◌≤◌, length};

use cases::Answer;
use refusal::Refusal;
use std::io;
use std::io::{Read, Write};

// A case has at most so many cells and numbers.
const CELLS: usize = 1100;

const NUMBERS: usize = 80;

// Fills the numbers from the bytes.
fn read_numbers(bytes: &[u8], xs: &mut [i32])
    requires { 4 * length xs.old ≤ length bytes.now }
{
    let (fours, _) = bytes.as_chunks::<4>();
    for (x, four) in xs.iter_mut().zip(fours) {
        *x = i32::from_le_bytes(*four);
    }
}

fn told(answer: Result<bool, Refusal>) -> Answer {
    match answer {
        Ok(true) => Answer { kind: 0, number: 0 },
        Ok(false) => Answer { kind: 1, number: 0 },
        Err(why) => Answer::refused(why),
    }
}

// Answers one case: whether there was one.
fn answered<R: Read, W: Write>(reader: &mut R, writer: &mut W) -> io::Result<bool> {
    let Some(head) = cases::receive_numbers::<_, 3>(reader)? else {
        return Ok(false);
    };
    let [n, cells, numbers] = head.map(|x| x as usize);
    if CELLS < cells || NUMBERS < numbers {
        return Ok(false);
    }
    let mut bytes = [0u8; 2 * CELLS + 4 * NUMBERS];
    if !cases::receive(reader, &mut bytes[..2 * cells + 4 * numbers])? {
        return Ok(false);
    }
    let mut g = [0u16; CELLS];
    cases::read16s(&bytes, &mut g[..cells]);
    let mut xs = [0i32; NUMBERS];
    read_numbers(&bytes[2 * cells..], &mut xs[..numbers]);
    let answer = told(placing::check_placing(&g[..cells], n, &xs[..numbers]));
    cases::send_front(writer, &answer.to_bytes(), 5)?;
    Ok(true)
}

fn main(rt: HostRuntime) -> io::Result<()> {
    cases::answer_all(&mut rt.stdin(), &mut rt.stdout(), answered)
}
