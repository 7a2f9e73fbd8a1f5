// Reads grids from standard input and writes what quick and plain closing answer and leave. The file
// stdout has what an independent program works out (second/).
// A case: n, the limit, the number of cells, and the cells. An answer of each closing: 0 closed,
// 1 contradiction, 2 paused or 3 refused, the takes or the refusal's number, and the cells.
#![tactic(auto)]

use cases::Answer;
use refusal::Refusal;
use std::io;
use std::io::{Read, Write};

// A case has at most so many cells.
const CELLS: usize = 1100;

fn told_quick(answer: Result<takes::End, Refusal>) -> Answer {
    let (kind, takes) = match answer {
        Ok(takes::End::Closed(takes)) => (0, takes),
        Ok(takes::End::Contradiction(takes)) => (1, takes),
        Ok(takes::End::Paused(takes)) => (2, takes),
        Err(why) => return Answer::refused(why),
    };
    Answer {
        kind,
        number: cases::low32(takes),
    }
}

fn told_plain(answer: Result<plain::End, Refusal>) -> Answer {
    match answer {
        Ok(plain::End::Closed) => Answer { kind: 0, number: 0 },
        Ok(plain::End::Contradiction) => Answer { kind: 1, number: 0 },
        Err(why) => Answer::refused(why),
    }
}

// Answers one case: whether there was one.
fn answered<R: Read, W: Write>(reader: &mut R, writer: &mut W) -> io::Result<bool> {
    let Some(head) = cases::receive_numbers::<_, 3>(reader)? else {
        return Ok(false);
    };
    let [n, limit, count] = head.map(|x| x as usize);
    if CELLS < count {
        return Ok(false);
    }
    let mut given = [0u8; 2 * CELLS];
    let mut left = [0u8; 2 * CELLS];
    let mut room = [0u16; CELLS];
    let given = &mut given[..2 * count];
    let left = &mut left[..2 * count];
    let cells = &mut room[..count];
    if !cases::receive(reader, given)? {
        return Ok(false);
    }
    cases::read16s(given, cells);
    let quick = told_quick(quick::quick_close(cells, n, limit));
    cases::write16s(left, cells);
    cases::send(writer, quick, left)?;
    cases::read16s(given, cells);
    let plain = told_plain(plain::plain_close(cells, n));
    cases::write16s(left, cells);
    cases::send(writer, plain, left)?;
    Ok(true)
}

fn main(rt: HostRuntime) -> io::Result<()> {
    cases::answer_all(&mut rt.stdin(), &mut rt.stdout(), answered)
}
