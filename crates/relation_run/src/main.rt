// Reads cases from standard input and writes the answers of `converse` and `compose`. The file
// stdout has those of an independent program, which works them out from the meaning (second/).
// A case is two sets; an answer a refusal's number or 0, and a set.
#![tactic(auto)]

use refusal::Refusal;
use std::io;
use std::io::{Read, Write};

fn bytes_of(answer: Result<u16, Refusal>) -> [u8; 3] {
    let (number, set) = match answer {
        Ok(set) => (0, set),
        Err(why) => (refusal::number_of(why), 0u16),
    };
    let [low, high] = set.to_le_bytes();
    [number, low, high]
}

// Answers one case: whether there was one.
fn answered<R: Read, W: Write>(reader: &mut R, writer: &mut W) -> io::Result<bool> {
    let mut case = [0u8; 4];
    if !cases::receive(reader, &mut case)? {
        return Ok(false);
    }
    let mut sets = [0u16; 2];
    cases::read16s(&case, &mut sets);
    let [a, b] = sets;
    let answers = [
        bytes_of(relation::converse(a)),
        bytes_of(relation::compose(a, b)),
    ];
    cases::send_front(writer, answers.as_flattened(), 6)?;
    Ok(true)
}

fn main(rt: HostRuntime) -> io::Result<()> {
    cases::answer_all(&mut rt.stdin(), &mut rt.stdout(), answered)
}
