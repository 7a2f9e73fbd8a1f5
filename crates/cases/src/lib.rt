// What the programs of the gate share: reading cases, answering each, and writing the answers. Numbers stand in bytes, low byte
// first. What they write is compared with stored answers.
#![tactic(auto)]

ghost use Rattle.std.specs.Prelude.{◌*◌, ◌%◌, ◌^◌, ◌≤◌, ◌≡◌, ◌∷◌, ◌++◌, true, false, Ok, None, OnOk, length, take};
ghost use Rattle.std.specs.Int.{w32, to_le_bytes};
ghost use Rattle.std.specs.Io.KnownBytes.{Appends, Consumes, IsAtEnd};
ghost use Rattle.refusal.specs.Numbers.{number_of};
ghost use Rattle.cases.specs.Answering.{most_cases, Answered};

use refusal::Refusal;
use std::io;
use std::io::{Read, Write};

// At most so many cases are answered.
const MOST: usize = 100000;

// The longest answer of the programs: a kind and its number, and 1100 cells.
const LONGEST: usize = 5 + 2 * 1100;

// What kind of answer came, and its number. A kind is a number, as in the stored cases.
#[derive(Clone, Copy)]
pub struct Answer {
    pub kind: u8,
    pub number: u32,
}

impl Answer {
    pub fn refused(why: Refusal) -> Answer
        ensures { (result.kind ≡ 3) × (result.number ≡ number_of why) }
    {
        Answer {
            kind: 3,
            number: refusal::number_of(why) as u32,
        }
    }

    pub fn to_bytes(self) -> [u8; 5]
        ensures { result ≡ self.kind ∷ to_le_bytes w32 self.number }
    {
        let [a, b, c, d] = self.number.to_le_bytes();
        [self.kind, a, b, c, d]
    }
}

// The low 32 bits, of a number that is far below 2 to the power 32.
pub fn low32(n: usize) -> u32
    ensures { result ≡ n % 2 ^ 32 }
{
    (n % 4294967296) as u32
}

// Fills the cells from the bytes.
pub fn read16s(bytes: &[u8], cells: &mut [u16])
    requires { 2 * length cells.old ≤ length bytes.now }
{
    let (pairs, _) = bytes.as_chunks::<2>();
    for (cell, pair) in cells.iter_mut().zip(pairs) {
        *cell = u16::from_le_bytes(*pair);
    }
}

// Writes the cells to the front of the room.
pub fn write16s(out: &mut [u8], cells: &[u16])
    requires { 2 * length cells.now ≤ length out.old }
{
    let (pairs, _) = out.as_chunks_mut::<2>();
    for (pair, cell) in pairs.iter_mut().zip(cells) {
        *pair = cell.to_le_bytes();
    }
}

// Fills the room from the input: whether it was filled, which it was not where the input ends first. A read that fails ends it
// with its error.
pub fn receive<R: Read>(reader: &mut R, room: &mut [u8]) -> io::Result<bool>
    ensures all { result ≡ Ok true → Consumes (R.remaining reader.old) (R.remaining reader.new) room.new }
    ensures short { result ≡ Ok false → IsAtEnd (R.remaining reader.new) }
{
    let got = desk::read_sheet(reader, room)?;
    Ok(got == room.len())
}

// The next N numbers of the input, of 32 bits each: none where it ends first.
pub fn receive_numbers<R: Read, const N: usize>(reader: &mut R) -> io::Result<Option<[u32; N]>>
    ensures none { result ≡ Ok None → IsAtEnd (R.remaining reader.new) }
{
    let mut fours = [[0u8; 4]; N];
    if !receive(reader, fours.as_flattened_mut())? {
        return Ok(None);
    }
    let mut numbers = [0u32; N];
    for (number, four) in numbers.iter_mut().zip(fours.iter()) {
        *number = u32::from_le_bytes(*four);
    }
    Ok(Some(numbers))
}

// Writes the first n bytes of the room, or nothing where it is shorter. A write that fails ends it with its error.
pub fn send_front<W: Write>(writer: &mut W, room: &[u8], n: usize) -> io::Result<()>
    ensures written { OnOk result (n ≤ length room.now → Appends (W.contents writer.old) (W.contents writer.new) (take n room.now)) }
{
    if n <= room.len() {
        writer.write_all(&room[..n])?;
    }
    Ok(())
}

// Writes an answer and what comes with it, by one write where both have room side by side: who reads the answers then sees
// each whole. A write that fails ends it with its error.
pub fn send<W: Write>(writer: &mut W, answer: Answer, rest: &[u8]) -> io::Result<()>
    ensures written { OnOk result (Appends (W.contents writer.old) (W.contents writer.new) ((answer.kind ∷ to_le_bytes w32 answer.number) ++ rest.now)) }
{
    let head = answer.to_bytes();
    let n = head.len() + rest.len();
    if LONGEST < n {
        writer.write_all(&head)?;
        return writer.write_all(rest);
    }
    let mut room = [0u8; LONGEST];
    room[..head.len()].copy_from_slice(&head);
    room[head.len()..n].copy_from_slice(rest);
    send_front(writer, &room, n)
}

// Answers one case after the other, until there is none: `answered` says whether there was one.
pub fn answer_all<R: Read, W: Write, F: FnMut(&mut R, &mut W) -> io::Result<bool>>(
    reader: &mut R,
    writer: &mut W,
    mut answered: F,
) -> io::Result<()>
    requires { F.IsAlwaysCallable answered }
    ensures { Answered F.FnMut reader.new writer.new most_cases answered reader.old writer.old result }
{
    for _ in 0..MOST {
        if !answered(reader, writer)? {
            break;
        }
    }
    Ok(())
}
