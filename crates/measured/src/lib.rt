// The public functions for the benchmark: each answer as one number. `measured_c` exports them under C's calling convention.
#![tactic(auto)]

ghost use Rattle.std.specs.Prelude.{◌≡◌, ℕ};
ghost use Rattle.refusal.specs.Answered.{said_of};
ghost use Rattle.relation.specs.Answers.{compose_said};
ghost use Rattle.quick.specs.Answers.{QuickCloses};
ghost use Rattle.plain.specs.Answers.{PlainCloses};
ghost use Rattle.search.specs.Answers.{Looks};
ghost use Rattle.sheet.specs.Answers.{Reads};
ghost use Rattle.report.specs.Report.{place_text, Prints};
ghost use Rattle.measured.specs.Numbers.{coded, answer_number, quick_end_number, plain_end_number, looked_number, Numbered, set_number, quick_number, plain_number, place_number, sheet_number};

use refusal::Refusal;
use search::{Looked, Outcome};
use sheet::SheetRefusal;

// The kind of an answer, and what it carries, as one number. Kinds are numbers for C, whose program answers in the same way.
fn coded(kind: u8, value: u64) -> u64
    ensures { result ≡ coded kind value }
{
    kind as u64 * 4294967296 + value % 4294967296
}

// An answer that is no refusal, as one number.
trait AsNumber {
    ghost as_number: { Self → ℕ };

    fn number(self) -> u64
        ensures { result ≡ as_number self };
}

impl AsNumber for u16 {
    ghost as_number = { coded 0 };

    fn number(self) -> u64 {
        coded(0, self as u64)
    }
}

impl AsNumber for takes::End {
    ghost as_number = { quick_end_number };

    fn number(self) -> u64 {
        match self {
            takes::End::Closed(takes) => coded(0, takes as u64),
            takes::End::Contradiction(takes) => coded(1, takes as u64),
            takes::End::Paused(takes) => coded(2, takes as u64),
        }
    }
}

impl AsNumber for plain::End {
    ghost as_number = { plain_end_number };

    fn number(self) -> u64 {
        match self {
            plain::End::Closed => coded(0, 0),
            plain::End::Contradiction => coded(1, 0),
        }
    }
}

impl AsNumber for Looked {
    ghost as_number = { looked_number };

    fn number(self) -> u64 {
        let kind = match self.outcome {
            Outcome::Placed => 0,
            Outcome::None => 1,
            Outcome::GaveUp => 2,
        };
        coded(kind, self.tries as u64)
    }
}

// An answer or a refusal, as one number.
fn answer_number<A: AsNumber>(answer: Result<A, Refusal>) -> u64
    ensures { result ≡ answer_number A.as_number answer }
{
    match answer {
        Ok(a) => a.number(),
        Err(why) => coded(3, refusal::number_of(why) as u64),
    }
}

// A refused sheet has the number of its refusal as its kind, and carries the line.
fn sheet_number(answer: Result<usize, SheetRefusal>) -> u64
    ensures { result ≡ sheet_number answer }
{
    match answer {
        Ok(n) => coded(0, n as u64),
        Err(r) => coded(refusal::number_of(r.why), r.line as u64),
    }
}

pub fn proved_compose(a: u16, b: u16) -> u64
    ensures { Numbered (λ x. said_of x ≡ compose_said a b) set_number result }
{
    answer_number(relation::compose(a, b))
}

pub fn proved_quick_close(g: &mut [u16], n: usize, limit: usize) -> u64
    ensures { Numbered (λ x. QuickCloses n limit g.old x g.new) quick_number result }
{
    answer_number(quick::quick_close(g, n, limit))
}

pub fn proved_plain_close(g: &mut [u16], n: usize) -> u64
    ensures { Numbered (λ x. PlainCloses n g.old x g.new) plain_number result }
{
    answer_number(plain::plain_close(g, n))
}

pub fn proved_find_placing(g: &[u16], n: usize, allowance: u32, room: &mut [i32]) -> u64
    ensures { Numbered (λ x. Looks n allowance g.now room.old x room.new) place_number result }
{
    answer_number(search::find_placing(g, n, allowance, room))
}

pub fn proved_read_sheet(s: &[u8], room: &mut [u16]) -> u64
    ensures { Numbered (λ x. Reads s.now room.old x room.new) sheet_number result }
{
    sheet_number(sheet::read_sheet(s, room))
}

// What `place` prints, with the allowance of the program.
pub fn proved_place(s: &[u8], room: &mut [u8]) -> usize
    ensures { Prints (place_text 5000 s.now) room.old result room.new }
{
    report::place_report(s, report::ALLOWANCE, room)
}
