// The functions of `measured` as symbols for C: the static library that the benchmark links.
#![tactic(auto)]

ghost use Rattle.std.specs.Prelude.{◌≡◌};
ghost use Rattle.refusal.specs.Answered.{said_of};
ghost use Rattle.relation.specs.Answers.{compose_said};
ghost use Rattle.quick.specs.Answers.{QuickCloses};
ghost use Rattle.plain.specs.Answers.{PlainCloses};
ghost use Rattle.search.specs.Answers.{Looks};
ghost use Rattle.sheet.specs.Answers.{Reads};
ghost use Rattle.report.specs.Report.{place_text, Prints};
ghost use Rattle.measured.specs.Numbers.{Numbered, set_number, quick_number, plain_number, place_number, sheet_number};

#[unsafe(no_mangle)]
pub extern "C" fn proved_compose(a: u16, b: u16) -> u64
    ensures { Numbered (λ x. said_of x ≡ compose_said a b) set_number result }
{
    measured::proved_compose(a, b)
}

#[unsafe(no_mangle)]
pub extern "C" fn proved_quick_close(g: &mut [u16], n: usize, limit: usize) -> u64
    ensures { Numbered (λ x. QuickCloses n limit g.old x g.new) quick_number result }
{
    measured::proved_quick_close(g, n, limit)
}

#[unsafe(no_mangle)]
pub extern "C" fn proved_plain_close(g: &mut [u16], n: usize) -> u64
    ensures { Numbered (λ x. PlainCloses n g.old x g.new) plain_number result }
{
    measured::proved_plain_close(g, n)
}

#[unsafe(no_mangle)]
pub extern "C" fn proved_find_placing(g: &[u16], n: usize, allowance: u32, room: &mut [i32]) -> u64
    ensures { Numbered (λ x. Looks n allowance g.now room.old x room.new) place_number result }
{
    measured::proved_find_placing(g, n, allowance, room)
}

#[unsafe(no_mangle)]
pub extern "C" fn proved_read_sheet(s: &[u8], room: &mut [u16]) -> u64
    ensures { Numbered (λ x. Reads s.now room.old x room.new) sheet_number result }
{
    measured::proved_read_sheet(s, room)
}

// What `place` prints, with the allowance of the program.
#[unsafe(no_mangle)]
pub extern "C" fn proved_place(s: &[u8], room: &mut [u8]) -> usize
    ensures { Prints (place_text 5000 s.now) room.old result room.new }
{
    measured::proved_place(s, room)
}
