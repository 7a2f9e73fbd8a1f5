// A text that is put into a room that may be too short for it.
#![tactic(auto)]

ghost use Rattle.std.specs.Prelude.{[], ◌∷◌, ◌+◌, ◌≤◌, ◌<◌, length};
ghost use Rattle.text.specs.Names.{longest_name};
ghost use Rattle.refusal.specs.Numbers.{number_of};
ghost use Rattle.report.specs.Text.{decimal};
ghost use Rattle.report.specs.Report.{refused_line, event_line};
ghost use Rattle.report.specs.Steps.{Adds, AddsUpTo, most_end, most_digits, longest_word, most_event, most_first, said_line};

use refusal::Refusal;

// The text so far is len bytes long; of it the room holds what it reaches.
#[derive(Drop)]
pub struct Page<'a> {
    pub room: &'a mut [u8],
    pub len: usize,
}

impl<'a> Page<'a> {
    // One byte more, which is left out where the room ends before it.
    pub fn byte(&mut self, b: u8)
        requires { self.old.len < most_end }
        ensures { Adds self.old self.new (b ∷ []) }
    {
        if self.len < self.room.len() {
            self.room[self.len] = b;
        }
        self.len += 1;
    }

    pub fn bytes(&mut self, text: &[u8])
        requires { self.old.len + length text.now ≤ most_end }
        ensures { Adds self.old self.new text.now }
    {
        for &b in text {
            self.byte(b);
        }
    }

    // By recursion: `write!` promises its text only where it reports success, and never promises that.
    fn digits(&mut self, k: u64)
        requires { self.old.len + length (decimal k) ≤ most_end }
        ensures { Adds self.old self.new (decimal k) }
    {
        if 10 <= k {
            self.digits(k / 10);
        }
        self.byte(b'0' + (k % 10) as u8);
    }

    // A number of 64 bits, which has 20 digits at most.
    pub fn number(&mut self, k: u64)
        requires { self.old.len + most_digits ≤ most_end }
        ensures { AddsUpTo most_digits self.old self.new (decimal k) }
    {
        self.digits(k);
    }

    // The first line: a word and the tries.
    pub fn said_line(&mut self, word: &[u8], tries: u32)
        requires { (length word.now ≤ longest_word) × (self.old.len + most_first ≤ most_end) }
        ensures { AddsUpTo most_first self.old self.new (said_line word.now tries) }
    {
        self.bytes(word);
        self.byte(b' ');
        self.number(tries as u64);
        self.byte(b'\n');
    }

    // The first line: a refusal and its line of the sheet.
    pub fn refused_line(&mut self, why: Refusal, line: usize)
        requires { self.old.len + most_first ≤ most_end }
        ensures { AddsUpTo most_first self.old self.new (refused_line (number_of why) line) }
    {
        self.bytes(b"refused");
        self.byte(b' ');
        self.number(refusal::number_of(why) as u64);
        self.byte(b' ');
        self.number(line as u64);
        self.byte(b'\n');
    }

    // The line of an event: name, start, end.
    pub fn event_line(&mut self, name: &[u8], start: u32, end: u32)
        requires { (length name.now ≤ longest_name) × (self.old.len + most_event ≤ most_end) }
        ensures { AddsUpTo most_event self.old self.new (event_line name.now start end) }
    {
        self.bytes(name);
        self.byte(b' ');
        self.number(start as u64);
        self.byte(b' ');
        self.number(end as u64);
        self.byte(b'\n');
    }
}
