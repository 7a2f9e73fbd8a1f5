// The waiting list: a ring of pairs, with a mark for each pair that waits.
#![tactic(auto)]

ghost use Rattle.std.specs.Prelude.{◌≡◌, [], ◌∷◌, ◌<◌, MatchOption};
ghost use Rattle.theory.specs.Line.{joins};

use std::marker::Model;

// The pairs that wait for a take, in their order. The ring holds len of them, the last before place end, and waits marks each of
// them. A pair waits once at most, so that the ring has a place for each.
#[derive(Clone, Drop)]
pub struct WaitingList {
    ring: [u16; 1024],
    waits: [bool; 1024],
    end: usize,
    len: usize,
}

impl Model for WaitingList {
    ghost use Rattle.std.specs.Prelude.{List, ℕ};
    ghost use Rattle.takes.specs.Waiting.{line_of, Waiting};

    ghost Value = { List ℕ };

    ghost view = { λ a. line_of a.ring a.end a.len };

    ghost invariant = { λ a. Waiting a.ring a.waits a.end a.len };
}

impl WaitingList {
    pub fn new() -> Self
        ensures { result ≡ [] }
    {
        WaitingList {
            ring: [0; 1024],
            waits: [false; 1024],
            end: 0,
            len: 0,
        }
    }

    // The pair p joins the end unless it waits already.
    pub fn join(&mut self, p: usize)
        requires { p < 1024 }
        ensures { self.new ≡ joins p self.old }
    {
        if self.waits[p] {
            return;
        }
        // By value, here and in leave: after a store into an array the compiler would read the fields again.
        let end = self.end;
        let len = self.len;
        self.ring[end] = p as u16;
        self.waits[p] = true;
        self.end = (end + 1) % 1024;
        self.len = len + 1;
    }

    // The first pair leaves, if one waits.
    pub fn leave(&mut self) -> Option<usize>
        ensures { MatchOption result ((self.old ≡ []) × (self.new ≡ [])) (λ p. self.old ≡ p ∷ self.new) }
    {
        let len = self.len;
        if len == 0 {
            return None;
        }
        // The end stays, so that the next pair need not wait for a store: only the length changes.
        let p = self.ring[(self.end + 1024 - len) % 1024] as usize;
        self.waits[p] = false;
        self.len = len - 1;
        Some(p)
    }

    // All pairs leave.
    pub fn clear(&mut self)
        ensures { self.new ≡ [] }
    {
        self.waits = [false; 1024];
        self.len = 0;
    }
}
