ghost use Rattle.std.specs.Prelude.{◌≡◌, ℕ, List, drop, IfOk};
ghost use Rattle.tape.specs.Judgement.{verdict};
ghost use Rattle.tape.specs.Plays.{Replays, blank, opened, tape_car};
ghost use Rattle.tape.specs.Fills.{OnlyFill};
ghost use Rattle.tape.specs.Rules.{Judged};
ghost use Rattle.tape.specs.Views.{standing};
ghost use Rattle.tape.specs.Sounds.{entries_sound, buffer_short};

use crate::Tape;
use crate::entries::Entry;
use crate::judge::judge;
use buffers::Buffer;
use link::Link;
use refusal::refusals::Refusal;
use std::alloc::{AllocError, Global};

impl Tape {
    // A tape of no entries, with room for as many as a tape may have.
    pub fn new(heap: Global) -> Result<Tape, AllocError>
        ensures { IfOk result (λ t. standing t ≡ blank) }
    {
        let entries = Vec::with_capacity(heap, 2000)?;
        Ok(Tape {
            entries,
            place: 0,
            present: Buffer::new(),
        })
    }

    // Takes up other entries, and tells how many; a refusal leaves the tape as it was. Fill makes no difference: with any other
    // in its place the answer is the same, and the tape stands the same, so it means the same car.
    pub fn open(&mut self, bytes: &[u8]) -> Result<usize, Refusal>
        ensures result { result ≡ verdict bytes.now }
        ensures after { standing self.new ≡ opened bytes.now (standing self.old) }
        ensures rules { Judged bytes.now result }
        ensures fill { (other : List ℕ) → OnlyFill bytes.now other → (verdict other ≡ result) × (opened other (standing self.old) ≡ standing self.new) }
        ensures plays { Replays (standing self.new).left }
    {
        let n = judge(bytes)?;
        self.place = 0;
        self.entries.clear();
        for entry in bytes.as_chunks::<18>().0 {
            self.entries.push_reserved(Entry::decode(entry));
        }
        self.present = Buffer::new();
        Ok(n)
    }
}

impl Link for Tape {
    ghost car = { λ t. tape_car (standing t).left };

    ghost present = { λ t. (standing t).shown };

    ghost sound = { λ x. entries_sound (drop x.place x.entries.items) };

    ghost short = { λ x. buffer_short x.present };

    fn send(&mut self, request: &[u8]) -> bool {
        match self.entries.get(self.place) {
            Some(entry) if entry.request.is(request) => {
                self.present = entry.reply;
                self.place += 1;
                true
            }
            _ => {
                self.present = Buffer::new();
                false
            }
        }
    }

    fn count(&self) -> usize {
        self.present.len()
    }

    fn byte(&self, i: usize) -> Option<u8> {
        self.present.byte(i)
    }
}
