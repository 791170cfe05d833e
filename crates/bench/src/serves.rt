ghost use Rattle.std.specs.Prelude.{◌≡◌, IfOk};
ghost use Rattle.buffers.specs.Held.{held as held_by};
ghost use Rattle.bench.specs.Cars.{Serves, bench_car, listed};
ghost use Rattle.bench.specs.Standings.{bench_of};
ghost use Rattle.bench.specs.Views.{standing, view};
ghost use Rattle.bench.specs.Sounds.{row_sound};
ghost use Rattle.link.proofs.Replies.{held_short};
ghost use Rattle.std.proofs.Common.{lit≤};

use crate::BenchUnit;
use crate::services::{Service, service_of};
use buffers::Buffer;
use link::Link;
use reason::errors::LinkError;
use refusal::refusals::Refusal;

impl BenchUnit {
    // A unit with at most 30 codes, and an empty present reply.
    pub fn new(codes: &[u16]) -> Result<BenchUnit, Refusal>
        ensures result { view result ≡ bench_of codes.now }
        ensures serves { IfOk result (λ u. Serves (standing u).codes) }
    {
        if codes.len() > 30 {
            return Err(Refusal::new(LinkError::Range.into(), 0));
        }
        let mut row = [0u16; 30];
        row[0..codes.len()].copy_from_slice(codes);
        Ok(BenchUnit {
            codes: row,
            held: codes.len(),
            present: Buffer::new(),
        })
    }

    // The reply that lists the codes: 0x43, the count, and each code, high byte first.
    fn list(&self) -> Buffer<64>
        ensures { held_by result ≡ listed (standing self.now).codes }
    {
        let mut reply = Buffer::new();
        reply.push(0x43);
        reply.push(self.held as u8);
        for code in &self.codes[..self.held] {
            let [high, low] = code.to_be_bytes();
            reply.push(high);
            reply.push(low);
        }
        reply
    }
}

impl Link for BenchUnit {
    ghost car = { λ u. bench_car (standing u).codes };

    ghost present = { λ u. (standing u).shown };

    ghost sound = { λ x. row_sound x.held x.codes x.few x.fits };

    ghost short = { λ x. held_short x.present (lit≤ tt) };

    fn send(&mut self, request: &[u8]) -> bool {
        match service_of(request) {
            Some(Service::ListCodes) => {
                self.present = self.list();
                true
            }
            Some(Service::ClearCodes) => {
                self.held = 0;
                self.present = Buffer::prefix(&[0x44]);
                true
            }
            None => {
                self.present = Buffer::new();
                false
            }
        }
    }

    fn count(&self) -> usize {
        self.present.len()
    }

    fn byte(&self, i: usize) -> Option<u8> {
        self.present.byte(i)
    }
}
