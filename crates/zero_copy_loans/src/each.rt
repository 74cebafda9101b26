//! Values that are received, read where they lie and given back, one after the other: by the public calls of a receiver alone, so a
//! sample that was given back cannot be read.
ghost use Rattle.std.specs.Prelude.{IfSome};

use crate::receiver::{Reads, Receiver, Sample};
use std::alloc::Global;
use std::sync::Wait;
use zero_copy_slots::Keeps;

impl<'a, X: Drop, K: Keeps<X>> Receiver<'a, X, K> {
    ghost use Rattle.zero_copy_loans.specs.Ends.{number_of, HasRead};

    /// What the reader tells of a sample's value, which it reads where it lies. None where the value cannot
    /// be read, or the reader tells nothing.
    fn read_by<A: Drop, R: Reads<X, K, A>>(&self, sample: &Sample, reader: &mut R) -> Option<A>
        ensures { IfSome result (R.tells (number_of sample.now)) }
    {
        let reading = self.read(sample).ok()?;
        reader.read(reading.get())
    }

    /// Receives `count` values, each by at most `tries` tries, reads them where they lie, and gives them
    /// back. Returns what the reader told of each. None where a value did not come or could not be read,
    /// where nothing was told of it, or where there is no memory; the values that came are given back then
    /// too. The steps of `receive_within`, of `read` and of `give_back` for each.
    pub fn read_each<A: Drop, R: Reads<X, K, A>>(
        &mut self,
        rt: &impl Wait,
        alloc: Global,
        count: usize,
        tries: u64,
        reader: &mut R,
    ) -> Option<Vec<A>>
        ensures { IfSome result (λ told. HasRead R.tells told.items self.old self.new) }
    {
        let mut told = Vec::new(alloc);
        for _ in 0..count {
            let sample = self.receive_within(rt, tries)?;
            let read = self.read_by(&sample, reader);
            self.give_back(sample);
            let one = read?;
            let Ok(()) = told.push(one) else {
                return None;
            };
        }
        Some(told)
    }
}
