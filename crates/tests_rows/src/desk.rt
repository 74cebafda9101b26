//! Where a thread writes its calls down, each with what it answered and the times before and after it.
use crate::row::Manner;
use crate::shared::Shared;
use std::alloc::Global;

/// A call, its argument, its answer, and the times between which it was made.
#[derive(Clone, Copy)]
pub struct Call {
    pub call: &'static str,
    pub given: u64,
    pub answer: Option<u64>,
    pub began: u64,
    pub ended: u64,
}

/// What a thread has written down.
#[derive(Drop)]
pub struct Log {
    pub calls: Vec<Call>,
    /// Whether nothing was wrong, and no wait came to its limit.
    pub well: bool,
    /// The sum of what was put in, without what came out, by numbers that stand for the values.
    pub balance: u64,
}

/// A thread's log, and when it meets the others.
#[derive(Drop)]
pub struct Desk<'s> {
    pub shared: &'s Shared,
    pub log: Log,
    pub manner: Manner,
    /// The number of the turn, counted from 0.
    pub at: u64,
    /// How many meetings this thread has come to.
    met: u64,
    /// Whether it has met the others since the call began.
    has_met: bool,
    began: u64,
}

/// The number that stands for a value in a balance: numbers that are mixed up hardly add up.
fn mixed(value: u64) -> u64 {
    let value = value
        .wrapping_add(0x9e37_79b9_7f4a_7c15)
        .wrapping_mul(0xbf58_476d_1ce4_e5b9);
    (value ^ (value >> 31)).wrapping_mul(0x94d0_49bb_1331_11eb)
}

impl<'s> Desk<'s> {
    /// A desk with nothing written down.
    pub fn new(alloc: Global, shared: &'s Shared, manner: Manner) -> Desk<'s> {
        let log = Log {
            calls: Vec::new(alloc),
            well: true,
            balance: 0,
        };
        Desk {
            shared,
            log,
            manner,
            at: 0,
            met: 0,
            has_met: false,
            began: 0,
        }
    }

    /// Meets the others, if that is due at this turn, or was at an earlier one that came to no call.
    pub fn meet(&mut self) {
        if self.manner.meets != 0 && self.at >= self.met.wrapping_mul(self.manner.meets) {
            self.met = self.met.wrapping_add(1);
            self.has_met = true;
            let all = self.met.wrapping_mul(self.manner.meeting);
            self.log.well &= self.shared.meet(all, self.manner.limit);
        }
    }

    /// Notes that a call begins. At each second meeting the others are met here, and else by `meet`, after
    /// the structure was called.
    pub fn begin(&mut self) {
        self.began = self.shared.now();
        self.has_met = false;
        if self.met % 2 == 0 {
            self.meet();
        }
    }

    /// Writes the call down that began last, which ends now.
    pub fn end(&mut self, call: &'static str, given: u64, answer: Option<u64>) {
        let ended = self.shared.now();
        let it = Call {
            call,
            given,
            answer,
            began: self.began,
            ended,
        };
        self.log.well &= self.log.calls.push(it).is_ok();
    }

    /// Writes a call that came to nothing down only if all calls are, or the others were met inside.
    pub fn end_in_vain(&mut self, call: &'static str, given: u64) {
        self.end_if(false, call, given, None);
    }

    /// Writes the call down if it came to something, all calls are, or the others were met inside.
    pub fn end_if(&mut self, came: bool, call: &'static str, given: u64, answer: Option<u64>) {
        if came || self.manner.all || self.has_met {
            self.end(call, given, answer);
        }
    }

    /// Notes whether something is right.
    pub fn check(&mut self, is_right: bool) {
        self.log.well &= is_right;
    }

    /// Notes that a value was put in.
    pub fn put(&mut self, value: u64) {
        self.log.balance = self.log.balance.wrapping_add(mixed(value));
    }

    /// Notes that a value came out.
    pub fn take(&mut self, value: u64) {
        self.log.balance = self.log.balance.wrapping_sub(mixed(value));
    }
}
