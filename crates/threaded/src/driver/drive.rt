//! How a seat performs one operation on a word, one step of a call, and a whole call.
ghost use Rattle.std.specs.Prelude.{◌≡◌, ℕ, ◌+◌, IfOk, IfErr};
ghost use Rattle.threaded.specs.Driver.{Owes, OwesAsk, Next, Told, KeepsRule, moves};
ghost use Rattle.threaded.specs.Seats.{seen, table_of, key_of, IsSame, IsAt};

use super::rule::{Drives, Rule, Tells};
use super::seated::Seated;
use atomic_table::Play;
use std::marker::{Brand, PhantomData};
use std::sync::Wait;
use steps::ask::{After, Ask, Op, Want};
use steps::routine::{Ends, Routine};

/// The call as it stands after a step. If the step has ended the call, the function around this
/// macro returns that end.
macro_rules! next_or_return {
    ($after:expr) => {
        match $after {
            After::GoOn(next) => next,
            After::Done(end) => return end,
        }
    };
}

/// The call as it stands after a step. If the step has ended the call, the function around this
/// macro returns that it has.
macro_rules! next_or_stop {
    ($after:expr) => {
        match $after {
            After::GoOn(next) => next,
            After::Done(end) => return After::Done(end),
        }
    };
}

impl<V> Tells<V> for Brand {
    ghost told = { λ _ _ _. Unit {0} };
}

/// An operation of which the caller picks by M what it tells. The view counts it.
pub struct Says<M, K, Q> {
    of: PhantomData<(M, K, Q)>,
}

impl<V, K, Q: Rule<V, K>, M: Tells<V>> Play<(), V> for Says<M, K, Q> {
    ghost then = { λ step. moves Q.asked M.told };
}

impl<V, K, Q: Rule<V, K>> Seated<V, K, Q> {
    /// Performs one operation on one word, and returns the word's old value, or at a store the new one. The
    /// view counts the operation.
    #[inline(always)]
    pub(super) fn perform<M: Tells<V>>(&mut self, ask: Ask) -> u64
        requires owes { OwesAsk Q.asked (Q.holds (key_of self.old)) (table_of self.old).words
            (table_of self.old).slots self.old.seat.id M.told ask.word ask.op self.old.seat.me }
        requires capacity { (v : V) (n : ℕ) (w : V) → M.told v n w
            → Q.capacity_seen w ≡ Q.capacity_seen v }
        ensures same { IsSame self.old self.new }
        ensures told { M.told (seen self.old) result (seen self.new) }
        ensures counted { Q.asked (seen self.new) ≡ Q.asked (seen self.old) + 1 }
    {
        let word = ask.word;
        let table = &self.table;
        match ask.op {
            Op::Load => table.shared.load::<Says<M, K, Q>>(&mut self.seat, word),
            Op::Store(new) => {
                table
                    .shared
                    .store::<Says<M, K, Q>>(&mut self.seat, word, new);
                new
            }
            Op::Swap(new) => table
                .shared
                .swap::<Says<M, K, Q>>(&mut self.seat, word, new),
            Op::Add(by) => table
                .shared
                .fetch_add::<Says<M, K, Q>>(&mut self.seat, word, by),
            Op::Sub(by) => table
                .shared
                .fetch_sub::<Says<M, K, Q>>(&mut self.seat, word, by),
            Op::And(bits) => table
                .shared
                .fetch_and::<Says<M, K, Q>>(&mut self.seat, word, bits),
            Op::Or(bits) => table
                .shared
                .fetch_or::<Says<M, K, Q>>(&mut self.seat, word, bits),
            Op::Exchange(from, to) => {
                table
                    .shared
                    .compare_exchange::<Says<M, K, Q>>(&mut self.seat, word, from, to)
            }
        }
    }

    /// Performs the operation that the call asks for, and returns its answer. Where the call asks a question,
    /// which only its caller can answer, or asks for nothing, it performs none and returns 0.
    #[inline(always)]
    fn answer<M: Tells<V>, C: Routine>(&mut self, call: C, given: &C::Given) -> u64
        requires owes { Owes Q.asked (Q.holds (key_of self.old)) (table_of self.old).words
            (table_of self.old).slots self.old.seat.id M.told (C.want_of call given.now) self.old.seat.me }
        requires capacity { (v : V) (n : ℕ) (w : V) → M.told v n w
            → Q.capacity_seen w ≡ Q.capacity_seen v }
        ensures same { IsSame self.old self.new }
        ensures told { M.told (seen self.old) result (seen self.new) }
    {
        match call.ask(given) {
            Want::Ask(ask) => self.perform::<M>(ask),
            Want::Question(_) => 0,
            Want::Nothing => 0,
        }
    }

    /// Takes one step of a call. Its caller picks by M what the step tells.
    #[inline(always)]
    pub fn step_telling<M: Tells<V>, C: Routine>(
        &mut self,
        call: C,
        given: &C::Given,
        room: &mut C::Room,
    ) -> After<C, C::End>
        requires owes { Owes Q.asked (Q.holds (key_of self.old)) (table_of self.old).words
            (table_of self.old).slots self.old.seat.id M.told (C.want_of call given.now) self.old.seat.me }
        requires capacity { (v : V) (n : ℕ) (w : V) → M.told v n w
            → Q.capacity_seen w ≡ Q.capacity_seen v }
        ensures same { IsSame self.old self.new }
        ensures told { (n : ℕ) × (result ≡ C.after call given.now n)
            × (room.new ≡ C.kept call room.old n) × M.told (seen self.old) n (seen self.new) }
    {
        let old = self.answer::<M, C>(call, given);
        call.take(given, room, old)
    }

    /// Takes one step of a call. At a question the call hears 0: a caller that has a closure answers
    /// questions itself, between two steps.
    #[inline(always)]
    fn once<M: Tells<V>, C: Routine, D: Drives<V, C>>(
        &mut self,
        call: C,
        given: &C::Given,
        room: &mut C::Room,
    ) -> After<C, C::End>
        requires gives { (v : V) (n : ℕ) (w : V) → M.told v n w
            → Told Q.capacity_seen (D.at given.now) (D.ends given.now)
            (λ c k. C.after c given.now k) C.kept call room.old v n w }
        requires takes { (v : V) (n : ℕ) (w : V)
            → Told Q.capacity_seen (D.at given.now) (D.ends given.now)
            (λ c k. C.after c given.now k) C.kept call room.old v n w
            → M.told v n w }
        requires table { IsAt Q.size Q.capacity Q.capacity_seen self.old }
        requires rule { KeepsRule Q.asked Q.capacity_seen (D.at given.now) (D.ends given.now) Q.size
            Q.capacity Q.holds (λ c. C.want_of c given.now) (λ c k. C.after c given.now k) C.kept }
        requires at { (base : V) × D.at given.now base (seen self.old) call room.old }
        ensures same { IsSame self.old self.new }
        ensures capacity { Q.capacity_seen (seen self.new) ≡ Q.capacity_seen (seen self.old) }
        ensures taken { (n : ℕ) × (result ≡ C.after call given.now n)
            × (room.new ≡ C.kept call room.old n) }
        ensures told { (base : V) → D.at given.now base (seen self.old) call room.old
            → Next Q.capacity_seen (D.at given.now) (D.ends given.now) base
            result room.new (seen self.new) }
    {
        let old = self.answer::<M, C>(call, given);
        call.take(given, room, old)
    }

    /// Takes one step of a call, for a caller that acts between two steps.
    #[inline(always)]
    pub fn step<C: Routine, D: Drives<V, C>>(
        &mut self,
        call: C,
        given: &C::Given,
        room: &mut C::Room,
    ) -> After<C, C::End>
        requires table { IsAt Q.size Q.capacity Q.capacity_seen self.old }
        requires rule { KeepsRule Q.asked Q.capacity_seen (D.at given.now) (D.ends given.now) Q.size
            Q.capacity Q.holds (λ c. C.want_of c given.now) (λ c k. C.after c given.now k) C.kept }
        requires at { (base : V) × D.at given.now base (seen self.old) call room.old }
        ensures same { IsSame self.old self.new }
        ensures capacity { Q.capacity_seen (seen self.new) ≡ Q.capacity_seen (seen self.old) }
        ensures taken { (n : ℕ) × (result ≡ C.after call given.now n)
            × (room.new ≡ C.kept call room.old n) }
        ensures told { (base : V) → D.at given.now base (seen self.old) call room.old
            → Next Q.capacity_seen (D.at given.now) (D.ends given.now) base
            result room.new (seen self.new) }
    {
        self.once::<Brand, C, D>(call, given, room)
    }

    /// Takes all steps of a call whose type has a measure that falls with each step (`Ends`).
    #[inline(always)]
    pub fn drive<C: Ends, D: Drives<V, C>>(
        &mut self,
        call: C,
        given: &C::Given,
        room: &mut C::Room,
    ) -> C::End
        requires table { IsAt Q.size Q.capacity Q.capacity_seen self.old }
        requires rule { KeepsRule Q.asked Q.capacity_seen (D.at given.now) (D.ends given.now) Q.size
            Q.capacity Q.holds (λ c. C.want_of c given.now) (λ c k. C.after c given.now k) C.kept }
        requires at { D.at given.now (seen self.old) (seen self.old) call room.old }
        ensures same { IsSame self.old self.new }
        ensures capacity { Q.capacity_seen (seen self.new) ≡ Q.capacity_seen (seen self.old) }
        ensures end { D.ends given.now (seen self.old) result room.new (seen self.new) }
    {
        // The first four steps stand before the loop, so that a compiler sees at each of
        // them the call's stage.
        let call = next_or_return!(self.once::<Brand, C, D>(call, given, room));
        let call = next_or_return!(self.once::<Brand, C, D>(call, given, room));
        let call = next_or_return!(self.once::<Brand, C, D>(call, given, room));
        let mut call = next_or_return!(self.once::<Brand, C, D>(call, given, room));
        loop {
            call = next_or_return!(self.once::<Brand, C, D>(call, given, room));
        }
    }

    /// Takes the first steps of a call, at most eight, in one line of code: a compiler sees at each of them the
    /// call's stage.
    #[inline(always)]
    fn drive_first<C: Routine, D: Drives<V, C>>(
        &mut self,
        call: C,
        given: &C::Given,
        room: &mut C::Room,
    ) -> After<C, C::End>
        requires table { IsAt Q.size Q.capacity Q.capacity_seen self.old }
        requires rule { KeepsRule Q.asked Q.capacity_seen (D.at given.now) (D.ends given.now) Q.size
            Q.capacity Q.holds (λ c. C.want_of c given.now) (λ c k. C.after c given.now k) C.kept }
        requires at { D.at given.now (seen self.old) (seen self.old) call room.old }
        ensures same { IsSame self.old self.new }
        ensures capacity { Q.capacity_seen (seen self.new) ≡ Q.capacity_seen (seen self.old) }
        ensures next { Next Q.capacity_seen (D.at given.now) (D.ends given.now) (seen self.old)
            result room.new (seen self.new) }
    {
        let call = next_or_stop!(self.once::<Brand, C, D>(call, given, room));
        let call = next_or_stop!(self.once::<Brand, C, D>(call, given, room));
        let call = next_or_stop!(self.once::<Brand, C, D>(call, given, room));
        let call = next_or_stop!(self.once::<Brand, C, D>(call, given, room));
        let call = next_or_stop!(self.once::<Brand, C, D>(call, given, room));
        let call = next_or_stop!(self.once::<Brand, C, D>(call, given, room));
        let call = next_or_stop!(self.once::<Brand, C, D>(call, given, room));
        self.once::<Brand, C, D>(call, given, room)
    }

    /// Takes the further steps of a call that did not end by its first ones. It is a function of its own, so
    /// that what its loop keeps in registers costs the calls nothing that end before.
    #[cold]
    #[inline(never)]
    fn drive_rest<C: Routine, D: Drives<V, C>>(
        &mut self,
        rt: &impl Wait,
        first: C,
        given: &C::Given,
        room: &mut C::Room,
    ) -> C::End
        requires table { IsAt Q.size Q.capacity Q.capacity_seen self.old }
        requires rule { KeepsRule Q.asked Q.capacity_seen (D.at given.now) (D.ends given.now) Q.size
            Q.capacity Q.holds (λ c. C.want_of c given.now) (λ c k. C.after c given.now k) C.kept }
        requires at { (base : V) × D.at given.now base (seen self.old) first room.old }
        ensures same { IsSame self.old self.new }
        ensures capacity { Q.capacity_seen (seen self.new) ≡ Q.capacity_seen (seen self.old) }
        ensures end { (base : V) → D.at given.now base (seen self.old) first room.old
            → D.ends given.now base result room.new (seen self.new) }
    {
        let mut call = first;
        'steps: for _ in rt.forever() {
            call = next_or_return!(self.once::<Brand, C, D>(call, given, room));
            'alike: for _ in rt.forever() {
                if !D::repeats(call) {
                    break;
                }
                call = next_or_return!(self.once::<Brand, C, D>(call, given, room));
            }
        }
        unreachable!()
    }

    /// Takes all steps of a call that may go back for as long as others step.
    #[inline(always)]
    pub fn drive_on<C: Routine, D: Drives<V, C>>(
        &mut self,
        rt: &impl Wait,
        call: C,
        given: &C::Given,
        room: &mut C::Room,
    ) -> C::End
        requires table { IsAt Q.size Q.capacity Q.capacity_seen self.old }
        requires rule { KeepsRule Q.asked Q.capacity_seen (D.at given.now) (D.ends given.now) Q.size
            Q.capacity Q.holds (λ c. C.want_of c given.now) (λ c k. C.after c given.now k) C.kept }
        requires at { D.at given.now (seen self.old) (seen self.old) call room.old }
        ensures same { IsSame self.old self.new }
        ensures capacity { Q.capacity_seen (seen self.new) ≡ Q.capacity_seen (seen self.old) }
        ensures end { D.ends given.now (seen self.old) result room.new (seen self.new) }
    {
        let first = self.drive_first::<C, D>(call, given, room);
        match first {
            After::GoOn(next) => self.drive_rest::<C, D>(rt, next, given, room),
            After::Done(end) => end,
        }
    }

    /// Takes at most `tries` steps of a call that may go back for as long as others step. Err has the call as it
    /// stands, with which the seat may go on later.
    #[inline(always)]
    pub fn drive_some<C: Routine, D: Drives<V, C>>(
        &mut self,
        tries: u64,
        first: C,
        given: &C::Given,
        room: &mut C::Room,
    ) -> Result<C::End, C>
        requires table { IsAt Q.size Q.capacity Q.capacity_seen self.old }
        requires rule { KeepsRule Q.asked Q.capacity_seen (D.at given.now) (D.ends given.now) Q.size
            Q.capacity Q.holds (λ c. C.want_of c given.now) (λ c k. C.after c given.now k) C.kept }
        requires at { (base : V) × D.at given.now base (seen self.old) first room.old }
        ensures same { IsSame self.old self.new }
        ensures capacity { Q.capacity_seen (seen self.new) ≡ Q.capacity_seen (seen self.old) }
        ensures end { IfOk result (λ e. (base : V) → D.at given.now base (seen self.old) first room.old
            → D.ends given.now base e room.new (seen self.new)) }
        ensures rest { IfErr result (λ c. (base : V) → D.at given.now base (seen self.old) first room.old
            → D.at given.now base (seen self.new) c room.new) }
    {
        let mut call = first;
        for _ in 0..tries {
            match self.once::<Brand, C, D>(call, given, room) {
                After::GoOn(next) => call = next,
                After::Done(end) => return Ok(end),
            }
        }
        Err(call)
    }
}
