//! Two threads ring bells, and a third listens. A bell is a flag of a bit set: to ring it sets the flag, to
//! hear it clears the flag. Proved: each bell began to ring as often as it was heard or still rings at the
//! end, and no bell that was rung is missing.

ghost use Rattle.std.specs.Prelude.{◌≡◌, ◌+◌, ℕ, [], IfSome};
ghost use Rattle.lock_free.specs.Bits.Calls.{set_of, IsPassOf, history, made, share, MissesNothing};
ghost use Rattle.lock_free.specs.Shares.{both_of, IsAll};
ghost use Rattle.lock_free.specs.Sums.{sets, clears};
ghost use Rattle.uses_programs.specs.Bells.{times, WereSet, CameOut, HasRung, BothRung, HearsMore};

use lock_free::mpmc::bit_set::{BitSet, Pass};
use std::alloc::Global;
use std::sync::Wait;
use std::thread::Threads;
use std::{io, thread};

/// A thread's pass of the bit set, and the bells that it set or cleared.
type Part = (Pass, Vec<usize>);

/// Rings these bells, one after another, and notes those that did not ring before. None where the set has no
/// such bell, or there is no memory.
fn ring(rt: &impl Wait, alloc: Global, set: &BitSet, pass: Pass, bells: &[usize]) -> Option<Part>
    requires { IsPassOf set.now pass × (made pass ≡ []) }
    ensures set { IfSome result (λ r. set_of r.0 ≡ set_of pass) }
    ensures share { IfSome result (λ r. share r.0 ≡ share pass) }
    ensures rung { IfSome result (λ r. HasRung r.1.items (made r.0)) }
    ensures all { IfSome result (λ r. WereSet bells.now (history r.0)) }
{
    let mut pass = pass;
    let mut rung = Vec::new(alloc);
    for at in 0..bells.len() {
        let bell = bells[at];
        if bell >= set.capacity() {
            return None;
        }
        if !set.set(rt, bell, &mut pass) {
            continue;
        }
        rung.push(bell).ok()?;
    }
    Some((pass, rung))
}

/// Looks `looks` times for a bell that rings, and hears each that it finds.
fn listen(rt: &impl Wait, alloc: Global, set: &BitSet, mut pass: Pass, looks: usize) -> Option<Part>
    requires { IsPassOf set.now pass }
    ensures set { IfSome result (λ h. set_of h.0 ≡ set_of pass) }
    ensures share { IfSome result (λ h. share h.0 ≡ share pass) }
    ensures heard { IfSome result (λ h. HearsMore [] h.1.items (made pass) (made h.0)) }
{
    let mut heard = Vec::new(alloc);
    for _ in 0..looks {
        match set.reset_next(rt, &mut pass) {
            Some(bell) => heard.push(bell).ok()?,
            None => continue,
        }
    }
    Some((pass, heard))
}

/// Hears all bells that still ring, once nobody else has a pass.
fn hear_rest(rt: &impl Wait, alloc: Global, set: &BitSet, mut pass: Pass) -> Option<Vec<usize>>
    requires { IsPassOf set.now pass × IsAll (share pass) × MissesNothing pass }
    ensures { IfSome result (λ h. (bell : ℕ) → sets bell (made pass) ≡ clears bell (made pass) + times bell h.items) }
{
    let mut heard = Vec::new(alloc);
    for _ in rt.forever() {
        match set.reset_next(rt, &mut pass) {
            Some(bell) => heard.push(bell).ok()?,
            None => {
                pass.history();
                return Some(heard);
            }
        }
    }
    unreachable!()
}

/// Rings bells in two threads. Returns the joined pass, and for each thread the bells that
/// did not ring before.
fn ring_both<R: Threads + Wait + Sync>(
    rt: &R,
    alloc: Global,
    set: &BitSet,
    mine: Pass,
    other: Pass,
    first: &[usize],
    second: &[usize],
) -> Option<(Pass, (Vec<usize>, Vec<usize>))>
    requires { IsPassOf set.now mine × IsPassOf set.now other × (made mine ≡ []) × (made other ≡ []) }
    ensures set { IfSome result (λ r. set_of r.0 ≡ set_of mine) }
    ensures share { IfSome result (λ r. share r.0 ≡ both_of (share mine) (share other)) }
    ensures rung { IfSome result (λ r. BothRung r.1.0.items r.1.1.items (made r.0)) }
    ensures all { IfSome result (λ r. WereSet first.now (history r.0) × WereSet second.now (history r.0)) }
{
    let (one, two) = thread::join(
        rt,
        move || ring(rt, alloc, set, mine, first),
        move || ring(rt, alloc, set, other, second),
    );
    let (mut pass, rung) = one?;
    let (further, also) = two?;
    pass.join(further);
    Some((pass, (rung, also)))
}

/// The bells that began to ring, by the thread that rang them, those that were heard, and those that still
/// rang at the end.
#[derive(Drop)]
pub struct Bells {
    pub began: (Vec<usize>, Vec<usize>),
    pub heard: Vec<usize>,
    pub left: Vec<usize>,
}

/// Two threads ring bells while a third looks `looks` times for a bell that rings. Each bell is heard, or
/// rings at the end, as often as it began to ring, and each bell that a thread rang is among them. None where
/// memory or a further pass is refused, or the set has no such bell.
pub fn ring_bells<R: Threads + Wait + Sync>(
    rt: &R,
    alloc: Global,
    bells: usize,
    first: &[usize],
    second: &[usize],
    looks: usize,
) -> Option<Bells>
    ensures same { IfSome result (λ r. (bell : ℕ) → times bell r.heard.items + times bell r.left.items
        ≡ times bell r.began.0.items + times bell r.began.1.items) }
    ensures all { IfSome result (λ r. CameOut r.heard.items r.left.items first.now × CameOut r.heard.items r.left.items second.now) }
{
    let Ok((set, mut mine)) = BitSet::new(alloc, bells) else {
        return None;
    };
    let ears = mine.split()?;
    let other = mine.split()?;
    let shared = &set;
    let (rung, heard) = thread::join(
        rt,
        move ||
            requires { IsPassOf shared.now mine × IsPassOf shared.now other × (made mine ≡ []) × (made other ≡ []) }
        { ring_both(rt, alloc, shared, mine, other, first, second) },
        move || listen(rt, alloc, shared, ears, looks),
    );
    let (mut pass, began) = rung?;
    let (listener, heard) = heard?;
    pass.join(listener);
    let left = hear_rest(rt, alloc, shared, pass)?;
    Some(Bells { began, heard, left })
}

/// Rings some bells of a hundred, and prints whether each was heard.
pub fn report<R: Threads + Wait + Print + Sync>(rt: &R, alloc: Global) -> io::Result<()> {
    let Some(bells) = ring_bells(rt, alloc, 100, &[1, 4, 64, 4, 7], &[4, 70, 1, 4], 5) else {
        return println!(rt; "no memory");
    };
    let began = bells.began.0.len() + bells.began.1.len();
    let heard = bells.heard.len() + bells.left.len();
    println!(rt; "as many were heard as began to ring: {}", began == heard)
}
