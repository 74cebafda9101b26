//! Four threads take buffers of one pool at the same time, each as many as it asks for, and fill them. Proved: of all
//! buffers that they hold then no two are the same one, and once they are given back none is out.

ghost use Rattle.std.specs.Prelude.{◌≡◌, ◌≢◌, AllPairs, IfSome, []};
ghost use Rattle.lock_free.specs.UniqueIndexSet.{view, made, IsPassOf};
ghost use Rattle.lock_free.specs.Unique.Held.{HeldBy, IsSound};
ghost use Rattle.lock_free.specs.Unique.Pools.{Holding};

use lock_free::mpmc::unique_index_set::{Pass, UniqueIndexSet};
use std::alloc::Global;
use std::sync::{Mutex, Wait};
use std::thread::Threads;
use std::{io, thread};

/// How many bytes a buffer has.
const BYTES: usize = 64;

/// How many buffers a thread asks for, and the byte that it fills them with.
#[derive(Clone, Copy)]
pub struct Order {
    pub number: usize,
    pub byte: u8,
}

/// A buffer for each index. Nobody waits for its lock, since only who holds the index looks at it.
fn make_buffers(alloc: Global, number: usize) -> Option<Vec<Mutex<[u8; BYTES]>>> {
    let mut buffers = Vec::new(alloc);
    for _ in 0..number {
        buffers.push(Mutex::new([0; BYTES])).ok()?;
    }
    Some(buffers)
}

/// Fills a buffer with this byte.
fn fill(buffers: &[Mutex<[u8; BYTES]>], index: u32, byte: u8) -> Option<()> {
    let buffer = buffers.get(index as usize)?;
    let mut bytes = buffer.try_lock()?;
    for at in 0..BYTES {
        bytes[at] = byte;
    }
    Some(())
}

/// Takes as many buffers as the order asks for, and fills them. They are then all that the pass holds. None
/// where fewer are free, or there is no memory.
fn take(
    rt: &impl Wait,
    alloc: Global,
    set: &UniqueIndexSet,
    buffers: &[Mutex<[u8; BYTES]>],
    mut pass: Pass,
    order: Order,
) -> Option<(Pass, Vec<u32>)>
    requires pass { IsPassOf set.now pass }
    requires none { made pass ≡ [] }
    ensures { IfSome result (λ t. Holding pass t.1.items t.0) }
{
    let mut indices = Vec::new(alloc);
    for _ in 0..order.number {
        let Ok(index) = set.acquire_raw_index(rt, &mut pass) else {
            return None;
        };
        fill(buffers, index, order.byte)?;
        indices.push(index).ok()?;
    }
    Some((pass, indices))
}

/// Takes the buffers of two orders, in a thread each.
fn take_two<R: Threads + Wait + Sync>(
    rt: &R,
    alloc: Global,
    set: &UniqueIndexSet,
    buffers: &[Mutex<[u8; BYTES]>],
    mut pass: Pass,
    orders: [Order; 2],
) -> Option<(Pass, Vec<u32>)>
    requires pass { IsPassOf set.now pass }
    requires none { made pass ≡ [] }
    ensures { IfSome result (λ t. Holding pass t.1.items t.0) }
{
    let other = pass.split()?;
    let (first, second) = (orders[0], orders[1]);
    let (one, two) = thread::join(
        rt,
        move || take(rt, alloc, set, buffers, pass, first),
        move || take(rt, alloc, set, buffers, other, second),
    );
    let (mut joined, mut indices) = one?;
    let (further, those) = two?;
    joined.join(further);
    indices.extend_from_slice(&those).ok()?;
    Some((joined, indices))
}

/// Takes the buffers of four orders, in a thread each.
fn take_four<R: Threads + Wait + Sync>(
    rt: &R,
    alloc: Global,
    set: &UniqueIndexSet,
    buffers: &[Mutex<[u8; BYTES]>],
    mut pass: Pass,
    orders: [Order; 4],
) -> Option<(Pass, Vec<u32>)>
    requires pass { IsPassOf set.now pass }
    requires none { made pass ≡ [] }
    ensures held { IfSome result (λ t. Holding pass t.1.items t.0) }
    ensures sound { IfSome result (λ t. IsSound (view t.0)) }
{
    let other = pass.split()?;
    let (front, back) = ([orders[0], orders[1]], [orders[2], orders[3]]);
    let (one, two) = thread::join(
        rt,
        move ||
            requires { IsPassOf set.now pass × (made pass ≡ []) }
        { take_two(rt, alloc, set, buffers, pass, front) },
        move ||
            requires { IsPassOf set.now other × (made other ≡ []) }
        { take_two(rt, alloc, set, buffers, other, back) },
    );
    let (mut joined, mut indices) = one?;
    let (further, those) = two?;
    joined.join(further);
    indices.extend_from_slice(&those).ok()?;
    Some((joined, indices))
}

/// Gives these buffers back, which are all that the pass holds.
fn give_back(set: &UniqueIndexSet, pass: &mut Pass, indices: &[u32])
    requires pass { IsPassOf set.now pass.old }
    requires sound { IsSound (view pass.old) }
    requires held { HeldBy indices.now (made pass.old) }
    ensures { Holding pass.old [] pass.new }
{
    for at in 0..indices.len() {
        set.release_raw_index(indices[at], pass);
    }
}

/// What four threads held at the same time, and how many buffers were out once all were given back.
#[derive(Drop)]
pub struct Held {
    pub indices: Vec<u32>,
    pub left: usize,
}

/// Four threads take buffers of one pool, as they are asked, and hold them until all have theirs: no two are the same one.
/// Then all are given back, and none is out. None where there is no memory, or a thread did not get its buffers.
pub fn hold_buffers<R: Threads + Wait + Sync>(
    rt: &R,
    alloc: Global,
    number: usize,
    orders: [Order; 4],
) -> Option<Held>
    ensures apart { IfSome result (λ h. AllPairs (λ i j. i ≢ j) h.indices.items) }
    ensures none { IfSome result (λ h. h.left ≡ 0) }
{
    let buffers = make_buffers(alloc, number)?;
    let Ok((set, pass)) = UniqueIndexSet::new(alloc, number) else {
        return None;
    };
    let (mut held, indices) = take_four(rt, alloc, &set, buffers.as_slice(), pass, orders)?;
    give_back(&set, &mut held, &indices);
    let left = set.borrowed_indices(&mut held);
    Some(Held { indices, left })
}

/// Holds eight buffers in four threads, and prints how many they had.
pub fn report<R: Threads + Wait + Print + Sync>(rt: &R, alloc: Global) -> io::Result<()> {
    let order = |number, byte| Order { number, byte };
    match hold_buffers(
        rt,
        alloc,
        8,
        [order(3, 1), order(1, 2), order(2, 3), order(2, 4)],
    ) {
        Some(held) => println!(rt;
            "{} buffers were held by four threads; {} are out now",
            held.indices.len(),
            held.left
        ),
        None => println!(rt; "no memory, or no buffer"),
    }
}
