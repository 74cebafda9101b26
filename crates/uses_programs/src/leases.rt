//! Two holders lease indices of one pool at the same time, each in a thread and as an owner of its own. The second one
//! dies with its leases in hand; the first one recovers them, gives back its own, and so closes the pool. Proved: of all
//! indices that both hold then no two are the same one, and who has seen the pool closed gets none.

ghost use Rattle.std.specs.Prelude.{◌≡◌, ◌≢◌, ◌<◌, true, false, [], All, AllPairs, IfSome};
ghost use Rattle.lock_free.specs.RobustUniqueIndexSet.{capacity_of, made, share, set_of, IsPassOf};
ghost use Rattle.uses_programs.specs.Leases.{HasLeased};

use lock_free::mpmc::robust_unique_index_set::{OwnerId, Pass, RobustUniqueIndexSet};
use lock_free::mpmc::unique_index_set_enums::ReleaseMode;
use lock_free::owner_laws;
use std::alloc::Global;
use std::sync::Wait;
use std::thread::Threads;
use std::{io, thread};

/// Leases `number` indices for this owner, which are then all that the pass has leased. None where fewer are
/// free, or there is no memory.
fn lease(
    rt: &impl Wait,
    alloc: Global,
    pool: &RobustUniqueIndexSet,
    mut pass: Pass,
    owner: OwnerId,
    number: usize,
) -> Option<(Pass, Vec<usize>)>
    requires pass { IsPassOf pool.now pass }
    requires none { made pass ≡ [] }
    ensures set { IfSome result (λ l. set_of l.0 ≡ set_of pass) }
    ensures share { IfSome result (λ l. share l.0 ≡ share pass) }
    ensures within { IfSome result (λ l. All (λ i. i < capacity_of pool.now) l.1.items) }
    ensures leased { IfSome result (λ l. HasLeased l.1.items (made l.0)) }
{
    let mut indices = Vec::new(alloc);
    for _ in 0..number {
        let index = pool.acquire(rt, owner, &mut pass).ok()?;
        indices.push(index).ok()?;
    }
    Some((pass, indices))
}

/// Recovers the indices that the dead owner had leased. Returns how many came back.
fn recover(rt: &impl Wait, pool: &RobustUniqueIndexSet, pass: &mut Pass, dead: OwnerId) -> usize
    requires { IsPassOf pool.now pass.old }
    ensures { set_of pass.new ≡ set_of pass.old }
{
    let mut number = 0usize;
    pool.recover(
        rt,
        ReleaseMode::Default,
        &mut |owner, _| owner == dead,
        &mut |_, _| number = number.wrapping_add(1),
        pass,
    );
    number
}

/// Gives back all indices that the owner has leased. The release of the last one closes the pool.
fn give_back(
    rt: &impl Wait,
    pool: &RobustUniqueIndexSet,
    pass: &mut Pass,
    owner: OwnerId,
    indices: &[usize],
)
    requires pass { IsPassOf pool.now pass.old }
    requires within { All (λ i. i < capacity_of pool.now) indices.now }
    ensures { set_of pass.new ≡ set_of pass.old }
{
    for at in 0..indices.len() {
        let _ = pool.release(rt, indices[at], owner, ReleaseMode::LockIfLastIndex, pass);
    }
}

/// What became of the leases: how many came back by the recovery, and how many were out then; whether the first one
/// closed the pool, and whether another got an index then.
#[derive(Clone, Copy)]
pub struct End {
    pub recovered: usize,
    pub out: usize,
    pub closed: bool,
    pub late: bool,
}

/// An owner recovers what the dead one had leased, and gives back its own; then another wants an index.
fn outlive(
    rt: &impl Wait,
    pool: &RobustUniqueIndexSet,
    pass: &mut Pass,
    owner: OwnerId,
    indices: &[usize],
    dead: OwnerId,
    another: OwnerId,
) -> End
    requires pass { IsPassOf pool.now pass.old }
    requires within { All (λ i. i < capacity_of pool.now) indices.now }
    ensures { result.closed ≡ true → result.late ≡ false }
{
    let recovered = recover(rt, pool, pass, dead);
    let out = pool.borrowed_indices(rt, pass);
    give_back(rt, pool, pass, owner, indices);
    let closed = pool.is_locked(pass);
    let late = pool.acquire(rt, another, pass).is_ok();
    End {
        recovered,
        out,
        closed,
        late,
    }
}

/// The indices that both held at the same time, those of the first owner before those of the second, and what
/// became of them.
#[derive(Drop)]
pub struct Leases {
    pub first: usize,
    pub indices: Vec<usize>,
    pub end: End,
}

/// Two owners lease `first` and `second` indices of one pool, and hold them until both have theirs: no two
/// indices are the same. Then the second owner dies. None where memory or a further pass is refused, or a
/// thread did not get its indices.
pub fn lend_and_recover<R: Threads + Wait + Sync>(
    rt: &R,
    alloc: Global,
    number: usize,
    first: usize,
    second: usize,
) -> Option<Leases>
    ensures apart { IfSome result (λ l. AllPairs (λ i j. i ≢ j) l.indices.items) }
    ensures closed { IfSome result (λ l. l.end.closed ≡ true → l.end.late ≡ false) }
{
    let owner = OwnerId::new(1).ok()?;
    let dying = OwnerId::new(2).ok()?;
    let another = OwnerId::new(3).ok()?;
    let Ok((pool, mut mine)) = RobustUniqueIndexSet::new(alloc, number) else {
        return None;
    };
    let other = mine.split()?;
    let shared = &pool;
    let (one, two) = thread::join(
        rt,
        move || lease(rt, alloc, shared, mine, owner, first),
        move || lease(rt, alloc, shared, other, dying, second),
    );
    let (mut pass, mut indices) = one?;
    let (further, those) = two?;
    pass.join(further);
    pass.history();
    owner_laws::histories_are_sound();
    let end = outlive(rt, &pool, &mut pass, owner, &indices, dying, another);
    let first = indices.len();
    indices.extend_from_slice(&those).ok()?;
    Some(Leases {
        first,
        indices,
        end,
    })
}

/// Leases eight indices in two threads, and prints what became of them.
pub fn report<R: Threads + Wait + Print + Sync>(rt: &R, alloc: Global) -> io::Result<()> {
    let Some(leases) = lend_and_recover(rt, alloc, 8, 3, 5) else {
        return println!(rt; "no memory, or no index");
    };
    let (first, all, end) = (leases.first, leases.indices.len(), leases.end);
    println!(rt; "the first {first} of {all} indices were leased by one, the rest by the other")?;
    println!(rt;
        "the other died, and {} came back; {} are out now",
        end.recovered, end.out
    )?;
    println!(rt;
        "the first one gave back its own, and closed the pool: {}",
        end.closed
    )?;
    println!(rt; "another got an index then: {}", end.late)
}
