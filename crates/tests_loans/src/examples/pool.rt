//! A pool of buffers, which two threads share: what BUS.md shows.

use std::alloc::Global;
use std::sync::Wait;
use std::test::Fail;
use std::thread;
use zero_copy_loans::pool::{Lender, Pool};

/// Takes a buffer, fills it, and puts it back. Returns whether it did.
fn fill(rt: &impl Wait, alloc: Global, lender: &mut Lender<'_, Vec<u8>>, byte: u8) -> bool {
    let Ok(mut buffer) = lender.acquire(rt) else {
        return false;
    };
    match &mut buffer.value {
        Some(bytes) => bytes.fill(byte),
        None => buffer.value = vec![in alloc; byte; 4096].ok(),
    }
    buffer.give_back().is_ok()
}

/// Takes a buffer, and returns the first byte that lies there. It is dropped here, and its place is empty then.
fn first(rt: &impl Wait, lender: &mut Lender<'_, Vec<u8>>) -> Option<u8> {
    let buffer = lender.acquire(rt).ok()?;
    buffer.value.as_ref()?.first().copied()
}

#[test]
fn two_share_a_pool(rt: HostRuntime) -> Result<(), Fail> {
    let mut pool = Pool::new(rt.alloc(), 2)?;
    let mut lender = pool.lender().ok_or("no further pass")?;
    let mut other = lender.split().ok_or("no further pass")?;
    let alloc = rt.alloc();
    let filled = thread::join(
        &rt,
        || fill(&rt, alloc, &mut lender, 7),
        || fill(&rt, alloc, &mut other, 7),
    );
    assert!(rt; filled == (true, true));
    assert!(rt; first(&rt, &mut lender) == Some(7));
    Ok(())
}
