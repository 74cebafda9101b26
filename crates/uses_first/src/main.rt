//! The program of README.md: one thread pushes a number and another pops. A pop beside the push may come too early and find
//! nothing, so there is another one once both threads have ended.
#![tactic(auto)]

use lock_free_sp::spsc::index_queue::IndexQueue;
use std::{io, thread};

fn main(rt: HostRuntime) -> io::Result<()> {
    let Ok((queue, pass)) = IndexQueue::new(rt.alloc(), 8) else {
        return println!(rt; "no memory");
    };
    let Some((mut producer, mut consumer)) = queue.ends(pass) else {
        return println!(rt; "no further pass");
    };
    let (pushed, popped) = thread::join(&rt, || producer.push(7), || consumer.pop());
    let number = popped.or_else(|| consumer.pop());
    println!(rt; "pushed: {pushed}, popped: {number:?}")
}
