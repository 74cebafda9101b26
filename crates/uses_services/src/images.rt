//! Images of 64 KiB go from one thread to another, which reads them where they lie. Proved: what it reads are the shades of the images
//! 0, 1, 2 and so on, each once and in order.
ghost use Rattle.std.specs.Prelude.{◌≡◌, length, map, IfSome};
ghost use Rattle.std.specs.List.{range_with_len};
ghost use Rattle.zero_copy_loans.specs.Ends.{HasRead, HasSent};
ghost use Rattle.uses_services.specs.Images.{shade};

use std::alloc::Global;
use std::sync::Wait;
use std::thread::Threads;
use std::{io, thread};
use zero_copy_loans::channel::Channel;
use zero_copy_loans::receiver::{Reads, Receiver};
use zero_copy_loans::sender::{Sender, Writes};
use zero_copy_slots::Keeps;

const BYTES: usize = 1 << 16;

const IMAGES: u32 = 20;

/// Nothing is pushed out of a queue that has room for each place.
const PLACES: usize = 4;

/// How often a thread lets the other one run before it gives up.
const TRIES: u64 = 1 << 26;

/// The rule that an image is full of its shade, and who fills images so, and reads their shades.
#[derive(Drop)]
struct Shaded;

impl Keeps<Vec<u8>> for Shaded {
    ghost use Rattle.uses_services.specs.Images.{IsImageOf};

    ghost holds = { λ number image. IsImageOf number image.items };
}

impl Writes<Vec<u8>, Shaded> for Shaded {
    /// False where the image has another size.
    fn write(&mut self, number: u64, image: &mut Vec<u8>) -> bool {
        image.fill((number % 256) as u8);
        image.len() == BYTES
    }
}

impl Reads<Vec<u8>, Shaded, u8> for Shaded {
    ghost tells = { λ number byte. byte ≡ shade number };

    /// The first byte.
    fn read(&mut self, image: &Vec<u8>) -> Option<u8> {
        image.first().copied()
    }
}

/// Both ends at work side by side: the numbers of images that came back, and the shades of those that were read. None where an end fails.
fn work<R: Threads + Wait + Sync>(
    rt: &R,
    alloc: Global,
    sender: &mut Sender<'_, Vec<u8>, Shaded>,
    receiver: &mut Receiver<'_, Vec<u8>, Shaded>,
) -> Option<(Vec<u64>, Vec<u8>)>
    ensures sent { IfSome result (λ r. HasSent 20 r.0.items sender.old sender.new) }
    ensures read { IfSome result (λ r. HasRead (λ n byte. byte ≡ shade n) r.1.items receiver.old receiver.new) }
{
    let (back, came) = thread::join_mut(
        rt,
        &mut || sender.send_each(rt, alloc, IMAGES, TRIES, &mut Shaded),
        &mut || receiver.read_each(rt, alloc, IMAGES as usize, TRIES, &mut Shaded),
    );
    Some((back?, came?))
}

/// Sends the images from one thread to another: the shades that were read. None without memory, or where one came back or did not come.
fn run<R: Threads + Wait + Sync>(rt: &R, alloc: Global) -> Option<Vec<u8>>
    ensures { IfSome result (λ came. came.items ≡ map shade (range_with_len 0 (length came.items))) }
{
    let mut images = Vec::new(alloc);
    for _ in 0..PLACES + 1 {
        images.push(vec![in alloc; 0u8; BYTES].ok()?).ok()?;
    }
    let mut channel = Channel::<Vec<u8>, Shaded>::new(alloc, PLACES, PLACES).ok()?;
    let (sends, receives) = channel.open()?;
    let (mut sender, mut receiver) = channel.ends_with(alloc, images, sends, receives)?;
    let (back, came) = work(rt, alloc, &mut sender, &mut receiver)?;
    let (left, _) = sender.finish_all();
    let other = receiver.finish();
    channel.relayed(left, other);
    back.is_empty().then_some(came)
}

/// Sends the images, and prints how many were read whole and in order.
pub fn report<R: Threads + Wait + Print + Sync>(rt: &R, alloc: Global) -> io::Result<()> {
    match run(rt, alloc) {
        Some(came) => println!(rt; "images sent: {IMAGES}; whole and in order: {}", came.len()),
        None => println!(rt; "no memory"),
    }
}
