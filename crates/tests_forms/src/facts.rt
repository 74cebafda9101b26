//! Calls of a script that belong to no structure: the head word of a unique index set, owners, the order of
//! handles, failures and modes.
use crate::lines::{Answer, Answers, Call, owner};
use std::cmp::Ordering;
use std::sync::Wait;
use steps::container::enums::ContainerAddFailure;
use steps::container::handle::ContainerHandle;
use steps::enums::OwnerId;
use steps::indices::enums::{ReleaseMode, UniqueIndexSetAcquireFailure};
use steps::indices::head::{HeadDetails, LOCK_ACQUIRE};

/// Adds the three parts of this head word: the first free index, the number against ABA, and how
/// many indices are borrowed.
fn say_head(word: u64, answer: &mut Answer) {
    let details = HeadDetails::from(word);
    answer.number(details.head as u64);
    answer.number(details.aba as u64);
    answer.number(details.borrowed_indices as u64);
}

/// Adds the number of the owner that this number makes, or why there is none.
fn say_owner(number: u64, answer: &mut Answer) {
    match OwnerId::new(number) {
        Ok(owner) => answer.number(owner.value()),
        Err(_) => answer.word("InvalidOwnerValue"),
    }
}

/// Adds the failure of an `add` to a container whose set refused an index for this reason.
fn say_failure(failure: UniqueIndexSetAcquireFailure, answer: &mut Answer) {
    answer.word(match ContainerAddFailure::from(failure) {
        ContainerAddFailure::OutOfSpace => "OutOfSpace",
        ContainerAddFailure::IsLocked => "IsLocked",
    });
}

/// A handle of this index, of the owner of this number, and of the container of this number.
fn handle(index: u64, number: u64, container: u64) -> ContainerHandle {
    ContainerHandle {
        index: (index & 0xffff_ffff) as u32,
        owner: owner(number),
        container,
    }
}

/// Adds how two handles compare, each given by three numbers of the call.
fn say_order(call: Call<'_>, answer: &mut Answer) {
    let [index, owner, container, other_index, other_owner, other] = call.numbers;
    let one = handle(index, owner, container);
    answer.word(match one.cmp(&handle(other_index, other_owner, other)) {
        Ordering::Less => "less",
        Ordering::Equal => "equal",
        Ordering::Greater => "greater",
    });
}

/// What answers these calls in place of a structure.
#[derive(Drop)]
pub struct Facts;

impl Answers for Facts {
    fn answer(&mut self, _rt: &impl Wait, call: Call<'_>, answer: &mut Answer) {
        let head = HeadDetails {
            head: (call.numbers[0] & 0xffff_ffff) as u32,
            aba: (call.numbers[1] & 0xffff) as u16,
            borrowed_indices: (call.numbers[2] & 0xffff_ffff) as u32,
        };
        match call.name {
            "head_value" => answer.number(head.value()),
            "head_from" => say_head(call.numbers[0], answer),
            "lock_acquire" => answer.number(LOCK_ACQUIRE as u64),
            "owner_id" => say_owner(call.numbers[0], answer),
            "add_out_of_indices" => say_failure(UniqueIndexSetAcquireFailure::OutOfIndices, answer),
            "add_locked" => say_failure(UniqueIndexSetAcquireFailure::IsLocked, answer),
            "release_mode" => answer.word(match ReleaseMode::default() {
                ReleaseMode::Default => "Default",
                ReleaseMode::LockIfLastIndex => "LockIfLastIndex",
            }),
            "order" => say_order(call, answer),
            _ => {}
        }
    }
}
