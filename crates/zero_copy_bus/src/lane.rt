//! The way between a publisher and one subscriber. Words of a record's number and its slot go out by an overflowing queue, and
//! slots come back by an index queue that has room for all of them.
ghost use Rattle.std.specs.Option.{ForSome};
ghost use Rattle.std.specs.Prelude.{◌≡◌, ◌-◌, ◌^◌, ◌<◌, false, None, IfSome, OnOk};
ghost use Rattle.steps.specs.Enums.{capacity_refusal};
ghost use Rattle.lock_free_queues.specs.Queues.Contracts.{HasReleased};
ghost use Rattle.history.specs.Views.{first_view};
ghost use Rattle.history.specs.Passes.{Goes};
ghost use Rattle.lock_free_queues.specs.Queues.Rings.{capacity_of, consumer_queue, consumer_view, producer_view, queue_of, view, IsPassOf};
ghost use Rattle.steps.specs.declared.queues.roles.Role.TheVariants as roles;
ghost use Rattle.zero_copy_bus.specs.Holders.{bit_of};

use crate::holders::Holder;
use crate::outlet::Outlet;
use lock_free_queues::spsc::index_queue::IndexQueue;
use lock_free_queues::spsc::safely_overflowing_index_queue::SafelyOverflowingIndexQueue;
use lock_free_queues::spsc::{index_queue, safely_overflowing_index_queue as overflow};
use lock_free_sets::mpmc::unique_index_set_enums::UniqueIndexCreationError;
use std::alloc::Global;

/// The two queues of a lane, each with a pass. The publisher's end takes the pass of `submission` whole, and
/// one that is split off that of `completion`.
pub struct Lane {
    submission: SafelyOverflowingIndexQueue,
    sending: Option<overflow::Pass>,
    completion: IndexQueue,
    returning: index_queue::Pass,
    ghost submits: { ForSome sending (λ p. IsPassOf submission p) },
    ghost fresh: { ForSome sending (λ p. view p ≡ first_view (capacity_of submission)) },
    ghost completes: { IsPassOf completion returning },
}

impl Drop for Lane {
    fn drop(self) {
        let Self {
            submission: _submission,
            sending: _sending,
            completion: _completion,
            returning: _returning,
        } = self;
    }
}

impl Lane {
    ghost use Rattle.zero_copy_bus.specs.Outlets.{holder_of, is_open, IsNew};
    ghost use Rattle.zero_copy_bus.specs.Lanes.{completion_of, submission_of};

    /// A lane for `slots` slots, of which at most `queue` wait for the subscriber.
    pub fn new(alloc: Global, slots: usize, queue: usize) -> Result<Lane, UniqueIndexCreationError>
        ensures { OnOk result (capacity_refusal 0 (2 ^ 32 - 1) queue ≡ None) }
    {
        let (submission, sending) = SafelyOverflowingIndexQueue::new(alloc, queue)?;
        let (completion, returning) = IndexQueue::new(alloc, slots)?;
        Ok(Lane {
            submission,
            sending: Some(sending),
            completion,
            returning,
        })
    }

    /// The publisher's end, for the subscriber of this bit in the table of slots. None where the end was made
    /// before, the role that takes slots back is held, or no further pass can be counted.
    pub fn outlet(&mut self, holder: Holder) -> Option<Outlet<'_>>
        requires subscribes { 0 < bit_of holder }
        ensures holder { IfSome result (λ o. holder_of o ≡ holder) }
        ensures closed { IfSome result (λ o. is_open o ≡ false) }
        ensures fresh { IfSome result IsNew }
    {
        let waits = self.sending.take()?;
        let takes = self.returning.split()?;
        self.outlet_with(holder, waits, takes)
    }

    /// The publisher's end, of these passes of the two queues.
    fn outlet_with(
        &self,
        holder: Holder,
        waits: overflow::Pass,
        takes: index_queue::Pass,
    ) -> Option<Outlet<'_>>
        requires subscribes { 0 < bit_of holder }
        requires waits { queue_of waits ≡ submission_of self.now }
        requires fresh { view waits ≡ first_view (submission_of self.now).capacity }
        requires takes { queue_of takes ≡ completion_of self.now }
        ensures holder { IfSome result (λ o. holder_of o ≡ holder) }
        ensures closed { IfSome result (λ o. is_open o ≡ false) }
        ensures fresh { IfSome result IsNew }
    {
        Outlet::of(
            holder,
            &self.submission,
            waits,
            self.completion.handle(takes),
        )
    }
}

/// The subscriber's end of a lane: the guard that receives words, and the guard that gives slots back.
pub struct Inlet<'a> {
    pub receives: overflow::Consumer<'a>,
    pub returns: index_queue::Producer<'a>,
}

impl<'a> Drop for Inlet<'a> {
    fn drop(self) {
        let Self {
            receives: _receives,
            returns: _returns,
        } = self;
    }
}

impl<'a> Inlet<'a> {
    /// Gives both roles back, and hands the passes out.
    pub fn release(self) -> (overflow::Pass, index_queue::Pass)
        ensures queue { queue_of result.0 ≡ consumer_queue self.entry.receives }
        ensures goes { Goes (consumer_view self.entry.receives) (view result.0) }
        ensures receives { HasReleased roles.Consumer (consumer_view self.entry.receives) (view result.0) }
        ensures returns { HasReleased roles.Producer (producer_view self.entry.returns) (view result.1) }
    {
        let Self { receives, returns } = self;
        (receives.release(), returns.release())
    }
}
