//! Which topics have news: a flag for each topic, which stands from a notice until a listener takes it down.
//! So a listener to many topics looks at one bit set, and not at the queue of each topic.
ghost use Rattle.std.specs.Prelude.{◌≡◌, ◌-◌, ◌^◌, ◌<◌, ◌↔◌, None, IsTrue, IsFalse, IfOk, IfSome, OnOk};
ghost use Rattle.lock_free_sets.specs.Bits.Calls.{IsPassOf};
ghost use Rattle.lock_free_sets.specs.Bits.Contracts.{AllClearOnce, HasReset};
ghost use Rattle.steps.specs.Enums.{capacity_refusal};

use lock_free_sets::mpmc::bit_set::{BitSet, Handle, Pass};
use lock_free_sets::mpmc::unique_index_set_enums::UniqueIndexCreationError;
use std::alloc::Global;
use std::sync::Wait;

/// The flags of all topics, with a pass of which one is split off for each notifier and listener.
pub struct News {
    flags: BitSet,
    pass: Pass,
    ghost of: { IsPassOf flags pass },
}

impl Drop for News {
    fn drop(self) {
        let Self {
            flags: _flags,
            pass: _pass,
        } = self;
    }
}

impl News {
    ghost use Rattle.zero_copy_bus.specs.News.{topics_heard, topics_of, topics_notified};

    /// A flag for each of up to 2^32 - 1 topics, none of which stands. Refused where `BitSet::new`
    /// refuses the capacity.
    pub fn new(alloc: Global, topics: usize) -> Result<News, UniqueIndexCreationError>
        ensures topics { IfOk result (λ n. topics_of n ≡ topics) }
        ensures admitted { OnOk result (capacity_refusal 0 (2 ^ 32 - 1) topics ≡ None) }
    {
        let (flags, pass) = BitSet::new(alloc, topics)?;
        Ok(News { flags, pass })
    }

    /// An end that tells of news, and one that takes them. None where no further pass can be counted.
    pub fn ends(&mut self) -> Option<(Notifier<'_>, Listener<'_>)>
        ensures notified { IfSome result (λ e. topics_notified e.0 ≡ topics_of self.old) }
        ensures heard { IfSome result (λ e. topics_heard e.1 ≡ topics_of self.old) }
    {
        let tells = self.pass.split()?;
        let hears = self.pass.split()?;
        Some(self.ends_with(tells, hears))
    }

    /// Both ends, of these passes of the flags.
    fn ends_with(&self, tells: Pass, hears: Pass) -> (Notifier<'_>, Listener<'_>)
        requires tells { IsPassOf self.now.flags tells }
        requires hears { IsPassOf self.now.flags hears }
        ensures notified { topics_notified result.0 ≡ topics_of self.now }
        ensures heard { topics_heard result.1 ≡ topics_of self.now }
    {
        let notifier = Notifier {
            flags: self.flags.handle(tells),
        };
        let listener = Listener {
            flags: self.flags.handle(hears),
        };
        (notifier, listener)
    }
}

/// The end that tells that a topic has news.
pub struct Notifier<'a> {
    flags: Handle<'a>,
}

impl<'a> Drop for Notifier<'a> {
    fn drop(self) {
        let Self { flags: _flags } = self;
    }
}

impl<'a> Notifier<'a> {
    ghost use Rattle.zero_copy_bus.specs.News.{notifier_view, topics_notified, HasNotified};

    /// Another notifier of the same topics. None where no further pass can be counted.
    pub fn split(&mut self) -> Option<Notifier<'a>>
        ensures same { topics_notified self.new ≡ topics_notified self.old }
        ensures new { IfSome result (λ n. topics_notified n ≡ topics_notified self.old) }
    {
        let flags = self.flags.split()?;
        Some(Notifier { flags })
    }

    /// Tells that a topic has news: its flag is set, or stood at a moment of the call. False where there is no such topic.
    pub fn notify(&mut self, rt: &impl Wait, topic: usize) -> bool
        ensures answer { IsTrue result ↔ (topic < topics_notified self.old) }
        ensures set { IsTrue result → HasNotified topic (notifier_view self.old) (notifier_view self.new) }
        ensures none { IsFalse result → notifier_view self.new ≡ notifier_view self.old }
        ensures same { topics_notified self.new ≡ topics_notified self.old }
    {
        if topic >= self.flags.capacity() {
            return false;
        }
        self.flags.set(rt, topic);
        true
    }
}

/// The end that takes news: it finds a topic whose flag stands, and takes the flag down.
pub struct Listener<'a> {
    flags: Handle<'a>,
}

impl<'a> Drop for Listener<'a> {
    fn drop(self) {
        let Self { flags: _flags } = self;
    }
}

impl<'a> Listener<'a> {
    ghost use Rattle.zero_copy_bus.specs.News.{listener_view, topics_heard};

    /// Another listener to the same topics: each notice is taken by one of them. None where no further pass
    /// can be counted.
    pub fn split(&mut self) -> Option<Listener<'a>>
        ensures same { topics_heard self.new ≡ topics_heard self.old }
        ensures new { IfSome result (λ l. topics_heard l ≡ topics_heard self.old) }
    {
        let flags = self.flags.split()?;
        Some(Listener { flags })
    }

    /// The next topic that has news, whose flag it takes down. None where the flag of each was down at a moment of the call.
    pub fn next(&mut self, rt: &impl Wait) -> Option<usize>
        ensures topic { IfSome result (λ topic. topic < topics_heard self.old) }
        ensures cleared { HasReset result (listener_view self.old) (listener_view self.new) }
        ensures none { result ≡ None → AllClearOnce (topics_heard self.old) (listener_view self.new) }
        ensures same { topics_heard self.new ≡ topics_heard self.old }
    {
        self.flags.reset_next(rt)
    }
}
