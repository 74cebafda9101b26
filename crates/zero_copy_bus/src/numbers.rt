//! How many records a reader has missed, by their numbers.
ghost use Rattle.std.specs.Prelude.{◌≡◌, ◌+◌, ◌-◌, ◌^◌, ◌<◌, ◌⊎◌, IfSome, IfNone};

/// What a reader has seen of the numbers of records: which it expects next.
#[derive(Clone, Copy, Debug, PartialEq, Eq)]
pub struct Sequence {
    next: u64,
}

impl Sequence {
    ghost use Rattle.zero_copy_bus.specs.Sequences.{expected};

    /// A sequence that expects this number next.
    pub fn from(next: u64) -> Sequence
        ensures { expected result ≡ next }
    {
        Sequence { next }
    }

    /// The number that is expected next.
    pub fn expected(&self) -> u64
        ensures { result ≡ expected self.now }
    {
        self.next
    }

    /// A record of this number was read: how many were missed before it, from the one that was expected on. The one behind it is
    /// expected from now on. None where the number is below the one expected, or is 2^64 - 1; then nothing changes.
    pub fn follow(&mut self, number: u64) -> Option<u64>
        ensures missed { IfSome result (λ missed. number ≡ expected self.old + missed) }
        ensures next { IfSome result (λ missed. expected self.new ≡ number + 1) }
        ensures none { IfNone result ((number < expected self.old) ⊎ (number ≡ 2 ^ 64 - 1)) }
        ensures same { IfNone result (expected self.new ≡ expected self.old) }
    {
        let missed = number.checked_sub(self.next)?;
        self.next = number.checked_add(1)?;
        Some(missed)
    }
}
