//! Who holds a slot: the publisher, whose bit is 0, and the subscribers, whose bits follow by their places.
ghost use Rattle.std.specs.Prelude.{◌≡◌, ◌+◌, ◌-◌, ◌<◌, ◌↔◌, true, false, not, IsTrue, IfSome, IsSome};

/// How many subscribers have a bit.
pub const MOST_SUBSCRIBERS: usize = 63;

/// The publisher or a subscriber, by its bit in a word of holders.
#[derive(Clone, Copy, Debug, PartialEq, Eq)]
pub struct Holder {
    bit: u32,
    ghost within: { bit < 64 },
}

/// All who hold a slot, as a word with a bit for each.
#[derive(Clone, Copy, Debug, PartialEq, Eq)]
pub struct Holders {
    bits: u64,
}

impl Holder {
    ghost use Rattle.zero_copy_bus.specs.Holders.{bit_of, publisher};

    /// The publisher.
    pub fn publisher() -> Holder
        ensures { result ≡ publisher }
    {
        Holder { bit: 0 }
    }

    /// The subscriber at this place, or None where no bit is left for it.
    pub fn subscriber(place: usize) -> Option<Holder>
        ensures bit { IfSome result (λ h. bit_of h ≡ place + 1) }
        ensures within { IsSome result ↔ (place < 63) }
    {
        if place < MOST_SUBSCRIBERS {
            Some(Holder {
                bit: place as u32 + 1,
            })
        } else {
            None
        }
    }

    /// The subscriber's place.
    pub fn place(self) -> u64
        ensures { result ≡ bit_of self - 1 }
    {
        (self.bit as u64).saturating_sub(1)
    }
}

impl Holders {
    ghost use Rattle.zero_copy_bus.specs.Holders.{is_held, nobody, Has, SameBut};

    /// The holders of a slot that nobody holds.
    pub fn nobody() -> Holders
        ensures { result ≡ nobody }
    {
        Holders { bits: 0 }
    }

    /// Whether at least one holds the slot.
    pub fn is_somebody(self) -> bool
        ensures { result ≡ is_held self }
    {
        self.bits > 0
    }

    /// Whether this holder is among them.
    pub fn has(self, holder: Holder) -> bool
        ensures { IsTrue result ↔ Has self holder }
    {
        (self.bits >> holder.bit) & 1 == 1
    }

    /// These holders and this one.
    pub fn with(self, holder: Holder) -> Holders
        ensures has { Has result holder }
        ensures held { is_held result ≡ true }
        ensures others { SameBut holder self result }
    {
        Holders {
            bits: self.bits | (1 << holder.bit),
        }
    }

    /// These holders without this one.
    pub fn without(self, holder: Holder) -> Holders
        ensures lacks { ¬ Has result holder }
        ensures others { SameBut holder self result }
    {
        Holders {
            bits: self.bits & !(1 << holder.bit),
        }
    }
}
