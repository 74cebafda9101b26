//! The head word of a unique index set.
ghost use Rattle.std.specs.Prelude.{◌≡◌, ◌<◌, ◌^◌};
ghost use Rattle.steps.specs.Indices.Head.{details, head_word};

/// The number of borrowed indices that says that the set is locked. After the Rust crate's `LOCK_ACQUIRE`.
pub const LOCK_ACQUIRE: u32 = 0xff_ffff;

/// What the head word of a unique index set says. After the Rust crate's `HeadDetails`.
#[derive(Debug, Clone, Copy, PartialEq, Eq)]
pub struct HeadDetails {
    /// The free index that is proposed next. It has 24 bits of the word, from bit 40 on.
    pub head: u32,
    /// It goes up by 1 at each exchange of the word, and wraps. It has 16 bits of the word, from bit 24 on.
    pub aba: u16,
    /// How many indices are handed out, or `LOCK_ACQUIRE` where the set is locked. It has 24 bits of the word, from
    /// bit 0 on.
    pub borrowed_indices: u32,
}

impl HeadDetails {
    /// What this word says. After `HeadDetails::from` of the Rust crate.
    #[inline(always)]
    pub fn from(value: u64) -> HeadDetails
        ensures { result ≡ details value }
    {
        HeadDetails {
            head: (value / 0x100_0000_0000) as u32,
            aba: (value / 0x100_0000 % 0x1_0000) as u16,
            borrowed_indices: (value % 0x100_0000) as u32,
        }
    }

    /// The word that says this. Bits of `head` and `borrowed_indices` from bit 24 on are dropped;
    /// where there are none, `from` gives back all three. After `HeadDetails::value` of the Rust crate.
    #[inline(always)]
    pub fn value(self) -> u64
        ensures word { result ≡ head_word self }
        ensures back { self.head < 2 ^ 24 → self.borrowed_indices < 2 ^ 24 → details result ≡ self }
    {
        self.head as u64 % 0x100_0000 * 0x100_0000_0000
            + self.aba as u64 * 0x100_0000
            + self.borrowed_indices as u64 % 0x100_0000
    }
}
