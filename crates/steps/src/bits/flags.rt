//! Flags, 64 to a word.
ghost use Rattle.std.specs.Prelude.{◌≡◌, ◌≢◌, ℕ, ◌^◌, IsTrue, IsFalse};
ghost use Rattle.steps.specs.Bits.Words.{bit_of, element_of, elements, has_flag, with_flag, without_flag};

/// The word of the place from which the next `reset_next` starts.
pub const RESET_POSITION: usize = 0;
/// The word of the first element.
pub const FIRST_ELEMENT: usize = 1;

/// The word of a place's element.
#[inline(always)]
pub fn element_of(place: u64) -> usize
    ensures { result ≡ element_of place }
{
    FIRST_ELEMENT + (place / 64) as usize
}

/// How many elements the flags of `capacity` places take.
#[inline(always)]
pub fn elements(capacity: u32) -> u32
    ensures { result ≡ elements capacity }
{
    ((capacity as u64 + 63) / 64) as u32
}

/// The bit of a place's flag, alone.
#[inline(always)]
fn flag_of(place: u64) -> u64
    ensures { result ≡ 2 ^ bit_of place }
{
    1 << (place % 64)
}

/// Whether the flag of a place stands in its element.
#[inline(always)]
pub fn has_flag(element: u64, place: u64) -> bool
    ensures { result ≡ has_flag element place }
{
    element & flag_of(place) != 0
}

/// The element with the place's flag.
#[inline(always)]
pub fn with_flag(element: u64, place: u64) -> u64
    ensures value { result ≡ with_flag element place }
    ensures stands { IsTrue (has_flag result place) }
    ensures others { (other : ℕ) → bit_of other ≢ bit_of place
        → has_flag result other ≡ has_flag element other }
{
    element | flag_of(place)
}

/// The element without the place's flag.
#[inline(always)]
pub fn without_flag(element: u64, place: u64) -> u64
    ensures value { result ≡ without_flag element place }
    ensures clear { IsFalse (has_flag result place) }
    ensures others { (other : ℕ) → bit_of other ≢ bit_of place
        → has_flag result other ≡ has_flag element other }
{
    element & !flag_of(place)
}
