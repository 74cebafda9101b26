//! The words of a bit set and of a counting bit set at its opening, and which call begins.
ghost use Rattle.std.specs.Prelude.{◌≡◌, ◌∷◌, None, Some, is_none, OnOk, IfOk, IfErr};
ghost use Rattle.model.specs.Families.Bits.Calls.{first};
ghost use Rattle.model.specs.Families.Bits.Opening.{bits_words, counts_words, is_past, call_rows};
ghost use Rattle.model.specs.Rows.{first_row};
ghost use Rattle.model.specs.declared.families.Registry.TheVariants.{Nothing};
ghost use Rattle.model.specs.declared.turn.Refusal.TheVariants.{WrongCall};

use super::calls::first;
use model::families::Registry;
use model::families::bits::BitsStart;
use model::families::bits::calls::BitsFlight;
use model::turn::{Kind, Refusal};
use std::alloc::{AllocError, Global};
use steps::bits::flags::elements;

/// The words of a bit set of this capacity at its opening. No bit stands.
pub fn open_bits<T>(alloc: Global, capacity: u32) -> Result<(Vec<u64>, Registry<T>), AllocError>
    ensures words { IfOk result (λ opened. opened.0.items ≡ bits_words capacity) }
    ensures kept { IfOk result (λ opened. opened.1 ≡ Nothing) }
{
    let words = 1 + elements(capacity) as usize;
    let mut opened = Vec::with_capacity(alloc, words)?;
    opened.resize(words, 0)?;
    Ok((opened, Registry::Nothing))
}

/// The words of a counting bit set of this capacity at its opening. Each count is 0.
pub fn open_counts<T>(alloc: Global, capacity: u32) -> Result<(Vec<u64>, Registry<T>), AllocError>
    ensures words { IfOk result (λ opened. opened.0.items ≡ counts_words capacity) }
    ensures kept { IfOk result (λ opened. opened.1 ≡ Nothing) }
{
    let mut opened = Vec::with_capacity(alloc, capacity as usize)?;
    opened.resize(capacity as usize, 0)?;
    Ok((opened, Registry::Nothing))
}

/// Whether the call names a place that is not below the capacity.
fn is_past(capacity: u32, start: BitsStart) -> bool
    ensures { result ≡ is_past capacity start }
{
    match start {
        BitsStart::Set(place) => place >= capacity as u64,
        BitsStart::IsSet(place) => place >= capacity as u64,
        BitsStart::Count(place) => place >= capacity as u64,
        _ => false,
    }
}

/// The call that begins, or why it may not begin.
pub fn permit(kind: Kind, capacity: u32, start: BitsStart) -> Result<BitsFlight, Refusal>
    ensures ok { IfOk result (λ flight. first kind capacity start ≡ Some flight) }
    ensures allowed { OnOk result (first_row
        ((is_none (first kind capacity start), WrongCall) ∷ call_rows capacity start) ≡ None) }
    ensures refused { IfErr result (λ row. first_row
        ((is_none (first kind capacity start), WrongCall) ∷ call_rows capacity start)
        ≡ Some row) }
{
    let Some(flight) = first(kind, capacity, start) else {
        return Err(Refusal::WrongCall);
    };
    if is_past(capacity, start) {
        return Err(Refusal::BadIndex);
    }
    Ok(flight)
}
