//! Values that are made of a number, so that a value that was torn, or made of two, tells no number.
use crate::long_values::{Greatest, Sixteen, Three};
use steps::words::Words;

/// The number of a value that was made of no number.
pub const TORN: u64 = u64::MAX;

/// A value that can be made of a number, and tells that number again.
pub trait Numbered: Words {
    /// The value of this number. For `u32` it is that of the low half of the number.
    fn of_number(number: u64) -> Self;

    /// The number that the value was made of, or `TORN` where its words do not belong to one number.
    fn number(&self) -> u64;
}

/// The number, if `is` is true, and `TORN` otherwise.
fn whole(is: bool, number: u64) -> u64 {
    if is { number } else { TORN }
}

impl Numbered for u32 {
    fn of_number(number: u64) -> u32 {
        (number & 0xffff_ffff) as u32
    }

    fn number(&self) -> u64 {
        *self as u64
    }
}

impl Numbered for u64 {
    fn of_number(number: u64) -> u64 {
        number
    }

    fn number(&self) -> u64 {
        *self
    }
}

impl Numbered for u128 {
    fn of_number(number: u64) -> u128 {
        ((number as u128) << 64) | (!number as u128)
    }

    fn number(&self) -> u64 {
        let high = (*self >> 64) as u64;
        let low = (*self & 0xffff_ffff_ffff_ffff) as u64;
        whole(low == !high, high)
    }
}

impl Numbered for (u64, u64) {
    fn of_number(number: u64) -> (u64, u64) {
        (number, !number)
    }

    fn number(&self) -> u64 {
        whole(self.1 == !self.0, self.0)
    }
}

impl Numbered for Three {
    fn of_number(number: u64) -> Three {
        Three(number, number ^ 3, !number)
    }

    fn number(&self) -> u64 {
        whole(self.1 == self.0 ^ 3 && self.2 == !self.0, self.0)
    }
}

impl Numbered for Sixteen {
    fn of_number(number: u64) -> Sixteen {
        Sixteen(number, number ^ 1, number ^ 2, !number)
    }

    fn number(&self) -> u64 {
        let is = self.1 == self.0 ^ 1 && self.2 == self.0 ^ 2 && self.3 == !self.0;
        whole(is, self.0)
    }
}

impl Numbered for Greatest {
    fn of_number(number: u64) -> Greatest {
        Greatest(number, number ^ 1, !number)
    }

    fn number(&self) -> u64 {
        whole(self.1 == self.0 ^ 1 && self.2 == !self.0, self.0)
    }
}
