//! Laws of a loan channel. `lock_free::laws` hands them on.

pub mod loans;
