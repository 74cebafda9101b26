//! Laws of bit sets: what one history says of its flags. Calls act place by place in it, in every run and in every
//! machine.

pub use history_bits::laws::{histories_act, machines_act, runs_act};
pub use history_laws::bits::{bit_answers_are_right, bits_are_conserved, bits_change_in_turn};
