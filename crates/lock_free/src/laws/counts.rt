//! Laws of counting bit sets: what one history says of its counts. Calls act place by place in it, in every run and in
//! every machine.

pub use history_bits::laws::{histories_act, machines_act, runs_act};
pub use history_laws::counts::{
    count_answers_are_right, counts_are_conserved, counts_are_taken_whole,
};
