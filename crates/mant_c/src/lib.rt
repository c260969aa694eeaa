// The library for C, target/staticlib/libmant.a: each function of crate `mant` as an export that calls it, with the same name, parameters and clauses.
// include/mant.h declares them.
#![tactic(auto)]

pub mod a_node;
pub mod address_lists;
pub mod originating;
pub mod planning;
pub mod reading;
pub mod reliable_messages;
pub mod sealing_and_opening;
pub mod serial_exchange;
pub mod stations_heard;
pub mod transmit_queue;
