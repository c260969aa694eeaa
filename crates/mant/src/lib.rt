// The functions that C gets, each a thin call of a proved function, with numbers, slices, arrays lent by address and structs by value; crate `mant_c`
// exports them, and include/mant.h declares them in these groups.
#![tactic(auto)]

pub mod a_node;
pub mod address_lists;
pub mod originating;
pub mod planning;
pub mod reading;
pub mod reliable_messages;
pub mod sealing_and_opening;
pub mod serial_exchange;
pub mod stations_heard;
pub mod transmit_queue;
