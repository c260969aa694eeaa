// The layer's values as the plain values that C sees, and what C gives as the layer's settings.
#![tactic(auto)]

pub mod a_node;
pub mod a_walk;
pub mod originating;
pub mod planning;
pub mod reading;

// Kept: the conversions are functions and no impls of From, since crate `promises` has a theorem on each of them.
pub use a_node::{
    MantAnswer, MantHeardReliably, MantListened, MantNode, answer_from_c, answer_in_c, node_from_c,
};
pub use a_walk::{MantStep, step_in_c};
pub use originating::{MantFresh, fresh_from_c};
pub use planning::{
    MantAirtime, MantBound, MantLimits, airtime_in_c, bound_in_c, least_in_c, limits_in_c,
};
pub use reading::{MantHeader, summary_in_c};
