// The decisions: `schedule` and the calls that decide, over the stages.
#![tactic(auto)]

mod beginning;
mod calls;
mod choosing;
mod scheduling;
mod selecting;
mod switching;

pub use calls::{direct_switch_to, switch, tick};
pub use switching::Decided;
