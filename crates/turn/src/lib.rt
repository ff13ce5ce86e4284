// The turn that ends: the switch is counted, its time is kept, and the holder of the CPU pays for it.
// In every function m is an image (crate machine says why it stays apart), and cpu the place in it of the CPU that decides.
#![tactic(auto)]

mod counting;
mod holder;
mod timing;

pub use counting::count_switch;
pub use holder::charge_holder;
pub use timing::{Turn, times};
