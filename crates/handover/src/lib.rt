// The end of `select_next_context`: virtual time advances, a runnable holder that lost goes back to the queue, and the slice changes hands.
// In every function m is an image (crate machine says why it stays apart), and cpu the place in it of the CPU that decides.
#![tactic(auto)]

mod advancing;
mod handing;
mod next;
mod requeuing;
mod settling;

pub use advancing::{advance, mark_stealable};
pub use handing::hand_over;
pub use next::next_context;
pub use requeuing::requeue;
pub use settling::settle;
