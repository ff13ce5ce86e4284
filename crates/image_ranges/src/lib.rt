// Whether every word of an image is in its range (refusal 3): records, then blocks.
#![tactic(auto)]

mod ranges;
mod records;

pub use ranges::blocks_in_range;
pub use records::contexts_in_range;
