// An XTS volume over any whole store that changes its key in place, sector by sector, while the mains may fail at any
// time. It is again a card: it shows its data sectors deciphered.
#![tactic(auto)]

mod calls;
mod layer;
mod permits;
mod state;

pub use permits::{Changing, Permit, Resting};
pub use state::Volume;
