// A volume with the permit that is out of it.
ghost use Rattle.std.specs.Prelude.{◌≡◌, is_some};

use volume::{Permit, Volume};

// Whoever holds the volume holds its permit too, from a claim to the hand-in. No Model: `below` lends the store itself.
#[derive(Drop)]
pub struct Drive<K, S> {
    pub(crate) volume: Volume<K, S>,
    pub(crate) permit: Option<Permit>,
    ghost together: { is_some permit ≡ volume.permit_out },
}
