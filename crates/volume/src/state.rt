// What a volume holds.
ghost use Rattle.std.specs.Prelude.{◌≡◌, ◌+◌, ◌-◌, ◌<◌, ◌≤◌};

use keys::Keyring;
use trailer::Trailer;

// An XTS volume over a whole store, which it holds by value. It has no Model: the state that the laws see leaves the store
// itself out, which `below` lends, so contracts name that state by `state_of`.
#[derive(Drop)]
pub struct Volume<K, S> {
    pub(crate) store: S,
    pub(crate) keys: Keyring<K>,
    pub(crate) permit_out: bool,
}

// A valid trailer as it was read, and the number of its sector.
#[derive(Clone, Copy)]
pub(crate) struct Seen {
    pub(crate) last: u32,
    pub(crate) trailer: Trailer,
    ghost room: { trailer.reach ≤ last },
}

impl Seen {
    // The store's sector that is data sector i.
    pub(crate) fn place(&self, i: u32) -> u32
        requires { i < self.now.trailer.reach }
        ensures { result ≡ self.now.last - self.now.trailer.reach + i }
    {
        self.last - self.trailer.reach + i
    }
}
