// The loaded keys: which of them has a check, and whether they fit a trailer.
ghost use Rattle.std.specs.Prelude.{◌≡◌, if◌then◌else◌};
ghost use Rattle.std.specs.Str.{bytes_eq};
ghost use Rattle.xts.specs.Xts.{check as checkOf};
ghost use Rattle.law.specs.States.{having, other as other_of, fitting};
ghost use Rattle.trailer.specs.Trailers.{fields};
ghost use Rattle.keys.specs.Rings.{suite_of, keys_of, lent_key, head_of};

use crate::LoadedKey;
use trailer::{Stage, Trailer};

// None, one or two keys, in the order loaded: cases, since two Options would admit a second key without a first.
#[derive(Drop)]
pub enum Keyring<K> {
    Empty,
    One(K),
    Two(K, K),
}

fn has_check<K: LoadedKey>(key: &K, check: &[u8; 16]) -> bool
    ensures { result ≡ bytes_eq (checkOf K.forward (K.bytes key.now)) check.now }
{
    key.check() == *check
}

impl<K: LoadedKey> Keyring<K> {
    // The key loaded first.
    pub fn first(&self) -> Option<&K>
        ensures { lent_key K.bytes result ≡ head_of (keys_of K.bytes self.now) }
    {
        match self {
            Keyring::Empty => None,
            Keyring::One(a) | Keyring::Two(a, _) => Some(a),
        }
    }

    // The first key that has this check, or where HAS is false the first that has another.
    fn found<const HAS: bool>(&self, check: &[u8; 16]) -> Option<&K>
        ensures { lent_key K.bytes result ≡ (if HAS then having else other_of) (suite_of K.LoadedKey) check.now (keys_of K.bytes self.now) }
    {
        match self {
            Keyring::Empty => None,
            Keyring::One(a) => {
                if has_check(a, check) == HAS {
                    Some(a)
                } else {
                    None
                }
            }
            Keyring::Two(a, b) => {
                if has_check(a, check) == HAS {
                    Some(a)
                } else if has_check(b, check) == HAS {
                    Some(b)
                } else {
                    None
                }
            }
        }
    }

    // The first key that has this check.
    pub fn having(&self, check: &[u8; 16]) -> Option<&K>
        ensures { lent_key K.bytes result ≡ having (suite_of K.LoadedKey) check.now (keys_of K.bytes self.now) }
    {
        self.found::<true>(check)
    }

    // The first key that has another check.
    pub fn other(&self, check: &[u8; 16]) -> Option<&K>
        ensures { lent_key K.bytes result ≡ other_of (suite_of K.LoadedKey) check.now (keys_of K.bytes self.now) }
    {
        self.found::<false>(check)
    }

    // Whether one key has the trailer's first check and, while it is changing, one the second.
    pub fn fits(&self, t: &Trailer) -> bool
        ensures { result ≡ fitting (suite_of K.LoadedKey) (keys_of K.bytes self.now) (fields t.now) }
    {
        self.having(&t.first).is_some()
            && (t.stage == Stage::Resting || self.having(&t.second).is_some())
    }
}
