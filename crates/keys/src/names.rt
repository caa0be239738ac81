// The keys of the two ciphers, by name.
ghost use Rattle.std.specs.Prelude.{◌≡◌};
ghost use Rattle.aes.specs.Aes.{aes as aesOf, aes_back};
ghost use Rattle.speck.specs.Speck.{speck as speckOf, speck_back};
ghost use Rattle.law.specs.Suites.{suite};
ghost use Rattle.keys.specs.Rings.{suite_of};

use crate::{CheckedKey, LoadedKey};
use aes::Aes;
use speck::Speck;

pub type AesKey = CheckedKey<Aes>;

pub type SpeckKey = CheckedKey<Speck>;

// The theorem that each name is a key under the cipher that it says, with the number that stands in a trailer: 1 for
// AES-256, 2 for Speck128/256.
pub fn names_say_their_ciphers()
    ensures aes { suite_of ⟦<AesKey as LoadedKey>⟧ ≡ suite 1 aesOf aes_back }
    ensures speck { suite_of ⟦<SpeckKey as LoadedKey>⟧ ≡ suite 2 speckOf speck_back }
{}
