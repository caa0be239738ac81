// The record in the last sector of a whole store: its bytes, when it is valid, and under which key a sector lies.
#![tactic(auto)]

ghost use Rattle.std.specs.Prelude.{◌≡◌};
ghost use Rattle.trailer.specs.Trailers.{Decoded, encode as encodeOf, fields, named as named_of, fresh as freshOf, begun as begunOf, finished as finishedOf, MovesOn};
ghost use Rattle.trailer.specs.Theorems.{EncodingStays, ValidityByBytes};

mod kept;
mod sector;
mod stage;

pub use kept::Trailer;
use sector::{field_at, framed, number_at, put, staged};
pub use stage::{Stage, UnknownStage};

impl Trailer {
    // The trailer that a sector holds, where it is valid for the cipher of this number and as the store's last sector,
    // with number `last`.
    pub fn decode(sector: &[u8; 520], cipher: u8, last: u32) -> Option<Trailer>
        ensures { Decoded cipher last sector.now result }
    {
        if !framed(sector, cipher) {
            return None;
        }
        let reach = number_at(sector, 460);
        if reach < 1 || reach > last {
            return None;
        }
        let stage = staged(sector)?;
        Some(Trailer {
            stage,
            reach,
            watermark: number_at(sector, 464),
            first: field_at(sector, 472),
            second: field_at(sector, 488),
            label: field_at(sector, 504),
        })
    }

    // The sector of this trailer, under the cipher of this number.
    pub fn encode(&self, cipher: u8) -> [u8; 520]
        ensures { result ≡ encodeOf cipher (fields self.now) }
    {
        let mut s = [0u8; 520];
        s[456] = cipher;
        s[457] = self.stage.into();
        s[458] = 1;
        put(&mut s, 460, &self.reach.to_le_bytes());
        put(&mut s, 464, &self.watermark.to_le_bytes());
        put(&mut s, 472, &self.first);
        put(&mut s, 488, &self.second);
        put(&mut s, 504, &self.label);
        s
    }

    // The check of the key that data sector i lies under.
    pub fn named(&self, i: u32) -> [u8; 16]
        ensures { result ≡ named_of (fields self.now) i }
    {
        match self.stage {
            Stage::Changing if i < self.watermark => self.second,
            _ => self.first,
        }
    }

    // The trailer of a format: resting, under the key of this check.
    pub fn fresh(reach: u32, first: [u8; 16], label: [u8; 16]) -> Trailer
        ensures { fields result ≡ freshOf reach first label }
    {
        Trailer {
            stage: Stage::Resting,
            reach,
            watermark: 0,
            first,
            second: [0u8; 16],
            label,
        }
    }

    // The trailer of a change that begins, to the key of this check. (A struct with a ghost field takes no `..*self`.)
    pub fn begun(&self, second: [u8; 16]) -> Trailer
        ensures { fields result ≡ begunOf (fields self.now) second }
    {
        Trailer {
            stage: Stage::Changing,
            reach: self.reach,
            watermark: 0,
            first: self.first,
            second,
            label: self.label,
        }
    }

    // The trailer of a change with one sector more under the new key, if one is left.
    pub fn moved(&self) -> Option<Trailer>
        ensures { MovesOn (fields self.now) result }
    {
        if self.watermark >= self.reach {
            return None;
        }
        Some(Trailer {
            stage: Stage::Changing,
            reach: self.reach,
            watermark: self.watermark + 1,
            first: self.first,
            second: self.second,
            label: self.label,
        })
    }

    // The trailer of a change that ends: resting, under the new key.
    pub fn finished(&self) -> Trailer
        ensures { fields result ≡ finishedOf (fields self.now) }
    {
        Trailer::fresh(self.reach, self.second, self.label)
    }
}

// The theorem that every trailer that keeps the rules is valid once encoded, and is decoded to what it was.
pub fn encoding_stays()
    ensures { EncodingStays }
{}

// The theorem that a sector is a valid trailer exactly where its bytes are as the layout and the rules have them.
pub fn validity_by_bytes()
    ensures { ValidityByBytes }
{}
