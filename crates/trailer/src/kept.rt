// A trailer held in memory.
ghost use Rattle.std.specs.Prelude.{◌≤◌};

use crate::stage::Stage;

// No trailer in memory has a watermark above its reach.
#[derive(Clone, Copy)]
pub struct Trailer {
    pub stage: Stage,
    pub reach: u32,
    pub watermark: u32,
    pub first: [u8; 16],
    pub second: [u8; 16],
    pub label: [u8; 16],
    ghost within: { watermark ≤ reach },
}
