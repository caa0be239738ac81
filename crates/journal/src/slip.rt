// The slip: the sector that says which targets are pending.
ghost use Rattle.std.specs.Prelude.{◌≡◌, ◌+◌, ◌≤◌};
ghost use Rattle.journal.specs.Slips.{field, slip_of, slip_bytes, slip_over};

use card::SECTOR_BYTES;
use octets::all_are;

// The bytes of a slip that are not 0: its kind, and its targets.
const KIND: usize = 508;

const FIRST: usize = 512;

const SECOND: usize = 516;

// The targets of a put: the sectors that show a spare in place of themselves while the put is pending.
#[derive(Clone, Copy)]
pub struct Targets {
    pub first: u32,
    pub second: Option<u32>,
}

// The little-endian number of the four bytes from place k on.
// `trailer` has one too: one for both would be public, and no public function asks anything (k + 4 ≤ 520) of its caller.
fn field_at(s: &[u8; SECTOR_BYTES], k: usize) -> u32
    requires { k + 4 ≤ 520 }
    ensures { result ≡ field s.now k }
{
    let mut bytes = [0u8; 4];
    bytes.copy_from_slice(&s[k..k + 4]);
    u32::from_le_bytes(bytes)
}

// The slip of kind 1 or 2 over its targets; one of kind 1 has 0 for the second.
fn laid_out(kind: u8, first: u32, second: u32) -> [u8; SECTOR_BYTES]
    ensures { result ≡ slip_bytes kind first second }
{
    let mut s = [0u8; SECTOR_BYTES];
    s[KIND] = kind;
    s[FIRST..SECOND].copy_from_slice(&first.to_le_bytes());
    s[SECOND..].copy_from_slice(&second.to_le_bytes());
    s
}

impl Targets {
    // What a slip says, where targets are below limit. What is no slip says nothing.
    pub(crate) fn of_slip(limit: u32, s: &[u8; SECTOR_BYTES]) -> Option<Targets>
        ensures { result ≡ slip_of limit s.now }
    {
        if !all_are(&s[..KIND], 0) || !all_are(&s[KIND + 1..FIRST], 0) {
            return None;
        }
        let first = field_at(s, FIRST);
        let second = field_at(s, SECOND);
        match s[KIND] {
            1 if first < limit && second == 0 => Some(Targets {
                first,
                second: None,
            }),
            2 if first < limit && second < limit && first != second => Some(Targets {
                first,
                second: Some(second),
            }),
            _ => None,
        }
    }

    pub(crate) fn slip(self) -> [u8; SECTOR_BYTES]
        ensures { result ≡ slip_over self }
    {
        match self.second {
            None => laid_out(1, self.first, 0),
            Some(second) => laid_out(2, self.first, second),
        }
    }
}
