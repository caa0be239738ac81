// What stands where in a trailer's sector, and the tests of it.
ghost use Rattle.std.specs.Prelude.{◌≡◌, ◌+◌, ◌≤◌, ◌++◌, length, take, drop};
ghost use Rattle.octets.specs.Little.{le_number};
ghost use Rattle.trailer.specs.Trailers.{field, framed as framedIn, StagedAs};

use crate::stage::Stage;

// The N bytes from place k on.
pub(crate) fn field_at<const N: usize>(s: &[u8; 520], k: usize) -> [u8; N]
    requires { k + N ≤ 520 }
    ensures { result ≡ field k N s.now }
{
    let mut found = [0u8; N];
    found.copy_from_slice(&s[k..k + N]);
    found
}

// The little-endian number of the four bytes from place k on. (`journal` has one too: one for both would be public, and
// no public function asks anything of its caller.)
pub(crate) fn number_at(s: &[u8; 520], k: usize) -> u32
    requires { k + 4 ≤ 520 }
    ensures { result ≡ le_number (field k 4 s.now) }
{
    u32::from_le_bytes(field_at(s, k))
}

// Puts a part into its place.
pub(crate) fn put(s: &mut [u8; 520], k: usize, part: &[u8])
    requires { k + length part.now ≤ 520 }
    ensures { s.new ≡ take k s.old ++ (part.now ++ drop (k + length part.now) s.old) }
{
    s[k..k + part.len()].copy_from_slice(part);
}

// Whether the cipher's number, the form and the zeros are in their places.
pub(crate) fn framed(s: &[u8; 520], cipher: u8) -> bool
    ensures { result ≡ framedIn cipher s.now }
{
    octets::all_are(&s[0..456], 0)
        && s[456] == cipher
        && s[458] == 1
        && s[459] == 0
        && octets::all_are(&s[468..472], 0)
}

// The stage, where the fields are as it asks.
pub(crate) fn staged(s: &[u8; 520]) -> Option<Stage>
    ensures { StagedAs s.now result }
{
    let Ok(stage) = Stage::try_from(s[457]) else {
        return None;
    };
    let watermark = number_at(s, 464);
    let kept = match stage {
        Stage::Resting => watermark == 0 && octets::all_are(&s[488..504], 0),
        Stage::Changing => watermark <= number_at(s, 460) && s[472..488] != s[488..504],
    };
    kept.then_some(stage)
}
