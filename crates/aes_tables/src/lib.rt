// One column of a round of AES by lookup tables, forward and back, on words of 32 bits.
#![tactic(auto)]

ghost use Rattle.std.specs.Prelude.{◌≡◌, ℕ, List, map};
ghost use Rattle.octets.specs.Little.{le_number, le_bytes, xored};
ghost use Rattle.aes_tables.specs.Field.{sub, sub_back, InverseHolds};
ghost use Rattle.aes_tables.specs.Columns.{mix, mix_back, times, gathered, sub_word, unmixed, each_byte, column_tables};

mod tables;

// A way through a round: what it makes of a byte, and the matrix that mixes its columns.
pub trait Way {
    ghost substitution: { ℕ → ℕ };

    // Row 0 of the matrix.
    ghost matrix: { List ℕ };

    // What each byte becomes.
    fn sbox() -> &'static [u8; 256]
        ensures { result.now ≡ each_byte substitution };

    // For each place of a column, what each byte there adds to the mixed column.
    fn columns() -> &'static [[u32; 256]; 4]
        ensures { map (map (le_bytes 4)) result.now ≡ column_tables matrix substitution };
}

pub struct Forward;

impl Way for Forward {
    ghost substitution = { sub };

    ghost matrix = { mix };

    fn sbox() -> &'static [u8; 256] {
        &tables::SBOX
    }

    fn columns() -> &'static [[u32; 256]; 4] {
        &tables::FORWARD
    }
}

pub struct Back;

impl Way for Back {
    ghost substitution = { sub_back };

    ghost matrix = { mix_back };

    fn sbox() -> &'static [u8; 256] {
        &tables::SBOX_BACK
    }

    fn columns() -> &'static [[u32; 256]; 4] {
        &tables::BACKWARD
    }
}

// One byte of each of four words, as the shifted rows bring them to one column.
fn diagonal(a: u32, b: u32, c: u32, d: u32) -> [u8; 4]
    ensures { result ≡ gathered (λ x. x) a b c d }
{
    [
        a.to_le_bytes()[0],
        b.to_le_bytes()[1],
        c.to_le_bytes()[2],
        d.to_le_bytes()[3],
    ]
}

// A column of the next state, from the four columns that the shifted rows bring to it, and its word of the round key.
// On the way back that word is to be unmixed before.
pub fn column<W: Way>(a: u32, b: u32, c: u32, d: u32, k: u32) -> u32
    ensures { le_bytes 4 result ≡ xored (times W.matrix (gathered W.substitution a b c d)) (le_bytes 4 k) }
{
    let [first, second, third, fourth] = W::columns();
    let [a, b, c, d] = diagonal(a, b, c, d);
    first[a as usize] ^ second[b as usize] ^ third[c as usize] ^ fourth[d as usize] ^ k
}

fn substituted<W: Way>(x: u8) -> u8
    ensures { result ≡ W.substitution x }
{
    W::sbox()[x as usize]
}

// The word whose bytes are one byte of each of four words, substituted.
fn gathered_word<W: Way>(a: u32, b: u32, c: u32, d: u32) -> u32
    ensures { le_bytes 4 result ≡ gathered W.substitution a b c d }
{
    u32::from_le_bytes(diagonal(a, b, c, d).map(|x| substituted::<W>(x)))
}

// A column of the last round, which does not mix.
#[tactic(auto, using(crate::proofs::Places::keyed))]
pub fn last_column<W: Way>(a: u32, b: u32, c: u32, d: u32, k: u32) -> u32
    ensures { le_bytes 4 result ≡ xored (gathered W.substitution a b c d) (le_bytes 4 k) }
{
    gathered_word::<W>(a, b, c, d) ^ k
}

// Each byte of a word substituted, as the key schedule asks.
pub fn sub_word(w: u32) -> u32
    ensures { result ≡ sub_word w }
{
    gathered_word::<Forward>(w, w, w, w)
}

// A word of a round key, unmixed. The tables undo a substitution first, so it is made before.
pub fn unmixed_word(w: u32) -> u32
    ensures { result ≡ unmixed w }
{
    let s = sub_word(w);
    column::<Back>(s, s, s, s, 0)
}

// The power that stands for the inverse in the field is the inverse.
pub fn inverse_stands()
    ensures { InverseHolds }
{}
