//! The bytes of an update record: a map of two bytes, then the fields whose bit is set. A place stands beside the bytes, and a byte past the end is 0, as the definitions
//! have it: they name a field by its place, and none of these functions can fail.
#![tactic(auto)]

ghost use Rattle.std.specs.Prelude.{◌≡◌, get_or};
ghost use Rattle.record.specs.Record as Def;
ghost use Rattle.record.specs.Record.{field_count, field_of, number_at, u16_le_at, offset_of, weight_of, size_of};

/// A field of an update record. `Weight(i)` is weight i + 1.
#[derive(Clone, Copy, Debug, PartialEq, Eq)]
pub enum Field {
    Weight(usize),
    Threshold,
    Truncation,
    Samples,
}

/// How many fields there are: bits 0 to 11 of the map.
pub const FIELDS: usize = 12;

/// Whether bit i of n is set.
pub fn bit_set(n: u16, i: usize) -> bool
    ensures { result ≡ Def.bit_set n i }
{
    i < 16 && n >> i & 1 == 1
}

/// A byte, 0 past the end.
pub fn byte(bytes: &[u8], at: usize) -> u8
    ensures { result ≡ get_or bytes.now at 0 }
{
    bytes.get(at).copied().unwrap_or(0)
}

/// The 16-bit number of the two bytes at a place, low byte first.
pub fn u16_le_at(bytes: &[u8], at: usize) -> u16
    ensures { result ≡ u16_le_at bytes.now at }
{
    u16::from_le_bytes([byte(bytes, at), byte(bytes, at.saturating_add(1))])
}

impl Field {
    /// The field of a bit. No `From`: that the number is a bit stands in the name.
    #[tactic(auto, unfolding(crate::specs::Record::field_of))]
    pub fn of_bit(bit: usize) -> Field
        ensures { result ≡ field_of bit }
    {
        match bit {
            0..9 => Field::Weight(bit),
            9 => Field::Threshold,
            10 => Field::Truncation,
            _ => Field::Samples,
        }
    }

    /// How many bytes it takes.
    pub fn size(self) -> usize
        ensures { result ≡ size_of self }
    {
        match self {
            Field::Weight(_) => 1,
            Field::Threshold => 2,
            Field::Truncation => 1,
            Field::Samples => 1,
        }
    }

    /// Its number at a place.
    pub fn number_at(self, bytes: &[u8], at: usize) -> u16
        ensures { result ≡ number_at self bytes.now at }
    {
        match self {
            Field::Threshold => u16_le_at(bytes, at),
            Field::Weight(_) | Field::Truncation | Field::Samples => byte(bytes, at).into(),
        }
    }
}

/// Where the fields that a map calls for end.
#[tactic(auto, unfolding(crate::specs::Record::offset_of))]
pub fn end_of(map: u16) -> usize
    ensures { result ≡ offset_of map field_count }
{
    let mut end = 2;
    for bit in 0..FIELDS {
        if bit_set(map, bit) {
            end += Field::of_bit(bit).size();
        }
    }
    end
}

/// The signed value of a weight byte: the sign in bit 4, the magnitude in bits 0 to 3.
#[tactic(auto, unfolding(crate::specs::Record::weight_of), using(crate::proofs::Magnitudes::read_size, crate::proofs::Magnitudes::neg_read))]
pub fn weight_of(b: u16) -> i32
    ensures { result ≡ weight_of b }
{
    let magnitude = i32::from(b & 15);
    if bit_set(b, 4) { -magnitude } else { magnitude }
}
