//! A cell's serial (R1.1), from each of the forms that reach us: four bytes of packed BCD or of
//! binary (R9.4), a number handed in. Each reader is total: it answers the serial, or what is wrong
//! with it, for every input.
#![tactic(auto)]

ghost use Rattle.std.specs.Prelude.{◌≡◌, ◌+◌, ◌*◌, ◌/◌, ◌%◌, ◌<◌, ◌&&◌, leb};
ghost use Rattle.std.specs.List.{list_all};
ghost use Rattle.serial.specs.Serial.{in_range, refusal_of, handed_of, packed_of, binary_of, positional, digits};

use refusal::Refusal;

/// Why there is no serial: refusal 3 or 4, and no other.
#[derive(Clone, Copy, Debug, PartialEq, Eq)]
pub enum SerialError {
    BadDigit,
    TooLarge,
}

impl From<SerialError> for Refusal {
    ghost from_gives = { λ error refusal. refusal ≡ refusal_of error };

    fn from(error: SerialError) -> Refusal {
        match error {
            SerialError::BadDigit => Refusal::BadDigit,
            SerialError::TooLarge => Refusal::SerialTooLarge,
        }
    }
}

pub fn in_range(value: u32) -> bool
    ensures { result ≡ in_range value }
{
    value <= 99_999_999
}

/// A serial handed in as a number.
pub fn handed(value: u32) -> Result<u32, SerialError>
    ensures { result ≡ handed_of value }
{
    if in_range(value) {
        Ok(value)
    } else {
        Err(SerialError::TooLarge)
    }
}

/// Binary, low byte first.
#[tactic(auto, using(crate::proofs::Bytes::low_first))]
pub fn binary(bytes: [u8; 4]) -> Result<u32, SerialError>
    ensures { result ≡ binary_of bytes }
{
    handed(u32::from_le_bytes(bytes))
}

fn all_packed(bytes: [u8; 4]) -> bool
    ensures { result ≡ list_all (λ byte. leb (byte / 16) 9 && leb (byte % 16) 9) bytes }
{
    bytes.iter().all(|byte| (byte / 16 <= 9) & (byte % 16 <= 9))
}

// A byte's two digits, side by side.
fn pair(byte: u8) -> u32
    ensures { (result ≡ (byte / 16) * 10 + byte % 16) × (result < 166) }
{
    u32::from(byte / 16) * 10 + u32::from(byte % 16)
}

fn packed_value(bytes: [u8; 4]) -> u32
    ensures { result ≡ positional 10 (digits bytes) }
{
    let [a, b, c, d] = bytes;
    pair(a) * 1_000_000 + pair(b) * 10_000 + pair(c) * 100 + pair(d)
}

/// Packed BCD, high digits first.
#[tactic(auto, using(crate::proofs::Bytes::each_packed))]
pub fn packed(bytes: [u8; 4]) -> Result<u32, SerialError>
    ensures { result ≡ packed_of bytes }
{
    if all_packed(bytes) {
        Ok(packed_value(bytes))
    } else {
        Err(SerialError::BadDigit)
    }
}
