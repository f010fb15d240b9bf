//! The records of a script: their marks, their fields and their bytes.
use crate::answer::Refusal;
use arrayvec::{ArrayString, ArrayVec, CapacityError};
use std::fmt;
use std::fmt::Write;

#[derive(Clone, Copy, Eq, Ord, PartialEq, PartialOrd)]
pub enum Mark {
    Bc,
    Bn,
    Cr,
    Jn,
    Lv,
    Dl,
    Oc,
    On,
    Rd,
    Pk,
}

impl Mark {
    fn letters(self) -> &'static str {
        match self {
            Mark::Bc => "BC",
            Mark::Bn => "BN",
            Mark::Cr => "CR",
            Mark::Jn => "JN",
            Mark::Lv => "LV",
            Mark::Dl => "DL",
            Mark::Oc => "OC",
            Mark::On => "ON",
            Mark::Rd => "RD",
            Mark::Pk => "PK",
        }
    }
}

impl fmt::Display for Mark {
    fn fmt<W: fmt::Write>(&self, f: &mut fmt::Formatter<W>) -> fmt::Result {
        f.write_str(self.letters())
    }
}

impl TryFrom<[u8; 2]> for Mark {
    type Error = Refusal;

    fn try_from(letters: [u8; 2]) -> Result<Self, Refusal> {
        match &letters {
            b"BC" => Ok(Mark::Bc),
            b"BN" => Ok(Mark::Bn),
            b"CR" => Ok(Mark::Cr),
            b"JN" => Ok(Mark::Jn),
            b"LV" => Ok(Mark::Lv),
            b"DL" => Ok(Mark::Dl),
            b"OC" => Ok(Mark::Oc),
            b"ON" => Ok(Mark::On),
            b"RD" => Ok(Mark::Rd),
            b"PK" => Ok(Mark::Pk),
            _ => Err(Refusal::UnknownMark),
        }
    }
}

/// The four bytes of a serial, in the form that its mark says.
#[derive(Clone, Copy, Eq, PartialEq)]
pub enum Serial {
    Packed([u8; 4]),
    Binary([u8; 4]),
}

// A packed serial has the digits in decimal that its bytes have as a number in hex. So each form
// is made of the other by printing in the one base and reading in the other.
impl Serial {
    /// The last eight digits of a number.
    pub fn packed(value: u32) -> Serial {
        let low = value % 100_000_000;
        let mut digits = ArrayString::<8>::new();
        let _ = write!(digits, "{low}");
        let packed = u32::from_str_radix(digits.as_str(), 16).unwrap_or(u32::MAX);
        Serial::Packed(packed.to_be_bytes())
    }

    pub fn binary(value: u32) -> Serial {
        Serial::Binary(value.to_le_bytes())
    }

    fn bytes(self) -> [u8; 4] {
        match self {
            Serial::Packed(bytes) | Serial::Binary(bytes) => bytes,
        }
    }

    pub fn value(self) -> Result<u32, Refusal> {
        match self {
            Serial::Packed(bytes) => {
                let packed = u32::from_be_bytes(bytes);
                let mut digits = ArrayString::<8>::new();
                let _ = write!(digits, "{packed:x}");
                digits.as_str().parse().map_err(|_| Refusal::BadDigit)
            }
            Serial::Binary(bytes) => {
                let value = u32::from_le_bytes(bytes);
                if value <= 99_999_999 {
                    Ok(value)
                } else {
                    Err(Refusal::SerialTooLarge)
                }
            }
        }
    }
}

#[derive(Clone, Copy, Eq, PartialEq)]
pub enum Record {
    Declare(Serial),
    Create { node: u8 },
    Join { node: u8, left: u8, right: u8 },
    Leave { node: u8 },
    Deliver { place: u8 },
    Owner { start: u8, serial: Serial },
    Drain { budget: u16 },
    Peek,
}

impl Record {
    /// The record that a mark and its fields make; none where a byte is wanting.
    pub(crate) fn from_fields(mark: Mark, fields: &[u8]) -> Option<Record> {
        match (mark, fields) {
            (Mark::Bc, &[a, b, c, d]) => Some(Record::Declare(Serial::Packed([a, b, c, d]))),
            (Mark::Bn, &[a, b, c, d]) => Some(Record::Declare(Serial::Binary([a, b, c, d]))),
            (Mark::Cr, &[node]) => Some(Record::Create { node }),
            (Mark::Jn, &[node, left, right]) => Some(Record::Join { node, left, right }),
            (Mark::Lv, &[node]) => Some(Record::Leave { node }),
            (Mark::Dl, &[place]) => Some(Record::Deliver { place }),
            (Mark::Oc, &[start, a, b, c, d]) => Some(Record::Owner {
                start,
                serial: Serial::Packed([a, b, c, d]),
            }),
            (Mark::On, &[start, a, b, c, d]) => Some(Record::Owner {
                start,
                serial: Serial::Binary([a, b, c, d]),
            }),
            (Mark::Rd, &[low, high]) => Some(Record::Drain {
                budget: u16::from_le_bytes([low, high]),
            }),
            (Mark::Pk, &[]) => Some(Record::Peek),
            _ => None,
        }
    }

    pub fn mark(self) -> Mark {
        match self {
            Record::Declare(Serial::Packed(_)) => Mark::Bc,
            Record::Declare(Serial::Binary(_)) => Mark::Bn,
            Record::Create { .. } => Mark::Cr,
            Record::Join { .. } => Mark::Jn,
            Record::Leave { .. } => Mark::Lv,
            Record::Deliver { .. } => Mark::Dl,
            Record::Owner {
                serial: Serial::Packed(_),
                ..
            } => Mark::Oc,
            Record::Owner {
                serial: Serial::Binary(_),
                ..
            } => Mark::On,
            Record::Drain { .. } => Mark::Rd,
            Record::Peek => Mark::Pk,
        }
    }

    /// Puts the record behind a script.
    pub fn append_to<const N: usize>(
        self,
        script: &mut ArrayVec<u8, N>,
    ) -> Result<(), CapacityError> {
        let mut put = |bytes: &[u8]| script.try_extend_from_slice(bytes);
        put(self.mark().letters().as_bytes())?;
        match self {
            Record::Declare(serial) => put(&serial.bytes()),
            Record::Create { node } | Record::Leave { node } => put(&[node]),
            Record::Join { node, left, right } => put(&[node, left, right]),
            Record::Deliver { place } => put(&[place]),
            Record::Owner { start, serial } => {
                put(&[start])?;
                put(&serial.bytes())
            }
            Record::Drain { budget } => put(&budget.to_le_bytes()),
            Record::Peek => Ok(()),
        }
    }
}
