//! The refusals from the input. Only 1 and 2 stop the reading: after each of the others but 7 a
//! later record is done (R9.5).
use crate::Run;
use std::io;

pub(crate) const MARKS: [&[u8]; 9] = [
    // R9.7, R9.8, R1.8: the first line and the last.
    b"the empty script\n",
    // R9.2, R9.5, refusal 1: the declaration after it is not read.
    b"no 1: an unknown mark ends the reading\n\
      BC\x00\x00\x10\x00\
      XX\
      BC\x00\x00\x20\x00",
    // R9.2, refusal 1: small letters make no mark.
    b"no 1: a mark in lower case\nbc\x00\x00\x10\x00",
    // R9.5, refusal 2: what is left of the script is too short for a mark.
    b"no 2: one byte of a mark\n\
      BC\x00\x00\x10\x00\
      B",
    // R8.5, R9.2: PK has no fields, and the next mark follows it at once.
    b"PK alone, and before other records\n\
      PK\
      PKPK\
      BC\x00\x00\x10\x00\
      PKCR\x00\
      PK",
    // R8.5, R9.2, refusal 1: the fields that RD has are read as a mark behind PK.
    b"no 1: PK with the fields of RD\n\
      PK\x00\x00\
      BC\x00\x00\x10\x00",
    // R9.5, refusal 2: one byte of PK is too short for a mark.
    b"no 2: one byte of PK\n\
      PK\
      P",
    // R9.3, R9.5, refusal 2: a budget has two bytes.
    b"no 2: RD with one byte of its budget\n\
      RD\x00",
    // R9.5, refusal 2: what is left of the script is too short for the fields.
    b"no 2: a record without its last byte\n\
      BC\x00\x00\x10\x00\
      BC\x00\x00\x20",
];

pub(crate) const FIELDS: [&[u8]; 5] = [
    // R9.4, R9.6, refusal 3: the first digit and the last, of a declaration and of a question.
    b"no 3: a digit above 9\n\
      BC\xa0\x00\x00\x00\
      BC\x00\x00\x00\x0a\
      BC\x00\x00\x10\x00\
      CR\x00\
      OC\x00\x00\x00\x00\x0a\
      OC\x00\x00\x00\x00\x09",
    // R9.4, refusal 3, refusal 21: each of the eight digits in turn; and all eight in their order,
    // in both forms.
    b"no 3: each of the eight digits\n\
      BC\xa0\x00\x00\x00\
      BC\x0b\x00\x00\x00\
      BC\x00\xc0\x00\x00\
      BC\x00\x0d\x00\x00\
      BC\x00\x00\xe0\x00\
      BC\x00\x00\x0f\x00\
      BC\x00\x00\x00\xa0\
      BC\x00\x00\x00\x0f\
      BC\x12\x34\x56\x78\
      BN\x4e\x61\xbc\x00",
    // R1.1, R9.4, refusal 4: one too many and the highest, of a declaration and of a question.
    b"no 4: a serial above 99,999,999\n\
      BN\x00\xe1\xf5\x05\
      BN\xff\xe0\xf5\x05\
      CR\x00\
      ON\x00\x00\xe1\xf5\x05\
      ON\x00\xff\xe0\xf5\x05",
    // R6.6, R6.7, R6.8, R7.3, refusal 5: each field that names a node, and a question with a
    // digit above 9 as well: the start comes first.
    b"no 5: node 2 is not declared\n\
      BC\x00\x00\x10\x00\
      BC\x00\x00\x20\x00\
      CR\x02\
      JN\x02\x00\x00\
      JN\x01\x02\x00\
      JN\x01\x00\x02\
      LV\x02\
      OC\x02\x00\x00\x10\x00\
      ON\x02\x00\x00\x10\x00\
      OC\x02\x00\x00\x00\x0a\
      CR\x00",
    // R7.3, R9.6, refusals 5, 3, 4 and 30: node 1 is not declared, node 0 is and is out; the serial
    // has a digit above 9, is too large, or is right.
    b"no 5: an undeclared start, before 3 and 4 of its serial, and these before 30\n\
      BC\x00\x00\x10\x00\
      OC\x01\x00\x00\x00\x0a\
      ON\x01\x00\xe1\xf5\x05\
      OC\x00\x00\x00\x00\x0a\
      ON\x00\x00\xe1\xf5\x05\
      OC\xff\x00\x00\x00\x09\
      OC\x00\x00\x00\x00\x09",
];

/// R9.1, refusal 7: both scripts begin with a declaration and go on with zeros, which are no mark.
pub(crate) fn sizes<R: Print>(run: &mut Run<R>) -> io::Result<()> {
    let declaration = b"BC\x00\x00\x10\x00";
    let mut too_long = [0u8; 65_537];
    too_long[..6].copy_from_slice(declaration);
    run.show(b"no 7: 65,537 bytes\n", &too_long)?;
    run.show(b"65,536 bytes are read\n", &too_long[..65_536])
}
