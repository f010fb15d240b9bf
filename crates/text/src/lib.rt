//! Text in fixed memory: a piece of bytes, or a number in decimal, put into a buffer from a place on,
//! and a page, to which such pieces are appended. A piece that finds no room is left out whole, so no
//! function asks anything of its caller.
#![tactic(auto)]

ghost use Rattle.std.specs.Prelude.{◌≡◌, ◌+◌, ◌≤◌, leb, ltb, length, []};
ghost use Rattle.io.specs.Digits.{IsDigitCount};
ghost use Rattle.text.specs.Text.{decimal};
ghost use Rattle.text.specs.Buffers.{pasted, place_after};
ghost use Rattle.text.specs.Pages.{appended};

use std::marker::Model;

/// Whether so many bytes find no room in a buffer of this size, from place `at` on.
pub fn lacks_room(size: usize, at: usize, bytes: usize) -> bool
    ensures { result ≡ ltb size (at + bytes) }
{
    size < bytes || size - bytes < at
}

/// Puts a piece into the buffer from place `at` on, and answers the place after it.
#[tactic(auto, using(crate::proofs::Laws::put_one))]
pub fn append(buffer: &mut [u8], at: usize, piece: &[u8]) -> usize
    ensures value { result ≡ place_after buffer.old at piece.now }
    ensures buffer_after { buffer.new ≡ pasted buffer.old at piece.now }
{
    if lacks_room(buffer.len(), at, piece.len()) {
        return at;
    }
    buffer[at..at + piece.len()].copy_from_slice(piece);
    at + piece.len()
}

// How many digits a number has in decimal.
fn digits_of(n: u32) -> usize
    ensures { IsDigitCount 10 1 n result }
{
    if n < 10_000 {
        if n < 100 {
            if n < 10 { 1 } else { 2 }
        } else if n < 1_000 {
            3
        } else {
            4
        }
    } else if n < 1_000_000 {
        if n < 100_000 { 5 } else { 6 }
    } else if n < 100_000_000 {
        if n < 10_000_000 { 7 } else { 8 }
    } else if n < 1_000_000_000 {
        9
    } else {
        10
    }
}

/// Puts a number in decimal. The last digit comes first; what is left for the first is below ten, and
/// needs no division. No `itoa` of the kit: with it a line of three numbers took half as long again.
pub fn append_decimal(buffer: &mut [u8], at: usize, n: u32) -> usize
    ensures value { result ≡ place_after buffer.old at (decimal n) }
    ensures buffer_after { buffer.new ≡ pasted buffer.old at (decimal n) }
{
    let count = digits_of(n);
    if buffer.len() < count {
        return at;
    }
    if buffer.len() - count < at {
        return at;
    }
    let mut i = count - 1;
    let mut rest = n;
    while 0 < i {
        buffer[at + i] = 48 + (rest % 10) as u8;
        rest /= 10;
        i -= 1;
    }
    buffer[at] = 48 + rest as u8;
    at + count
}

/// At most N bytes of text. Clauses see the bytes that were appended. No `ArrayVec` of the kit: one
/// inside costs each record of a script 5 to 12 instructions more.
#[derive(Drop)]
pub struct Page<const N: usize> {
    bytes: [u8; N],
    len: usize,
}

impl<const N: usize> Model for Page<N> {
    ghost use Rattle.std.specs.Prelude.{List, ℕ, take, ◌≤◌};

    ghost Value = { List ℕ };

    ghost view = { λ page. take page.len page.bytes };

    ghost invariant = { λ page. page.len ≤ N };
}

impl<const N: usize> Page<N> {
    #[inline(always)]
    pub fn new() -> Self
        ensures { result ≡ [] }
    {
        Page {
            bytes: [0; N],
            len: 0,
        }
    }

    pub fn as_bytes(&self) -> &[u8]
        ensures value { result.now ≡ self.now }
        ensures fits { length result.now ≤ N }
    {
        &self.bytes[..self.len]
    }

    /// Whether so many bytes more find room.
    pub fn has_room(&self, bytes: usize) -> bool
        ensures { result ≡ leb (length self.now + bytes) N }
    {
        bytes <= N - self.len
    }

    pub fn clear(&mut self)
        ensures { self.new ≡ [] }
    {
        self.len = 0;
    }

    #[tactic(auto, using(crate::proofs::PageLaws::place_inside, crate::proofs::PageLaws::text_after))]
    pub fn append(&mut self, piece: &[u8])
        ensures { self.new ≡ appended N self.old piece.now }
    {
        self.len = append(&mut self.bytes, self.len, piece);
    }

    #[tactic(auto, using(crate::proofs::DecimalLaws::ten_digits, crate::proofs::PageLaws::place_inside, crate::proofs::PageLaws::text_after))]
    pub fn append_decimal(&mut self, n: u32)
        ensures text_after { self.new ≡ appended N self.old (decimal n) }
        ensures short { length (decimal n) ≤ 10 }
    {
        self.len = append_decimal(&mut self.bytes, self.len, n);
    }
}
