// The fields of a line of a sheet.
ghost use Rattle.std.specs.Prelude.{◌≡◌, List, ℕ, ◌+◌, ◌<◌};
ghost use Rattle.sheet.specs.Reading.{byte, two, four};
ghost use Rattle.sheet.specs.Held.{LineHeld};

use hextext::{Line, NUMBER_BYTES};

// The place of the last byte of a number.
const LAST_BYTE: usize = NUMBER_BYTES - 1;

// Byte i of a line, one of its first eight or of its last eight; 0 past its end.
pub fn byte_at(l: Line, i: usize) -> u8
    requires { i + 8 < l.count → i < 8 }
    ensures { (b : List ℕ) → LineHeld l b → result ≡ byte b i }
{
    if l.count <= i {
        return 0;
    }
    let behind = l.count - i - 1;
    if behind < NUMBER_BYTES {
        return ((l.tail >> (8 * behind)) % 256) as u8;
    }
    ((l.front >> (8 * (LAST_BYTE - i))) % 256) as u8
}

// The number of two bytes of a line, from byte i on.
pub fn two_at(l: Line, i: usize) -> u16
    requires { i < 7 }
    ensures { (b : List ℕ) → LineHeld l b → result ≡ two b i }
{
    u16::from_be_bytes([byte_at(l, i), byte_at(l, i + 1)])
}

// The number of four bytes of a line, from byte i on: of a line of at most eight, in which these are, it is one part of its number.
pub fn four_at(l: Line, i: usize) -> u32
    requires { i < 5 }
    ensures { (b : List ℕ) → LineHeld l b → result ≡ four b i }
{
    if l.count <= NUMBER_BYTES && i + 4 <= l.count {
        return ((l.tail >> (8 * (l.count - i - 4))) % 4294967296) as u32;
    }
    u32::from(two_at(l, i)) * 65536 + u32::from(two_at(l, i + 2))
}
