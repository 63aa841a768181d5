// Numbers in bytes, low byte first. A byte past the end reads as 0, so that reading is total.
ghost use Rattle.std.specs.Prelude.{◌≡◌};
ghost use Rattle.pages.specs.Bytes.{byte, bytes_from, eight, four, two};

use std::array;

fn byte_at(bytes: &[u8], at: usize) -> u8
    ensures { result ≡ byte bytes.now at }
{
    bytes.get(at).copied().unwrap_or(0)
}

// So many bytes from a place on: at once where all of them are there.
pub fn bytes_at<const N: usize>(bytes: &[u8], at: usize) -> [u8; N]
    ensures { result ≡ bytes_from N bytes.now at }
{
    let rest = bytes.get(at..).unwrap_or(&[]);
    match rest.first_chunk() {
        Some(&all) => all,
        None => array::from_fn(|i| byte_at(rest, i)),
    }
}

// A line for each width, since std's `from_le_bytes` belongs to no trait.

// The number in two bytes at an offset.
pub fn two_at(bytes: &[u8], at: u32) -> u16
    ensures { result ≡ two bytes.now at }
{
    u16::from_le_bytes(bytes_at(bytes, at as usize))
}

// The number in four bytes at an offset.
pub fn four_at(bytes: &[u8], at: u32) -> u32
    ensures { result ≡ four bytes.now at }
{
    u32::from_le_bytes(bytes_at(bytes, at as usize))
}

// The number in eight bytes at an offset.
pub fn eight_at(bytes: &[u8], at: u32) -> u64
    ensures { result ≡ eight bytes.now at }
{
    u64::from_le_bytes(bytes_at(bytes, at as usize))
}
