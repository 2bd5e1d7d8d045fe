//! Little-endian numbers, both ways.
ghost use Rattle.std.specs.Prelude.{◌≡◌, ℕ, ◌+◌, ◌<◌, ◌≤◌, length, take, drop};
ghost use Rattle.blocks.specs.Numbers.{Bytes, u16_at, u32_at, i32_at, bytes16, bytes32, bytes_z};
ghost use Rattle.blocks.specs.Over.{over};

/// Reads every byte: each is below 256, and none is left out.
pub fn are_bytes(s: &[u8])
    ensures { Bytes s.now }
{
    let mut read: usize = 0;
    for _byte in s {
        read += 1;
    }
    prove!(read == s.len());
}

/// The `N` bytes from `at` on.
fn bytes_at<const N: usize>(s: &[u8], at: usize) -> [u8; N]
    requires { at + N ≤ length s.now }
    ensures { result ≡ take N (drop at s.now) }
{
    *s[at..at + N].first_chunk().unwrap()
}

pub fn le16(s: &[u8], at: usize) -> u16
    requires { at + 1 < length s.now }
    ensures { result ≡ u16_at s.now at }
{
    u16::from_le_bytes(bytes_at(s, at))
}

pub fn le32(s: &[u8], at: usize) -> u32
    requires { at + 3 < length s.now }
    ensures { result ≡ u32_at s.now at }
{
    u32::from_le_bytes(bytes_at(s, at))
}

pub fn signed32(s: &[u8], at: usize) -> i32
    requires { at + 3 < length s.now }
    ensures { result ≡ i32_at s.now at }
{
    i32::from_le_bytes(bytes_at(s, at))
}

/// Writes bytes from `at` on.
fn put<const N: usize>(out: &mut [u8], at: usize, bytes: [u8; N])
    requires { at + N ≤ length out.old }
    ensures { out.new ≡ over out.old at bytes.entry }
{
    out[at..at + N].copy_from_slice(&bytes);
}

pub fn put16(out: &mut [u8], at: usize, x: u16)
    requires { at + 2 ≤ length out.old }
    ensures { out.new ≡ over out.old at (bytes16 x) }
{
    put(out, at, u16::to_le_bytes(x));
}

pub fn put32(out: &mut [u8], at: usize, x: u32)
    requires { at + 4 ≤ length out.old }
    ensures { out.new ≡ over out.old at (bytes32 x) }
{
    put(out, at, u32::to_le_bytes(x));
}

pub fn put_signed32(out: &mut [u8], at: usize, x: i32)
    requires { at + 4 ≤ length out.old }
    ensures { out.new ≡ over out.old at (bytes_z x) }
{
    put(out, at, i32::to_le_bytes(x));
}
