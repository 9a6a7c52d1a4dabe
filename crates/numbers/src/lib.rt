// Numbers: numbers of four and of eight bytes, the lowest first, read and written where they lie. It stands on lists.
#![tactic(auto)]

ghost use Rattle.std.specs.Prelude.{◌≡◌, ◌+◌, ◌≤◌, length, take, drop};
ghost use Rattle.std.proofs.lemmas.List.Edits.{sets};
ghost use Rattle.lists.specs.LittleEndian.{bytes, Bytes, number_at};

// The bytes at a place. This and the functions below are called where the place is inside.
fn bytes_at<const N: usize>(b: &[u8], k: usize) -> [u8; N]
    requires { k + N ≤ length b.now }
    ensures { result ≡ take N (drop k b.now) }
{
    <[u8; N]>::try_from(&b[k..k + N]).unwrap()
}

// The number of the four bytes at a place.
// Stays: a line for each width, here and below, for each contract says its number of bytes, and the library has no trait of from_le_bytes; and
// a place beside a slice, for the contracts speak of the place.
pub fn u32_at(b: &[u8], k: usize) -> u32
    requires { k + 4 ≤ length b.now }
    ensures { (result ≡ number_at 4 k b.now) × Bytes b.now }
{
    u32::from_le_bytes(bytes_at(b, k))
}

pub fn u64_at(b: &[u8], k: usize) -> u64
    requires { k + 8 ≤ length b.now }
    ensures { (result ≡ number_at 8 k b.now) × Bytes b.now }
{
    u64::from_le_bytes(bytes_at(b, k))
}

// Stores a number's four bytes at a place.
pub fn put_u32(b: &mut [u8], k: usize, v: u32)
    requires { k + 4 ≤ length b.old }
    ensures { b.new ≡ sets b.old k (bytes 4 v) }
{
    b[k..k + 4].copy_from_slice(&v.to_le_bytes());
}

pub fn put_u64(b: &mut [u8], k: usize, v: u64)
    requires { k + 8 ≤ length b.old }
    ensures { b.new ≡ sets b.old k (bytes 8 v) }
{
    b[k..k + 8].copy_from_slice(&v.to_le_bytes());
}
