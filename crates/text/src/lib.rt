// Text: numbers as lines of text, written into a lent slice. It stands on rules.
#![tactic(auto)]

ghost use Rattle.std.specs.Prelude.{◌+◌, ◌≤◌, length};
ghost use Rattle.text.specs.Text.{word_digits, decimal, count_line, refusal_line, host_line, Spoken, line_room, Puts};

// The most digits of a number of 64 bits: io::decimal's room.
const DIGITS: usize = 20;

const NEWLINE: u8 = b'\n';

const MINUS: u8 = b'-';

// The most digits of a number of 32 bits.
const WORD_DIGITS: usize = 10;

// No line is longer than a minus sign, these digits and the line end.
pub const LINE_ROOM: usize = 1 + WORD_DIGITS + 1;

// To a host, "asleep" is this number.
const ASLEEP: u32 = 2147483647;

// Bytes at a place; the next place.
// Stays: a writer that holds the slice and the place is no plainer, for put_number and put_refusal promise both (`Puts`) and would make one and
// take it apart at each call.
fn put(src: &[u8], out: &mut [u8], k: usize) -> usize
    requires { k + length src.now ≤ length out.old }
    ensures { Puts (length src.now) k src.now out.old result out.new }
{
    let end = k + src.len();
    out[k..end].copy_from_slice(src);
    end
}

// A number's decimal digits at a place; the next place.
fn put_decimal(v: u32, out: &mut [u8], k: usize) -> usize
    requires { k + word_digits ≤ length out.old }
    ensures { Puts word_digits k (decimal v) out.old result out.new }
{
    let mut d = [0; DIGITS];
    let n = io::decimal(u64::from(v), &mut d);
    put(&d[..n], out, k)
}

// A number's line at a place; the next place.
fn put_count(v: u32, out: &mut [u8], k: usize) -> usize
    requires { k + (word_digits + 1) ≤ length out.old }
    ensures { Puts (word_digits + 1) k (count_line v) out.old result out.new }
{
    let j = put_decimal(v, out, k);
    out[j] = NEWLINE;
    j + 1
}

// A refusal's line at a place; the next place. Replays call it where there is room.
pub fn put_refusal(v: u32, out: &mut [u8], k: usize) -> usize
    requires { k + line_room ≤ length out.old }
    ensures { Puts line_room k (refusal_line v) out.old result out.new }
{
    out[k] = MINUS;
    put_count(v, out, k + 1)
}

// The line of a number that a host gets, at a place; the next place. Replays call it where there is room.
pub fn put_number(z: i64, out: &mut [u8], k: usize) -> usize
    requires { (k + line_room ≤ length out.old) × Spoken z }
    ensures { Puts line_room k (host_line z) out.old result out.new }
{
    let n = z.unsigned_abs() as u32;
    let negative = z < 0;
    if negative {
        put_refusal(n, out, k)
    } else if n == ASLEEP {
        put(b"asleep\n", out, k)
    } else {
        put_count(n, out, k)
    }
}
