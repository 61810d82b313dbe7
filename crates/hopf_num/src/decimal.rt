//! Decimal text.
ghost use Rattle.std.specs.Prelude.{◌≡◌, ◌+◌, ◌^◌, ◌<◌, ◌≤◌, [], ◌∷◌, ◌++◌, length, take};
ghost use Rattle.std.specs.Fmt.{decimal, signed_decimal};

// Puts a number at the front, and answers the place behind it.
pub(crate) fn put_signed(number: i128, out: &mut [u8]) -> usize
    requires { 40 ≤ length out.old }
    ensures end { result ≡ length (signed_decimal number) }
    ensures text { take result out.new ≡ signed_decimal number }
    ensures len { length out.new ≡ length out.old }
    ensures short { result ≤ 40 }
{
    if number < 0 {
        out[0] = b'-';
        put_decimal(number.unsigned_abs(), out, 1)
    } else {
        put_decimal(number.unsigned_abs(), out, 0)
    }
}

// Puts a number at a place, and answers the place behind it.
pub(crate) fn put_decimal(number: u128, out: &mut [u8], at: usize) -> usize
    requires { at + length (decimal number) ≤ length out.old }
    ensures end { result ≡ at + length (decimal number) }
    ensures text { take result out.new ≡ take at out.old ++ decimal number }
    ensures len { length out.new ≡ length out.old }
{
    if number < 10 {
        put_digit(number, out, at)
    } else {
        let last = put_decimal(number / 10, out, at);
        put_digit(number % 10, out, last)
    }
}

// Puts a digit at a place, and answers the place behind it.
fn put_digit(digit: u128, out: &mut [u8], at: usize) -> usize
    requires digit { digit < 10 }
    requires room { at < length out.old }
    ensures end { result ≡ at + 1 }
    ensures text { take result out.new ≡ take at out.old ++ (48 + digit) ∷ [] }
    ensures len { length out.new ≡ length out.old }
{
    out[at] = b'0' + digit as u8;
    at + 1
}
