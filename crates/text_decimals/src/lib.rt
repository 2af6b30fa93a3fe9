// Decimal numbers read from words, and texts and numbers written into lent memory. The meaning is in specs/.
#![tactic(auto)]

ghost use Rattle.std.specs.Prelude.{length, ◌≡◌, suc, ◌+◌, ◌-◌, ◌*◌, ◌≤◌, min};
ghost use Rattle.text_decimals.specs.Decimal.{digits_from, natural, negative, numeral, decimal, integer};
ghost use Rattle.text_decimals.specs.HeldMagnitude.{most, clamped, held, to_numeral};
ghost use Rattle.text_decimals.specs.Memory.{over};

const MOST: u64 = 10_000_000_000;

// One digit more, up to MOST + 1.
fn append_digit(v: u64, d: u64) -> u64
    requires { (v ≤ suc most) × (d ≤ 9) }
    ensures { result ≡ min (suc most) (v * 10 + d) }
{
    (MOST + 1).min(v * 10 + d)
}

// The number that the digits s spell.
fn digits(s: &[u8]) -> Option<u64>
    ensures { result ≡ held (digits_from 0 s.now) }
{
    let mut v: u64 = 0;
    for &d in s {
        if d < 48 {
            return None;
        }
        if 57 < d {
            return None;
        }
        v = append_digit(v, u64::from(d - 48));
    }
    Some(v)
}

// "no leading zero"
fn natural(s: &[u8]) -> Option<u64>
    ensures { result ≡ held (natural s.now) }
{
    if s.len() == 0 {
        return None;
    }
    if s[0] != b'0' {
        return digits(s);
    }
    if s.len() == 1 { Some(0) } else { None }
}

// The number with no minus in front.
fn positive(m: Option<u64>) -> Option<i64>
    ensures { result ≡ clamped (to_numeral m) }
{
    let v = m?;
    let n = MOST.min(v);
    Some(n as i64)
}

// The number with a minus in front: "no `-0`".
fn negative(m: Option<u64>) -> Option<i64>
    ensures { result ≡ clamped (negative (to_numeral m)) }
{
    let v = m?;
    if v == 0 {
        return None;
    }
    let n = (MOST + 1).min(v);
    Some(-(n as i64))
}

// The number that w spells, of any length.
pub fn read_numeral(w: &[u8]) -> Option<i64>
    ensures { result ≡ clamped (numeral w.now) }
{
    if w.len() == 0 {
        return None;
    }
    if w[0] != b'-' {
        return positive(natural(w));
    }
    negative(natural(&w[1..]))
}

// Puts text over out from `at` on, and answers where it ends.
pub fn put(out: &mut [u8], at: usize, text: &[u8]) -> usize
    requires { at + length text.now ≤ length out.old }
    ensures value { result ≡ at + length text.now }
    ensures out_after { out.new ≡ over out.old at text.now }
{
    let end = at + text.len();
    out[at..end].copy_from_slice(text);
    end
}

// Puts n in decimal over out from `at` on, and answers where it ends.
pub fn put_decimal(out: &mut [u8], at: usize, n: u64) -> usize
    requires { at + length (decimal n) ≤ length out.old }
    ensures value { result ≡ at + length (decimal n) }
    ensures out_after { out.new ≡ over out.old at (decimal n) }
{
    if n < 10 {
        out[at] = 48 + n as u8;
        return at + 1;
    }
    let e = put_decimal(out, at, n / 10);
    out[e] = 48 + (n % 10) as u8;
    e + 1
}

// Puts an integer in decimal over out from `at` on, and answers where it ends.
pub fn put_integer(out: &mut [u8], at: usize, z: i32) -> usize
    requires { at + length (integer z) ≤ length out.old }
    ensures value { result ≡ at + length (integer z) }
    ensures out_after { out.new ≡ over out.old at (integer z) }
{
    if z < 0 {
        let e = put(out, at, b"-");
        return put_decimal(out, e, numbers::magnitude(z));
    }
    put_decimal(out, at, numbers::magnitude(z))
}
