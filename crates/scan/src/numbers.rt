ghost use Rattle.std.specs.Prelude.{◌≡◌, ℕ, ◌^◌, ◌-◌, ◌≤◌, IfSome, if◌then◌else◌, nat_le, Some, None};
ghost use Rattle.std.specs.Option.{option_map};
ghost use Rattle.scan.specs.Numbers.{number_of};

// The number that decimal digits write, if they are some and it is at most `most`.
pub fn number(word: &[u8], most: u64) -> Option<u64>
    ensures value { result ≡ number_of most word.now }
    ensures within { IfSome result (λ n. n ≤ most) }
{
    if word.is_empty() {
        return None;
    }
    let mut n = 0u64;
    for b in word {
        let digit = char::from(*b).to_digit(10)?;
        n = n.checked_mul(10)?.checked_add(u64::from(digit))?;
        if n > most {
            return None;
        }
    }
    Some(n)
}

// An unsigned type, by the most that it holds.
pub trait Unsigned: Sized {
    ghost MOST: { ℕ };

    ghost value: { Self → ℕ };

    const MOST: u64;

    // The value that is the number, if it holds it.
    fn narrow(n: u64) -> Option<Self>
        ensures { option_map value result ≡ (if nat_le n MOST then Some n else None) };
}

impl Unsigned for u8 {
    ghost MOST = { 255 };

    ghost value = { λ n. n };

    const MOST: u64 = u8::MAX as u64;

    fn narrow(n: u64) -> Option<u8> {
        u8::try_from(n).ok()
    }
}

impl Unsigned for u16 {
    ghost MOST = { 65535 };

    ghost value = { λ n. n };

    const MOST: u64 = u16::MAX as u64;

    fn narrow(n: u64) -> Option<u16> {
        u16::try_from(n).ok()
    }
}

impl Unsigned for u64 {
    ghost MOST = { 2 ^ 64 - 1 };

    ghost value = { λ n. n };

    const MOST: u64 = u64::MAX;

    fn narrow(n: u64) -> Option<u64> {
        Some(n)
    }
}

// The number that a word writes, if its type holds it.
pub fn fitting<T: Unsigned>(word: &[u8]) -> Option<T>
    ensures { option_map T.value result ≡ number_of T.MOST word.now }
{
    T::narrow(number(word, T::MOST)?)
}
