//! Numbers of 1 to 20 decimal digits.

ghost use Rattle.std.specs.Prelude.{◌≡◌, ◌≤◌, length, take, true};
ghost use Rattle.std.specs.List.{list_all};
ghost use Rattle.std.specs.Str.Parse.{digits_value};
ghost use Rattle.mlt_text_words.specs.Numbers.{is_digit, number_of};

/// The number that a word writes, where it is 1 to 20 digits of a number below 2^64.
#[tactic(auto, unfolding(crate::specs::Numbers::number_of))]
pub fn number(word: &[u8]) -> Option<u64>
    ensures { result ≡ number_of word.now }
{
    if word.is_empty() || word.len() > 20 {
        return None;
    }
    let mut value = 0u64;
    for byte in word {
        if *byte < b'0' || *byte > b'9' {
            return None;
        }
        let digit = u64::from(*byte - b'0');
        value = value.checked_mul(10)?.checked_add(digit)?;
    }
    Some(value)
}

// So great a number takes one more digit without passing 2^64.
const ROOM: u64 = 1_000_000_000_000_000_000;

/// The number that digits at the front of a text write, and how many digits these are. There may be more behind them
/// only where the number is great.
pub fn digits(text: &[u8]) -> (u64, usize)
    ensures length { result.1 ≤ length text.now }
    ensures digits { list_all is_digit (take result.1 text.now) ≡ true }
    ensures value { result.0 ≡ digits_value 10 (take result.1 text.now) }
{
    let mut value = 0u64;
    let mut end = 0;
    for byte in text {
        if *byte < b'0' || *byte > b'9' || value > ROOM {
            return (value, end);
        }
        value = value * 10 + u64::from(*byte - b'0');
        end += 1;
    }
    (value, end)
}
