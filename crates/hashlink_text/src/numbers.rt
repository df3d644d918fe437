ghost use Rattle.std.specs.{Prelude.{◌≡◌, ◌+◌, ◌-◌, ◌*◌, ◌^◌, ◌<◌, option_and_then}, Int.IsInRange};
ghost use Rattle.std.specs.Option.{SomeIff};
ghost use Rattle.hashlink_text.specs.{Cuts.parts_left, Lines.{value_of, number_of}};
ghost use Rattle.hashlink_text.specs.Tables.{numbers_of, three_at_most, tokens};

use crate::words::Words;

/// The numbers that follow a word, of which there are at most three.
#[derive(Clone, Copy)]
pub enum Numbers {
    Nothing,
    One(u64),
    Two(u64, u64),
    Three(u64, u64, u64),
}

// Returns the numbers that the words spell, if each spells one and there are at most three.
pub(crate) fn read_numbers(mut words: Words<'_>) -> Option<Numbers>
    ensures { result ≡ option_and_then three_at_most (numbers_of (tokens (parts_left 32 words.entry.rest))) }
{
    let Some(first) = words.next() else {
        return Some(Numbers::Nothing);
    };
    let first = number(first)?;
    let Some(second) = words.next() else {
        return Some(Numbers::One(first));
    };
    let second = number(second)?;
    let Some(third) = words.next() else {
        return Some(Numbers::Two(first, second));
    };
    let third = number(third)?;
    match words.next() {
        None => Some(Numbers::Three(first, second, third)),
        Some(_) => None,
    }
}

// Returns the number that the word spells in decimal digits, with no leading zero.
#[tactic(auto, using(std::proofs::Common::rules))]
pub(crate) fn number(word: &[u8]) -> Option<u64>
    ensures { result ≡ number_of word.now }
{
    match word {
        [] | [b'0', _, ..] => None,
        digits => value(digits),
    }
}

// Returns the value of decimal digits, with leading zeros or without.
fn value(digits: &[u8]) -> Option<u64>
    ensures { result ≡ value_of digits.now }
{
    let mut value = 0;
    for byte in digits {
        value = with_digit(value, *byte)?;
    }
    Some(value)
}

// Returns the value with one more digit at its end.
fn with_digit(value: u64, byte: u8) -> Option<u64>
    ensures { SomeIff result
        (IsInRange 48 57 byte × (value * 10 + (byte - 48) < 2 ^ 64))
        (value * 10 + (byte - 48)) }
{
    match byte {
        b'0'..=b'9' => value.checked_mul(10)?.checked_add(u64::from(byte - b'0')),
        _ => None,
    }
}
