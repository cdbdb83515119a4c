// Numbers, words and hexadecimal digits as a job file writes them.
#![tactic(auto)]

ghost use Rattle.std.specs.Prelude.{◌≡◌};
ghost use Rattle.job.specs.Numbers.{no_leading_zero, number_of, word_of, hex_value};
ghost use Rattle.job_numbers.specs.Answers.{digits_of};

const LARGEST_NUMBER: u64 = 4294967294;

const LARGEST_WORD: u32 = 4294967295;

// Whether there is a digit, and the first of several is not 0.
fn no_leading_zero(text: &[u8]) -> bool
    ensures { result ≡ no_leading_zero text.now }
{
    match text {
        [] => false,
        [_] => true,
        [first, ..] => *first != b'0',
    }
}

// The number that digits make, up to the largest.
fn read_digits(text: &[u8]) -> Option<u32>
    ensures { result ≡ digits_of 0 text.now }
{
    let mut value: u64 = 0;
    for b in text {
        if !b.is_ascii_digit() {
            return None;
        }
        value = value * 10 + u64::from(b - b'0');
        if LARGEST_NUMBER < value {
            return None;
        }
    }
    Some(value as u32)
}

// The number that a text is: decimal digits without a leading zero, below the largest word; none for any other text.
pub fn read_number(text: &[u8]) -> Option<u32>
    ensures { result ≡ number_of text.now }
{
    if no_leading_zero(text) {
        read_digits(text)
    } else {
        None
    }
}

// The word that a text is: a number, or the largest word for `-`; none for any other text.
pub fn read_word(text: &[u8]) -> Option<u32>
    ensures { result ≡ word_of text.now }
{
    match text {
        [b'-'] => Some(LARGEST_WORD),
        _ => read_number(text),
    }
}

// The value of a lower-case hexadecimal digit; none for any other byte.
pub fn hex_digit(c: u8) -> Option<u8>
    ensures { result ≡ hex_value c }
{
    match c {
        b'0'..=b'9' => Some(c - b'0'),
        b'a'..=b'f' => Some(c - b'a' + 10),
        _ => None,
    }
}
