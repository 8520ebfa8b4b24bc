//! The numbers that are values of options.

ghost use Rattle.std.specs.Prelude.{◌≡◌, true, option_map};
ghost use Rattle.std.specs.List.{list_all};
ghost use Rattle.cd_command.specs.CommandLine.{number_or, number_in, within, is_digit, is_value, number_behind};

/// The numbers that the value of an option may be, and the one that stands where it was not given.
#[derive(Clone, Copy)]
pub(crate) struct Values {
    pub(crate) least: u32,
    pub(crate) most: u32,
    pub(crate) usual: u32,
}

/// The number of an option.
pub(crate) fn number_or(values: Values, entry: Option<&str>) -> Option<u32>
    ensures { result ≡ number_or values (option_map (λ s. s.now) entry.entry) }
{
    match entry {
        Some(text) => number_in(values, text),
        None => Some(values.usual),
    }
}

fn number_in(values: Values, text: &str) -> Option<u32>
    ensures { result ≡ number_in values text.now }
{
    let bytes = text.as_bytes();
    if !is_value(bytes) {
        return None;
    }
    within(values, number_of(bytes))
}

fn within(values: Values, number: u32) -> Option<u32>
    ensures { result ≡ within values number }
{
    if values.least <= number && number <= values.most {
        Some(number)
    } else {
        None
    }
}

fn is_digit(byte: u8) -> bool
    ensures { result ≡ is_digit byte }
{
    b'0' <= byte && byte <= b'9'
}

fn is_value(bytes: &[u8]) -> bool
    ensures { result ≡ is_value bytes.now }
{
    1 <= bytes.len() && (bytes.len() <= 3 && are_digits(bytes))
}

fn are_digits(bytes: &[u8]) -> bool
    ensures { result ≡ list_all is_digit bytes.now }
{
    bytes.iter().all(|byte| is_digit(*byte))
}

/// The number that one to three digits stand for.
fn number_of(digits: &[u8]) -> u32
    requires { is_value digits.now ≡ true }
    ensures { result ≡ number_behind 0 digits.now }
{
    let mut number: u32 = 0;
    for digit in digits {
        number = 10 * number + u32::from(*digit - b'0');
    }
    number
}
