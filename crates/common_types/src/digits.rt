// Decimal numbers of few digits.
ghost use Rattle.std.specs.Prelude.{◌≡◌, ◌≤◌, true};
ghost use Rattle.std.specs.Char.{is_ascii_digit};
ghost use Rattle.std.specs.List.{list_all};
ghost use Rattle.common_types.specs.Digits as spec;

fn is_digits(bytes: &[u8]) -> bool
    ensures { result ≡ list_all is_ascii_digit bytes.now }
{
    for byte in bytes {
        if !byte.is_ascii_digit() {
            return false;
        }
    }
    true
}

/// Whether the bytes are decimal digits alone, at least one and at most so many.
pub fn is_number(most: usize, bytes: &[u8]) -> bool
    ensures { result ≡ spec.is_number most bytes.now }
{
    !bytes.is_empty() && bytes.len() <= most && is_digits(bytes)
}

/// The number that one to five decimal digits write.
pub fn number_of(digits: &[u8]) -> usize
    requires { spec.is_number 5 digits.now ≡ true }
    ensures { result ≡ spec.number_of digits.now }
{
    let mut number = 0;
    for digit in digits {
        number = 10 * number + usize::from(*digit - b'0');
    }
    number
}
