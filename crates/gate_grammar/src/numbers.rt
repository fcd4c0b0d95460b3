ghost use Rattle.std.specs.Prelude.{◌≡◌, ◌≤◌, ◌<◌, ◌^◌, IfSome, pos, neg_ℤ};
ghost use Rattle.gate_grammar.specs.Numbers.{number_below, number_of, code_of};

/// The most digits of a number.
const DIGITS: usize = 10;

/// The number that a text of one to ten digits spells, where it is below the limit.
fn number_below(limit: u64, text: &[u8]) -> Option<u32>
    requires { limit ≤ 2 ^ 32 }
    ensures value { result ≡ number_below limit text.now }
    ensures small { IfSome result (λ n. n < limit) }
{
    if text.is_empty() || text.len() > DIGITS {
        return None;
    }
    let mut value: u64 = 0;
    for digit in text {
        if !digit.is_ascii_digit() {
            return None;
        }
        value = value * 10 + u64::from(*digit - b'0');
    }
    if value < limit {
        Some(value as u32)
    } else {
        None
    }
}

/// Reads the unsigned number that a text spells: one to ten digits, leading zeros included, at most
/// 4294967295.
///
/// Any other text spells none. Own rule.
pub fn read_number(text: &[u8]) -> Option<u32>
    ensures { result ≡ number_of text.now }
{
    number_below(1 << 32, text)
}

/// Reads the code that a text spells: one to ten digits, which may stand after a minus sign, from
/// -32768 to 32767.
///
/// Any other text spells none. Own rule.
pub fn read_code(text: &[u8]) -> Option<i16>
    ensures { result ≡ code_of text.now }
{
    if text.is_empty() {
        None
    } else if text[0] == b'-' {
        let value = number_below(32769, &text[1..])?;
        Some(negated(value))
    } else {
        let value = number_below(32768, text)?;
        Some(plain(value))
    }
}

fn plain(value: u32) -> i16
    requires { value < 32768 }
    ensures { result ≡ pos value }
{
    value as i16
}

fn negated(value: u32) -> i16
    requires { value < 32769 }
    ensures { result ≡ neg_ℤ (pos value) }
{
    (-(value as i32)) as i16
}
