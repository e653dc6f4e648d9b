//! The numbers of a line, from their digits.
ghost use Rattle.std.specs.Prelude.{◌≤◌, nat_abs, IfOk, IfSome};

use replay_commands::Malformed;
use replay_items::Numbers;

// The value of some digits, if each is one and there are no more than ten from the first that isn't 0.
fn value_of(digits: &[u8]) -> Option<u64>
    ensures { IfSome result (λ value. value ≤ 9999999999) }
{
    let mut value: u64 = 0;
    for digit in digits {
        if !digit.is_ascii_digit() || value > 999_999_999 {
            return None;
        }
        value = 10 * value + u64::from(*digit - b'0');
    }
    Some(value)
}

// A number of one to ten digits, after a minus sign if it is negative. By hand: with `str::from_utf8` and `parse` a long line takes half as long again.
fn number(text: &[u8]) -> Result<i64, Malformed>
    ensures { IfOk result (λ n. nat_abs n ≤ 9999999999) }
{
    let digits = text.strip_prefix(b"-").unwrap_or(text);
    if digits.is_empty() || digits.len() > 10 {
        return Err(Malformed);
    }
    // Ten digits fit, where a `try_from` would ask each number.
    let value = value_of(digits).ok_or(Malformed)? as i64;
    Ok(if digits.len() < text.len() {
        -value
    } else {
        value
    })
}

// Puts a line's numbers into the list, if each stands after one space and the list holds them.
pub(crate) fn read_numbers(text: &[u8], list: &mut Numbers) -> Result<(), Malformed> {
    list.clear();
    match text {
        [] => Ok(()),
        [b' ', numbers @ ..] => {
            for n in numbers.split(|b| *b == b' ') {
                if !list.push(number(n)?) {
                    return Err(Malformed);
                }
            }
            Ok(())
        }
        _ => Err(Malformed),
    }
}
