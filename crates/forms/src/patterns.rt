// A line held against a pattern: a line in which '#' stands for a number.
// Numbers change width by `as`: each fits, and what `from` or `try_from` answers would have to be told to each goal.
ghost use Rattle.std.specs.Prelude.{◌≡◌, ◌≤◌, ◌++◌, drop};
ghost use Rattle.forms.specs.Decimal.{further, number_at, number_of};
ghost use Rattle.forms.specs.Pattern.{slots, fits, match_of};

// The number whose digits go on at a place, after digits of the value given, and the place after it.
fn take_digits(line: &[u8], from: usize, start: u16) -> Option<(u16, usize)>
    ensures { number_of line.now result ≡ further start (drop from line.now) }
{
    let mut value = u32::from(start);
    // by number: the place is what is wanted
    for at in from..line.len() {
        let b = line[at];
        if !b.is_ascii_digit() {
            return Some((value as u16, at));
        }
        value = value * 10 + u32::from(b - b'0');
        if 65535 < value {
            return None;
        }
    }
    Some((value as u16, line.len()))
}

// The number at a place of a line, and the place after it. A leading 0 is the whole number: `parse` would take leading zeros, and a sign.
fn take_number(line: &[u8], at: usize) -> Option<(u16, usize)>
    ensures { number_of line.now result ≡ number_at (drop at line.now) }
{
    let b = *line.get(at)?;
    if !b.is_ascii_digit() {
        return None;
    }
    if b == b'0' {
        return Some((0, at + 1));
    }
    take_digits(line, at + 1, u16::from(b - b'0'))
}

// The numbers of a line that fits a pattern.
fn match_line(pattern: &[u8], line: &[u8]) -> Option<(u16, u16, u16)>
    requires { slots pattern.now ≤ 3 }
    ensures { result ≡ match_of (fits pattern.now line.now) }
{
    let mut values = [0; 3];
    let mut next = 0;
    let mut at = 0;
    for &b in pattern {
        if b == b'#' {
            let (value, end) = take_number(line, at)?;
            values[next] = value;
            next += 1;
            at = end;
        } else {
            let x = *line.get(at)?;
            if x != b {
                return None;
            }
            at += 1;
        }
    }
    if at < line.len() {
        return None;
    }
    Some((values[0], values[1], values[2]))
}

/// The numbers of a line that starts with the bytes of a head, and behind them fits a pattern.
// Inlined, so that the head is a constant where it is compared.
#[inline(always)]
pub fn fit(head: &[u8], pattern: &[u8], line: &[u8]) -> Option<(u16, u16, u16)>
    requires few { slots pattern.now ≤ 3 }
    requires plain { slots head.now ≡ 0 }
    ensures { result ≡ match_of (fits (head.now ++ pattern.now) line.now) }
{
    let rest = line.strip_prefix(head)?;
    match_line(pattern, rest)
}
