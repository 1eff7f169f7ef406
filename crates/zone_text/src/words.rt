//! What words say.
ghost use Rattle.std.specs.Prelude.{◌≡◌, ◌≤◌, ◌+◌, Some, None, Option, IfSome, option_and_then, unwrap_or, true, ◌*◌, ◌-◌};
ghost use Rattle.zone_text.specs.Prelude.{is_ascii_digit, list_all, number, at_most, most_time, seconds, groups, time_of, is_word};

/// The most seconds of a time to live (RFC 2181, section 8).
pub const MOST_TIME: u32 = 2_147_483_647;

/// The number that decimal digits say, at least one of them; None where it is past `most` or there is another byte.
#[tactic(auto, unfolding(zone_model::specs::Texts::number, zone_model::specs::Texts::digits_from))]
pub fn number(text: &[u8], most: u32) -> Option<u32>
    ensures value { result ≡ number most text.now }
    ensures small { IfSome result (λ n. n ≤ most) }
{
    if text.is_empty() {
        return None;
    }
    let mut value = 0u64;
    for digit in text {
        if !digit.is_ascii_digit() {
            return None;
        }
        value = value * 10 + u64::from(*digit - b'0');
        if value > u64::from(most) {
            return None;
        }
    }
    Some(value as u32)
}

fn seconds(unit: u8) -> Option<u64>
    ensures { result ≡ seconds unit }
{
    match unit {
        b'w' => Some(604800),
        b'd' => Some(86400),
        b'h' => Some(3600),
        b'm' => Some(60),
        b's' => Some(1),
        _ => None,
    }
}

/// All octets are decimal digits.
pub fn all_digits(text: &[u8]) -> bool
    ensures { result ≡ list_all is_ascii_digit text.now }
{
    text.iter().all(|c| c.is_ascii_digit())
}

// The sum of groups of digits with their units.
#[tactic(auto, using(crate::proofs::TimeLemmas::time_rules), unfolding(zone_model::specs::DataWords::groups))]
fn groups(text: &[u8]) -> Option<u32>
    ensures { result ≡ option_and_then (at_most most_time) (groups 0 None text.now) }
{
    let mut sum = 0u64;
    let mut pending = None;
    for octet in text {
        if octet.is_ascii_digit() {
            let n = more_digits(pending, *octet);
            if sum + n > u64::from(MOST_TIME) {
                return None;
            }
            pending = Some(n);
        } else {
            let n = pending?;
            let k = seconds(octet.to_ascii_lowercase())?;
            sum += n * k;
            if sum > u64::from(MOST_TIME) {
                return None;
            }
            pending = None;
        }
    }
    if pending.is_some() {
        return None;
    }
    Some(sum as u32)
}

fn more_digits(pending: Option<u64>, octet: u8) -> u64
    requires digit { is_ascii_digit octet ≡ true }
    requires small { IfSome pending (λ n. n ≤ most_time) }
    ensures { result ≡ 10 * unwrap_or pending 0 + (octet - 48) }
{
    match pending {
        Some(n) => 10 * n + u64::from(octet - b'0'),
        None => u64::from(octet - b'0'),
    }
}

/// The seconds of a time to live: decimal digits, or groups of digits with the units w, d, h, m, s; at most
/// 2,147,483,647.
#[tactic(auto, unfolding(zone_model::specs::DataWords::time_of))]
pub fn time_of(text: &[u8]) -> Option<u32>
    ensures { result ≡ time_of text.now }
{
    if all_digits(text) {
        number(text, MOST_TIME)
    } else {
        groups(text)
    }
}

/// A text is a word, letters of either case.
pub fn is_word(text: &[u8], word: &[u8]) -> bool
    ensures { result ≡ is_word text.now word.now }
{
    text.eq_ignore_ascii_case(word)
}
