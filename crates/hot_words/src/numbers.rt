// Values as the words give them.
ghost use Rattle.std.specs.Prelude.{◌≡◌, ◌≤◌, ◌↔◌, [], length, IsTrue, EachIndex, slice_index};
ghost use Rattle.std.specs.Prelude.{MatchOption};
ghost use Rattle.std.specs.List.{before_first, after_first};
ghost use Rattle.hot_words.specs.Numbers.{number_of, within, ranks_of, leaf_of, moments_of};
ghost use Rattle.hot_words.specs.Numbers.{bodies_of, softening_of, radius_of, ratio_of, mail_of};
ghost use Rattle.hot_words.specs.Numbers.{form_of, is_slash};

use fixed_kernel::{Eps, Ratio};
use hot_units::Mail;
use hot_units::limits::{MAX_GENERATED, MAX_LEAF, MAX_RANKS, MAX_RATIO, MAX_SOFTENING};
use near_walk::limits::MAX_RADIUS;

/// The most digits that a number may have.
const MAX_DIGITS: usize = 20;

/// Whether all bytes are ASCII digits.
fn all_digits(word: &[u8]) -> bool
    ensures { IsTrue result
        ↔ EachIndex word.now (λ k. (48 ≤ slice_index word.now k) × (slice_index word.now k ≤ 57)) }
{
    word.iter().all(|byte| b'0' <= *byte && *byte <= b'9')
}

/// The value of 1 to 20 ASCII digits; None exactly where the word is not that, or its value does
/// not fit 64 bits.
pub fn read_number(word: &str) -> Option<u64>
    ensures value { result ≡ number_of word.now }
{
    if word.len() > MAX_DIGITS {
        return None;
    }
    if !all_digits(word.as_bytes()) {
        return None;
    }
    word.parse().ok()
}

/// A number within two limits.
fn read_within(word: &str, low: u32, high: u32) -> Option<u32>
    ensures { result ≡ within low high (number_of word.now) }
{
    match read_number(word) {
        Some(number) => {
            if u64::from(low) <= number && number <= u64::from(high) {
                Some(number as u32)
            } else {
                None
            }
        }
        None => None,
    }
}

/// How many ranks, 1 to 64; None exactly where the word is no such number.
pub fn read_ranks(word: &str) -> Option<u32>
    ensures value { result ≡ ranks_of word.now }
{
    read_within(word, 1, MAX_RANKS)
}

/// A leaf limit, 1 to 64; None exactly where the word is no such number.
pub fn read_leaf(word: &str) -> Option<u32>
    ensures value { result ≡ leaf_of word.now }
{
    read_within(word, 1, MAX_LEAF)
}

/// The order of the moments, 1 or 2; None exactly where the word is no such number.
pub fn read_moments(word: &str) -> Option<u32>
    ensures value { result ≡ moments_of word.now }
{
    read_within(word, 1, 2)
}

/// How many bodies are made, 0 to 262,144; None exactly where the word is no such number.
pub fn read_bodies(word: &str) -> Option<u32>
    ensures value { result ≡ bodies_of word.now }
{
    read_within(word, 0, MAX_GENERATED)
}

/// A softening, 1 to 268,435,456; None exactly where the word is no such number.
pub fn read_eps(word: &str) -> Option<Eps>
    ensures value { result ≡ softening_of word.now }
{
    match read_within(word, 1, MAX_SOFTENING) {
        Some(eps) => Eps::new(eps),
        None => None,
    }
}

/// A radius, 0 to 1,073,741,824; None exactly where the word is no such number.
pub fn read_radius(word: &str) -> Option<u32>
    ensures value { result ≡ radius_of word.now }
{
    read_within(word, 0, MAX_RADIUS)
}

/// The texts on both sides of the first slash.
fn cut(word: &str) -> Option<(&str, &str)>
    ensures { MatchOption result (after_first is_slash word.now ≡ [])
        (λ p. (p.0.now ≡ before_first is_slash word.now)
        × (p.1.now ≡ after_first is_slash word.now)) }
{
    word.split_once('/')
}

/// A ratio, two numbers with one `/` between them: 0 to 1,024 over 1 to 1,024. None exactly where
/// the word is no such ratio.
pub fn read_ratio(word: &str) -> Option<Ratio>
    ensures value { result ≡ ratio_of word.now }
{
    let Some((num, den)) = cut(word) else {
        return None;
    };
    let Some(num) = read_within(num, 0, MAX_RATIO) else {
        return None;
    };
    let Some(den) = read_within(den, 1, MAX_RATIO) else {
        return None;
    };
    Ratio::new(num, den)
}

/// How letters are handed out: `prompt`, `last`, `single`, or by draws from a number. None exactly
/// where the word is none of these.
pub fn read_mail(word: &str) -> Option<Mail>
    ensures value { result ≡ mail_of word.now }
{
    match word {
        "prompt" => Some(Mail::Prompt),
        "last" => Some(Mail::Last),
        "single" => Some(Mail::Single),
        _ => {
            let seed = read_number(word)?;
            Some(Mail::Seeded(seed))
        }
    }
}

/// Whether the output is SDF: `sdf` says so, and `text` not. None exactly where the word is
/// neither.
pub fn read_form(word: &str) -> Option<bool>
    ensures value { result ≡ form_of word.now }
{
    match word {
        "text" => Some(false),
        "sdf" => Some(true),
        _ => None,
    }
}
