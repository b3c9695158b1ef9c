// What the options of words say. A value that is not good is a fault, so it never comes to its
// default in a command.
ghost use Rattle.std.specs.Prelude.{◌≡◌, ◌≤◌};
ghost use Rattle.hot_units.specs.Limits.{max_ranks, max_leaf, max_generated};
ghost use Rattle.near_walk.specs.Limits.{max_radius};
ghost use Rattle.hot_words.specs.Settings.{ranks_given, ratio_given, softening_given, leaf_given};
ghost use Rattle.hot_words.specs.Settings.{moments_given, mail_given, sdf_given, report_given};
ghost use Rattle.hot_words.specs.Settings.{bodies_given, seed_given, radius_given, files_given};
ghost use Rattle.hot_words.specs.Settings.{default_ratio, default_softening, default_moments};

use crate::numbers::{
    read_bodies, read_eps, read_form, read_leaf, read_mail, read_moments, read_number, read_radius,
    read_ranks, read_ratio,
};
use crate::places::{find_file, find_option, find_value};
use crate::table::CommandName;
use crate::word_list::WordList;
use fixed_kernel::{Eps, Ratio};
use hot_units::Mail;

/// How many ranks: 1 by default.
pub fn ranks(name: CommandName, words: &WordList) -> u32
    ensures value { result ≡ ranks_given name words.now }
    ensures limits { (1 ≤ result) × (result ≤ max_ranks) }
{
    match find_value(name, words, "--ranks") {
        Some(value) => read_ranks(value).unwrap_or(1),
        None => 1,
    }
}

/// The opening ratio of a command that is given none: 7/10.
pub fn default_ratio() -> Ratio
    ensures value { result ≡ default_ratio }
{
    let Some(ratio) = Ratio::new(7, 10) else {
        unreachable!()
    };
    ratio
}

/// The opening ratio: 7/10 by default.
pub fn ratio(name: CommandName, words: &WordList) -> Ratio
    ensures value { result ≡ ratio_given name words.now }
{
    match find_value(name, words, "--theta") {
        Some(value) => read_ratio(value).unwrap_or(default_ratio()),
        None => default_ratio(),
    }
}

/// The softening of a command that is given none, in fine units: 256.
pub fn default_softening() -> Eps
    ensures value { result ≡ default_softening }
{
    let Some(eps) = Eps::new(256) else {
        unreachable!()
    };
    eps
}

/// The softening: 256 by default.
pub fn softening(name: CommandName, words: &WordList) -> Eps
    ensures value { result ≡ softening_given name words.now }
{
    match find_value(name, words, "--eps") {
        Some(value) => read_eps(value).unwrap_or(default_softening()),
        None => default_softening(),
    }
}

/// The leaf limit: 8 by default.
pub fn leaf(name: CommandName, words: &WordList) -> u32
    ensures value { result ≡ leaf_given name words.now }
    ensures limits { (1 ≤ result) × (result ≤ max_leaf) }
{
    match find_value(name, words, "--leaf") {
        Some(value) => read_leaf(value).unwrap_or(8),
        None => 8,
    }
}

/// The order of the moments of a command that is given none.
pub const DEFAULT_MOMENTS: u32 = 1;

/// The order of the moments: 1 by default.
pub fn moments(name: CommandName, words: &WordList) -> u32
    ensures value { result ≡ moments_given name words.now }
    ensures limits { (1 ≤ result) × (result ≤ 2) }
{
    match find_value(name, words, "--moments") {
        Some(value) => read_moments(value).unwrap_or(DEFAULT_MOMENTS),
        None => DEFAULT_MOMENTS,
    }
}

/// How letters are handed out: promptly by default.
pub fn mail(name: CommandName, words: &WordList) -> Mail
    ensures value { result ≡ mail_given name words.now }
{
    match find_value(name, words, "--mail") {
        Some(value) => read_mail(value).unwrap_or(Mail::Prompt),
        None => Mail::Prompt,
    }
}

/// Whether the output is SDF: text by default.
pub fn is_sdf(name: CommandName, words: &WordList) -> bool
    ensures value { result ≡ sdf_given name words.now }
{
    match find_value(name, words, "--form") {
        Some(value) => read_form(value).unwrap_or(false),
        None => false,
    }
}

/// Whether a report is asked for.
pub fn has_report(name: CommandName, words: &WordList) -> bool
    ensures value { result ≡ report_given name words.now }
{
    find_option(name, words, "--report", words.len()).is_some()
}

/// How many bodies are made: 1000 by default.
pub fn bodies(name: CommandName, words: &WordList) -> u32
    ensures value { result ≡ bodies_given name words.now }
    ensures limit { result ≤ max_generated }
{
    match find_value(name, words, "--bodies") {
        Some(value) => read_bodies(value).unwrap_or(1000),
        None => 1000,
    }
}

/// The seed of the bodies: 0 by default.
pub fn seed(name: CommandName, words: &WordList) -> u64
    ensures value { result ≡ seed_given name words.now }
{
    match find_value(name, words, "--seed") {
        Some(value) => read_number(value).unwrap_or(0),
        None => 0,
    }
}

/// The radius: 256 by default.
pub fn radius(name: CommandName, words: &WordList) -> u32
    ensures value { result ≡ radius_given name words.now }
    ensures limit { result ≤ max_radius }
{
    match find_value(name, words, "--radius") {
        Some(value) => read_radius(value).unwrap_or(256),
        None => 256,
    }
}

/// The place of the first file, and how many files there are: 0 and 0 without a file.
pub fn files(name: CommandName, words: &WordList) -> (usize, usize)
    ensures value { result ≡ files_given name words.now }
{
    match find_file(name, words) {
        Some(first) => (first, words.len() - first),
        None => (0, 0),
    }
}
