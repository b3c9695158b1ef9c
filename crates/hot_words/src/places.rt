// The words by their places.
ghost use Rattle.std.specs.Prelude.{◌≡◌, ◌<◌, ◌+◌, not, ◌&&◌, length, IfSome, MatchOption, Some};
ghost use Rattle.std.specs.Prelude.{None};
ghost use Rattle.std.specs.Str.{bytes_eq};
ghost use Rattle.hot_words.specs.Places.{word_of, begins_option, stands_as_value};
ghost use Rattle.hot_words.specs.Places.{place_before, files_place};
ghost use Rattle.hot_words.specs.Places.{value_of, is_last};

use crate::table::{CommandName, wants_value};
use crate::word_list::WordList;

/// The word at a place; behind the last the empty one.
pub fn word_at(words: &WordList, place: usize) -> &str
    ensures { result.now ≡ word_of words.now place }
{
    match words.get(place) {
        Some(word) => word,
        None => "",
    }
}

/// Whether the place is that of the last word.
pub fn ends_words(words: &WordList, place: usize) -> bool
    ensures { result ≡ is_last words.now place }
{
    place < words.len() && place + 1 == words.len()
}

/// Whether the word looks like an option.
pub fn has_dashes(word: &str) -> bool
    ensures { result ≡ begins_option word.now }
{
    word.as_bytes().starts_with(b"--")
}

/// Whether the place behind a place holds a value, where that is known of the place itself.
pub fn value_follows(name: CommandName, words: &WordList, place: usize, is_value: bool) -> bool
    requires { is_value ≡ stands_as_value name words.now place }
    ensures { result ≡ stands_as_value name words.now (place + 1) }
{
    wants_value(name, word_at(words, place)) && !is_value
}

/// Whether the files may begin at a place, where it is known whether it holds a value.
pub fn may_begin_files(words: &WordList, place: usize, is_value: bool) -> bool
    ensures { result ≡ (not is_value && not (begins_option (word_of words.now place))) }
{
    !is_value && !has_dashes(word_at(words, place))
}

/// Whether a place holds the option, where it is known whether it holds a value.
fn holds_option(words: &WordList, place: usize, option: &str, is_value: bool) -> bool
    ensures { result ≡ (bytes_eq (word_of words.now place) option.now && not is_value) }
{
    word_at(words, place) == option && !is_value
}

/// The first place before `end` that holds the option.
pub fn find_option(name: CommandName, words: &WordList, option: &str, end: usize) -> Option<usize>
    ensures first { result ≡ place_before name words.now option.now end }
    ensures before { IfSome result (λ place. place < end) }
{
    let mut is_value = false;
    for place in 0..end {
        if holds_option(words, place, option, is_value) {
            return Some(place);
        }
        is_value = value_follows(name, words, place, is_value);
    }
    None
}

/// The place of the first file behind the command, where there is one: the first word that is no
/// value and does not look like an option.
pub fn find_file(name: CommandName, words: &WordList) -> Option<usize>
    ensures first { result ≡ files_place name words.now }
    ensures within { IfSome result (λ place. place < length words.now) }
{
    let mut is_value = value_follows(name, words, 0, false);
    for place in 1..words.len() {
        if may_begin_files(words, place, is_value) {
            return Some(place);
        }
        is_value = value_follows(name, words, place, is_value);
    }
    None
}

/// The word behind an option, where that is given.
pub fn find_value<'a>(name: CommandName, words: &'a WordList, option: &str) -> Option<&'a str>
    ensures { MatchOption result (value_of name words.now option.now ≡ None)
        (λ value. value_of name words.now option.now ≡ Some value.now) }
{
    match find_option(name, words, option, words.len()) {
        Some(place) => Some(word_at(words, place + 1)),
        None => None,
    }
}
