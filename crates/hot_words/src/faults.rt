// The first fault of words behind a command.
ghost use Rattle.std.specs.Prelude.{◌≡◌, ◌<◌, not, ◌&&◌, length, Some, IfSome, slice_get};
ghost use Rattle.hot_words.specs.Options.{has_file};
ghost use Rattle.hot_words.specs.Places.{stands_as_value, files_place};
ghost use Rattle.hot_words.specs.Names.{is_input, is_extra};
ghost use Rattle.hot_words.specs.Faults.{value_fault, option_fault, setting_fault, faults_from};
ghost use Rattle.hot_words.specs.Faults.{fault_listed, ratio_fault, fault_first};

use crate::places::{ends_words, find_option, has_dashes, may_begin_files, value_follows, word_at};
use crate::settings::{moments, ratio};
use crate::table::{CommandName, is_option, is_value, wants_file, wants_value};
use crate::word_list::WordList;
use hot_units::limits::MAX_FILES;

/// Why words are refused: no command; no command of this name; no option of this name; no value; an
/// option twice; a bad value; a word too many; a ratio above 1 with second moments.
#[derive(Clone, Copy, Debug, PartialEq, Eq)]
pub enum WordCode {
    A1,
    A2,
    A3,
    A4,
    A5,
    A6,
    A7,
    A8,
}

/// The refusal of words, with the place of the deciding word, counted from 0.
#[derive(Clone, Copy, Debug, PartialEq, Eq)]
pub struct WordFault {
    pub code: WordCode,
    pub place: usize,
}

/// Why a value is refused.
fn judge_value(words: &WordList, place: usize) -> Option<WordCode>
    requires { 0 < place }
    ensures { result ≡ value_fault words.now place }
{
    if is_value(word_at(words, place - 1), word_at(words, place)) {
        None
    } else {
        Some(WordCode::A6)
    }
}

/// Why an option is refused.
fn judge_option(name: CommandName, words: &WordList, place: usize) -> Option<WordCode>
    ensures { result ≡ option_fault name words.now place }
{
    let option = word_at(words, place);
    if !is_option(name, option) {
        Some(WordCode::A3)
    } else if find_option(name, words, option, place).is_some() {
        Some(WordCode::A5)
    } else if wants_value(name, option) && ends_words(words, place) {
        Some(WordCode::A4)
    } else {
        None
    }
}

/// Why the word at a place before the files is refused, if it is.
fn judge(name: CommandName, words: &WordList, place: usize, holds_value: bool) -> Option<WordCode>
    requires behind { 0 < place }
    requires value { holds_value ≡ stands_as_value name words.now place }
    ensures { result ≡ setting_fault name words.now place }
{
    if holds_value {
        judge_value(words, place)
    } else {
        judge_option(name, words, place)
    }
}

/// Whether a word is a word too many behind so many files, among which standard input is or is not.
fn is_extra(files: usize, has_input: bool, word: &str) -> bool
    ensures { result ≡ is_extra files has_input word.now }
{
    has_dashes(word) || files >= MAX_FILES || names_input(word) && has_input
}

/// Whether the word names standard input.
fn names_input(word: &str) -> bool
    ensures { result ≡ is_input word.now }
{
    word == "-"
}

/// Whether a word is a file of the command behind so many files, among which standard input is or is
/// not.
fn is_file(name: CommandName, files: usize, has_input: bool, word: &str) -> bool
    ensures { result ≡ (has_file name && not (is_extra files has_input word.now)) }
{
    wants_file(name) && !is_extra(files, has_input, word)
}

/// The first fault of the files, which begin at this place.
fn first_file_fault(name: CommandName, words: &WordList, first: usize) -> Option<WordFault>
    requires files { files_place name words.now ≡ Some first }
    ensures first { result ≡ slice_get (faults_from name words.now first) 0 }
    ensures placed { IfSome result (λ fault. fault.place < length words.now) }
{
    let mut has_input = false;
    for place in first..words.len() {
        let word = word_at(words, place);
        if !is_file(name, place - first, has_input, word) {
            return Some(WordFault {
                code: WordCode::A7,
                place,
            });
        }
        has_input |= names_input(word);
    }
    None
}

/// The first word from the left that is at fault by itself, of the words behind a command. Words
/// without a fault are few, so it reads a few words at most, however many there are.
fn first_word_fault(name: CommandName, words: &WordList) -> Option<WordFault>
    ensures first { result ≡ fault_listed name words.now }
    ensures placed { IfSome result (λ fault. fault.place < length words.now) }
{
    let mut holds_value = value_follows(name, words, 0, false);
    for place in 1..words.len() {
        if may_begin_files(words, place, holds_value) {
            return first_file_fault(name, words, place);
        }
        if let Some(code) = judge(name, words, place, holds_value) {
            return Some(WordFault { code, place });
        }
        holds_value = value_follows(name, words, place, holds_value);
    }
    None
}

/// The fault of a ratio above 1 with second moments, at its value.
fn judge_ratio(name: CommandName, words: &WordList) -> Option<WordFault>
    ensures value { result ≡ ratio_fault name words.now }
    ensures placed { IfSome result (λ fault. fault.place < length words.now) }
{
    let ratio = ratio(name, words);
    if moments(name, words) != 2 || ratio.num() <= ratio.den() {
        return None;
    }
    match find_option(name, words, "--theta", words.len()) {
        Some(place) => Some(WordFault {
            code: WordCode::A8,
            place: place + 1,
        }),
        None => None,
    }
}

/// The fault that decides of the words behind a command: the first from the left, and behind them
/// all the ratio's.
pub fn first_fault(name: CommandName, words: &WordList) -> Option<WordFault>
    ensures first { result ≡ fault_first name words.now }
    ensures placed { IfSome result (λ fault. fault.place < length words.now) }
{
    match first_word_fault(name, words) {
        Some(fault) => Some(fault),
        None => judge_ratio(name, words),
    }
}
