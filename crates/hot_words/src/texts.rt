// The texts of refused words.
ghost use Rattle.std.specs.Prelude.{◌≡◌};
ghost use Rattle.hot_words.specs.Texts.{word_text, refusal_text};

use crate::faults::{WordCode, WordFault};
use crate::places::word_at;
use crate::word_list::WordList;

/// The text of a refusal, in four pieces that follow one another. The last three may be empty.
#[derive(Clone, Copy)]
pub struct RefusalText<'a> {
    pub front: &'a str,
    pub word: &'a str,
    pub between: &'a str,
    pub option: &'a str,
}

/// Why the words are refused, as a text. A word that is not there is empty. It takes no memory.
pub fn refusal<'a>(words: &'a WordList, fault: WordFault) -> RefusalText<'a>
    ensures text { refusal_text result ≡ word_text words.now fault }
{
    let word = word_at(words, fault.place);
    let (front, word, between, option) = match fault.code {
        WordCode::A1 => ("A1 no command", "", "", ""),
        WordCode::A2 => ("A2 unknown command ", word, "", ""),
        WordCode::A3 => ("A3 unknown option ", word, "", ""),
        WordCode::A4 => ("A4 no value for ", word, "", ""),
        WordCode::A5 => ("A5 option given twice ", word, "", ""),
        WordCode::A6 => {
            let before = word_at(words, fault.place.saturating_sub(1));
            ("A6 bad value ", word, " for ", before)
        }
        WordCode::A7 => ("A7 extra word ", word, "", ""),
        WordCode::A8 => ("A8 ratio above 1 with --moments 2", "", "", ""),
    };
    RefusalText {
        front,
        word,
        between,
        option,
    }
}
