// The names of the files of a command.
ghost use Rattle.std.specs.Prelude.{◌≡◌, ◌≤◌, ◌+◌, length, map};
ghost use Rattle.hot_units.specs.Limits.{max_files};
ghost use Rattle.hot.specs.Commands.{input_names};

use arrayvec::ArrayVec;
use hot_units::limits::MAX_FILES;
use hot_words::WordList;

/// The names of so many files from a place of the words on, or, where there are none, that of
/// standard input.
pub fn list_names(words: &WordList, first: usize, files: usize) -> ArrayVec<&str, MAX_FILES>
    requires within { first + files ≤ length words.now }
    requires few { files ≤ max_files }
    ensures names { map (λ name. name.now) result.items ≡ input_names words.now first files }
{
    let mut names = ArrayVec::new();
    if files == 0 {
        names.push("-");
        return names;
    }
    let last = words.len().min(first.saturating_add(files));
    'names: for place in first..last {
        names.push(words.get(place).unwrap());
    }
    names
}
