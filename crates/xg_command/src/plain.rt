//! The plain words of a call: the names of files, or a number of cards.
ghost use Rattle.std.specs.Prelude.{◌≡◌, option_map, map};
ghost use Rattle.xg_command.specs.Plain.{one_word, two_words};

use arrayvec::ArrayVec;
use def_command::MOST_FILES;

/// The plain words of a call, in their order. There is room for those of a batch.
pub type PlainWords<'a> = ArrayVec<&'a str, MOST_FILES>;

/// The one word, if there is one and no other.
pub(crate) fn one<'a>(words: &[&'a str]) -> Option<&'a str>
    ensures { option_map (λ word. word.now) result ≡ one_word (map (λ word. word.now) words.now) }
{
    match words {
        [word] => Some(word),
        _ => None,
    }
}

/// Both words, if there are two.
pub(crate) fn two<'a>(words: &[&'a str]) -> Option<(&'a str, &'a str)>
    ensures { option_map (λ both. (both.0.now, both.1.now)) result
        ≡ two_words (map (λ word. word.now) words.now) }
{
    match words {
        [first, second] => Some((first, second)),
        _ => None,
    }
}
