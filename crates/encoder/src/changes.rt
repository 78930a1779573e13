// The marks of what differs on a page, in the form in which a diff is written from marks.
ghost use Rattle.std.specs.Prelude.{◌≡◌, length};
ghost use Rattle.diff.specs.Marks.{changed_words};

use diff::format::PAGE_WORDS;

// The marks of the words of a page that differ from their twins.
pub fn changed_words(words: &[u32], twins: &[u32]) -> u32
    requires words_len { length words.now ≡ 32 }
    requires twins_len { length twins.now ≡ 32 }
    ensures { result ≡ changed_words words.now twins.now }
{
    let mut marks: u32 = 0;
    for word in 0..PAGE_WORDS {
        if words[word] != twins[word] {
            marks += 1 << word;
        }
    }
    marks
}
