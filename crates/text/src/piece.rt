ghost use Rattle.std.specs.Prelude.{◌≡◌, [], true, is_some, not};
ghost use Rattle.std.specs.Option.{option_copied, unwrap_or};
ghost use Rattle.text.specs.Pieces.{before, words};
ghost use Rattle.text.specs.Speech.{absent, word};

const SPACE: u8 = b' ';

const COMMENT: u8 = b'#';

// What stands before a comment.
fn before_comment(line: &[u8]) -> &[u8]
    ensures { result.now ≡ before COMMENT line.now }
{
    line.split(|byte| *byte == COMMENT).next().unwrap_or(line)
}

// Whether a line has nothing but spaces before a comment or its end; then it has no word.
pub(crate) fn is_blank(line: &[u8]) -> bool
    ensures { result ≡ true → words line.now ≡ [] }
{
    match line.iter().find(|byte| **byte != SPACE) {
        None => true,
        Some(byte) => *byte == COMMENT,
    }
}

// The word of a line at this place, counted from 0, if there is one.
pub fn word_at(line: &[u8], place: usize) -> Option<&[u8]>
    ensures value { unwrap_or (option_copied result) [] ≡ word place (words line.now) }
    ensures found { is_some result ≡ not (absent place (words line.now)) }
{
    before_comment(line)
        .split(|byte| *byte == SPACE)
        .filter(|word| !word.is_empty())
        .nth(place)
}
