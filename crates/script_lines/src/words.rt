// The words of a line, and what the bytes of a line may be.
ghost use Rattle.std.specs.Prelude.{◌≡◌, true, IfOk, IsUtf8};
ghost use Rattle.meaning.specs.Every.{every};
ghost use Rattle.meaning.specs.Script.{is_shown, is_comment, are_only, words as words_of};
ghost use Rattle.script_lines.specs.Words.{bytes_of};

use std::alloc::{AllocError, Global};

fn is_shown(byte: u8) -> bool
    ensures { result ≡ is_shown byte }
{
    byte == b'\t' || (32 <= byte && byte <= 126)
}

/// Whether each byte of a line is a tab or one that is shown.
pub fn is_all_shown(line: &[u8]) -> bool
    ensures { result ≡ every is_shown line.now }
{
    for byte in line {
        if !is_shown(*byte) {
            return false;
        }
    }
    true
}

/// Whether a line is a comment.
pub fn is_comment(line: &[u8]) -> bool
    ensures { result ≡ is_comment line.now }
{
    line.first() == Some(&b'#')
}

/// The words of a line. Want of memory is the only error.
pub fn words(alloc: Global, line: &[u8]) -> Result<Vec<&[u8]>, AllocError>
    ensures { IfOk result (λ found. bytes_of found.items ≡ words_of line.now) }
{
    line.split(|byte| *byte == b' ' || *byte == b'\t')
        .filter(|word| !word.is_empty())
        .collect(alloc)
}

/// Whether these words are this one and no other.
pub fn are_only(word: &[u8], words: &[&[u8]]) -> bool
    ensures { result ≡ are_only word.now (bytes_of words.now) }
{
    words.len() == 1 && words[0] == word
}

/// A word as text.
pub fn text_of(word: &[u8]) -> &str
    requires { IsUtf8 word.now }
    ensures { result.now ≡ word.now }
{
    str::from_utf8(word).unwrap()
}
