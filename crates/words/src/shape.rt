// Which token a word is: one of the fixed spellings, or a name, a number or a string by its shape.
use spelling::code_of;
use token::Code;

/// The code of a word; none where it is no token.
pub fn code_of_word(word: &str) -> Option<Code> {
    code_of(word).or_else(|| code_of_shape(word))
}

/// The code of a word that is no fixed spelling.
fn code_of_shape(word: &str) -> Option<Code> {
    if is_name(word) {
        Some(Code::Name)
    } else if is_number(word) {
        Some(Code::Number)
    } else if is_string(word) {
        Some(Code::String)
    } else {
        None
    }
}

/// Letters, digits, `_` and `$`, no digit first.
fn is_name(word: &str) -> bool {
    let bytes = word.as_bytes();
    bytes.first().is_some_and(|b| !b.is_ascii_digit())
        && bytes
            .iter()
            .all(|b| b.is_ascii_alphanumeric() || matches!(*b, b'_' | b'$'))
}

/// Digits, and at most one point between them.
fn is_number(word: &str) -> bool {
    match word.split_once('.') {
        Some((whole, part)) => is_digits(whole) && is_digits(part),
        None => is_digits(word),
    }
}

fn is_digits(text: &str) -> bool {
    !text.is_empty() && text.as_bytes().iter().all(|b| b.is_ascii_digit())
}

/// Double quotes round printable characters that are neither quotes nor backslashes.
fn is_string(word: &str) -> bool {
    word.strip_prefix('"')
        .and_then(|rest| rest.strip_suffix('"'))
        .is_some_and(|inside| inside.as_bytes().iter().all(|b| matches!(*b, b' '..=b'~')
            && !matches!(*b, b'"' | b'\\')))
}
