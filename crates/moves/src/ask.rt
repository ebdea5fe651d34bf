// The answers to questions about keys, which no journal is needed for.

use crate::answer::Answer;
use crate::command::Question;
use crate::misread::Misread;
use crate::stop::Stop;
use crate::turns::key_of;
use keys::box_number::BoxNumber;
use keys::digest::Digest;
use keys::fnv::fnv_1a_32;
use keys::kind::Key;
use keys::translator::{AnyTranslator, Translator};
use script::text::hex_digit;
use std::alloc::Global;

// By hand, since the library's reader counts the digits first, and of two faults the one further left is told here.
pub fn from_hex(heap: Global, text: &str) -> Result<Vec<u8>, Stop> {
    let mut bytes = Vec::new(heap);
    for pair in text.as_bytes().chunks(2) {
        let [high, low] = pair else {
            return Err(Stop::Misread(Misread::OddDigits));
        };
        let (Some(high), Some(low)) = (hex_digit(*high), hex_digit(*low)) else {
            return Err(Stop::Misread(Misread::NotHexadecimal));
        };
        bytes.push(high * 16 + low)?;
    }
    Ok(bytes)
}

fn read_box(text: &str) -> Result<Answer<'_>, Stop> {
    let number: BoxNumber = key_of(text.as_bytes())?;
    Ok(Answer::Box {
        number: text,
        sum: number.check_sum(),
        digit: number.check_digit(),
    })
}

fn read_digest<'a>(heap: Global, text: &str) -> Result<Answer<'a>, Stop> {
    let bytes = from_hex(heap, text)?;
    Ok(Answer::Digest(key_of(bytes.as_slice())?))
}

fn is_hex(text: &str) -> bool {
    text.bytes().all(|b| hex_digit(b).is_some())
}

fn translated<'a, K: Key + Drop>(by: AnyTranslator, bytes: &[u8]) -> Result<Answer<'a>, Stop> {
    let key: K = key_of(bytes)?;
    let translated = by.translate(key.as_bytes());
    Ok(Answer::Translated {
        translated,
        hash: by.hash(translated),
    })
}

// A key of 64 hexadecimal digits is a digest, and any other is a box number.
fn translate<'a>(heap: Global, by: AnyTranslator, key: &str) -> Result<Answer<'a>, Stop> {
    if key.len() == 64 && is_hex(key) {
        let bytes = from_hex(heap, key)?;
        return translated::<Digest>(by, bytes.as_slice());
    }
    translated::<BoxNumber>(by, key.as_bytes())
}

pub fn ask<'a>(heap: Global, question: Question<'a>) -> Result<Answer<'a>, Stop> {
    match question {
        Question::Box(text) => read_box(text),
        Question::Digest(digits) => read_digest(heap, digits),
        Question::Translate { by, key } => translate(heap, by, key),
        Question::Fnv(text) => Ok(Answer::Hash(fnv_1a_32(text.as_bytes()))),
    }
}
