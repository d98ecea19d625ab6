// A stored call of Page, or a stored decimal, made anew.
use crate::calls::{number, replays};
use crate::digest::digest;
use float::number::of_bits;
use page::decimal::decimal_text;
use page::page::page_text;
use text::lines::{bytes, held, word};

// Whether the float of a line shows the 16 bytes of its two other words, by their digests, as a page does.
pub(crate) fn decimal_agrees(line: &[u8]) -> Option<bool> {
    let mut stored = [0; 16];
    bytes(line, 1, &mut stored)?;
    let mut text = [165; 16];
    let found = number(decimal_text(of_bits(word(line, 0)?), &mut text));
    Some(found == 16 && digest(&text) == digest(&stored))
}

// Whether Page answers as a line says, with the digest of the text that it says.
pub(crate) fn agrees(line: &[u8]) -> Option<bool> {
    let page = word(line, 1)?;
    let room = held(word(line, 3)?, 8192)?;
    let mut text = [165; 8192];
    let lent = &mut text[..room];
    let agrees = replays(line, 6, word(line, 2)?, word(line, 4)?, |sheet, work| {
        page_text(sheet, page, work, lent)
    })?;
    Some(agrees && digest(&text) == word(line, 5)?)
}
