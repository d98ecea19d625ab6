// Which lines a mark has, and who works them out: digits stand for the upper layers, letters for
// functions on floats. A mark stays a byte: `words` and `agrees` give different things for it, here and in
// the modules, so an enum would be matched as often, and made of the byte by one match more; a table of
// what replays each would need a function or closure of its own for each of the 32.
ghost use Rattle.std.specs.Prelude.{◌≤◌, ◌<◌, IfSome, length};

// The words that the line with which s begins has by its mark and its counts.
fn words(mark: u8, s: &[u8]) -> Option<usize>
    ensures { IfSome result (λ n. n ≤ 1094) }
{
    match mark {
        b'1' | b'2' | b'3' => crate::roots::words(s),
        b'4' | b'5' | b'6' | b'7' => Some(crate::parts::words(mark)),
        b'0' | b'8' | b'9' => crate::calls::words(mark, s),
        b'D' => Some(3),
        _ => crate::floor::words(mark),
    }
}

// The mark and the line with which s begins, where it is a sample.
pub(crate) fn line(s: &[u8]) -> Option<(u8, &[u8])>
    ensures { IfSome result (λ l. (0 < length l.1.now) × (length l.1.now ≤ length s.now)) }
{
    let mark = *s.first()?;
    let line = text::lines::line(s, words(mark, s)?)?;
    Some((mark, line))
}

// Whether the sample of a mark and its line is what the library gives; none where its counts do not
// fit its words.
pub(crate) fn agrees(mark: u8, line: &[u8]) -> Option<bool> {
    match mark {
        b'1' | b'2' | b'3' => crate::roots::agrees(line),
        b'4' | b'5' | b'6' | b'7' => crate::parts::agrees(mark, line),
        b'0' => crate::pages::agrees(line),
        b'8' | b'9' => crate::calls::agrees(mark, line),
        b'D' => crate::pages::decimal_agrees(line),
        _ => crate::floor::agrees(mark, line),
    }
}
