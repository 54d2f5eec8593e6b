// Lines, cut from the front of a text.
ghost use Rattle.std.specs.Prelude.{◌≡◌, ◌<◌, ◌≤◌, ◌+◌, ◌∷◌, length, take};
ghost use Rattle.std.specs.Str.Lines.{strip_carriage_return};
ghost use Rattle.spec_text.specs.Lines.{lines};

use memchr::memchr;

// Returns a line without the one carriage return at its end, or as it is if it ends otherwise.
#[tactic(auto, using(crate::proofs::Prefixes::prefix_all, crate::proofs::Prefixes::prefix_take))]
#[inline(always)]
pub(crate) fn without_carriage_return(line: &[u8]) -> &[u8]
    ensures line { result.now ≡ strip_carriage_return line.now }
    ensures prefix { result.now ≡ take (length result.now) line.now }
{
    if line.is_empty() {
        return line;
    }
    let last = line.len() - 1;
    if line[last] == b'\r' {
        &line[..last]
    } else {
        line
    }
}

// Returns the first line of a text that is not empty, without its line end, and the text after it. A line ends with a
// line feed, which a carriage return may precede, or with the text.
pub(crate) fn cut_line(text: &[u8]) -> (&[u8], &[u8])
    requires { 0 < length text.now }
    ensures lines { lines text.now ≡ result.0.now ∷ lines result.1.now }
    ensures shorter { length result.1.now < length text.now }
{
    match memchr(b'\n', text) {
        Some(end) => (without_carriage_return(&text[..end]), &text[end + 1..]),
        None => (without_carriage_return(text), &[]),
    }
}

// Returns how many lines a text has. A last line without a line feed counts, and an empty text has none.
pub(crate) fn line_count(text: &[u8]) -> usize
    ensures count { result ≡ length (lines text.now) }
    ensures within { result ≤ length text.now }
{
    let mut rest = text;
    let mut count = 0;
    while !rest.is_empty() {
        let (_, after) = cut_line(rest);
        rest = after;
        count += 1;
    }
    count
}
