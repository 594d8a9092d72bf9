ghost use Rattle.std.specs.Prelude.{◌≡◌, ◌<◌, ◌∷◌, length, IfSome, position};
ghost use Rattle.text_lines.specs.Lines.{is_feed, lines_of};

/// The first line of a text that is not empty, without its line feed, and the rest of the text.
pub fn first_line(text: &[u8]) -> (&[u8], &[u8])
    requires { 0 < length text.now }
    ensures lines { lines_of text.now ≡ result.0.now ∷ lines_of result.1.now }
    ensures shorter { length result.1.now < length text.now }
{
    match first_feed(text) {
        Some(end) => (&text[..end], &text[end + 1..]),
        None => (text, &[]),
    }
}

/// The place of the first line feed.
pub fn first_feed(text: &[u8]) -> Option<usize>
    ensures feed { result ≡ position is_feed text.now }
    ensures within { IfSome result (λ end. end < length text.now) }
{
    text.iter().position(|octet| *octet == b'\n')
}
