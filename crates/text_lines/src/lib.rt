// The lines of a text (01, Rule text): where the line ends that an index stands in. What the lines of a whole text are, and lines as text, is said in
// specs/TextLines.
#![tactic(auto)]

ghost use Rattle.std.specs.Prelude.{◌≡◌, ◌+◌, ◌≤◌, ltb, length, drop};
ghost use Rattle.text_lines.specs.Within.{before_newline};

// How many blocks of sixteen bytes are looked at before the search of the library begins, which takes longer to begin: most lines end within them.
const BLOCKS: usize = 4;

// Whether one of the sixteen bytes from an index on is a newline. It reads all of them, so that the compiler can take them at once. Who calls it has
// made sure that the text has that many.
fn sixteen(text: &[u8], at: usize) -> bool
    requires { at + 16 ≤ length text.now }
    ensures { result ≡ ltb (before_newline (drop at text.now)) 16 }
{
    let mut any = false;
    for i in 0..16 {
        any = any | (text[at + i] == alphabet::NEWLINE);
    }
    any
}

// The same index as below, byte by byte.
fn byte_by_byte(text: &[u8], from: usize) -> usize
    ensures { result ≡ from + before_newline (drop from text.now) }
{
    for i in from..text.len() {
        if text[i] == alphabet::NEWLINE {
            return i;
        }
    }
    from.max(text.len())
}

// The index of the first newline from `from` on; where there is none, the text's length, or `from` where that is past it.
pub fn line_end(text: &[u8], from: usize) -> usize
    ensures { result ≡ from + before_newline (drop from text.now) }
{
    let n = text.len();
    if n < from {
        return from;
    }
    let mut at = from;
    for _ in 0..BLOCKS {
        if n - at < 16 {
            return byte_by_byte(text, at);
        }
        if sixteen(text, at) {
            return byte_by_byte(text, at);
        }
        at += 16;
    }
    match memchr::memchr(alphabet::NEWLINE, &text[at..]) {
        Some(k) => at + k,
        None => n,
    }
}
