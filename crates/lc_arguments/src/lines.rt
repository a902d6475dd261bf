//! Lines for standard error.
ghost use Rattle.std.specs.Prelude.{◌≡◌, ◌+◌, ◌≤◌, ◌++◌, codes, decimal, length};
ghost use Rattle.arrayvec.specs.ArrayString.{array_string_len};
ghost use Rattle.lc_session_rules.specs.Endings.{said};

use arrayvec::ArrayString;
use itoa::Buffer;

/// A line for standard error, or what one says, of at most 128 bytes. It lies in the value itself, so no memory is taken for it.
pub type Line = ArrayString<128>;

/// Appends a text and, in decimal digits, a number. The line must have room for the text and for twenty digits.
pub fn push_numbered(line: &mut Line, text: &str, number: u64)
    requires { array_string_len line.old + length text.now + 20 ≤ 128 }
    ensures is { line.new.bytes ≡ line.old.bytes ++ text.now ++ decimal number }
    ensures fits { array_string_len line.new ≤ array_string_len line.old + length text.now + 20 }
{
    line.push_str(text);
    line.push_str(Buffer::new().format(number));
}

/// The line that says a text of at most 120 bytes: `codes: `, the text and a newline.
#[tactic(auto, unfolding(lc_session_rules::specs::Endings::said))]
pub fn said(text: &str) -> Line
    requires { length text.now ≤ 120 }
    ensures is { result.bytes ≡ said text.now }
{
    let mut line = Line::new();
    line.push_str("codes: ");
    line.push_str(text);
    line.push_str("\n");
    line
}

/// The line that says that an argument is refused: `word N refused`, N being its index from 0.
pub fn usage_line(index: usize) -> Line
    ensures is { result.bytes ≡ said (codes "word " ++ decimal index ++ codes " refused") }
{
    let mut text = Line::new();
    push_numbered(&mut text, "word ", index as u64);
    text.push_str(" refused");
    said(&text)
}
