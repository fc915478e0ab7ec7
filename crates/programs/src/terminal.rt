//! Lines that go to a terminal, or elsewhere.

ghost use Rattle.std.specs.Prelude.{◌≤◌, IfSome, length};
ghost use Rattle.std.specs.Io.{WritesAtMost};
ghost use Rattle.programs.specs.Sides.{lines_contents};

use arrayvec::ArrayString;
use std::fmt::Write as _;
use std::io;
use std::io::{IsTerminal, Write};

/// Where lines go. What goes to a terminal has its control characters written as text, such as `\u{1b}`, so that no name
/// that stands in a line can move the cursor, change colors or begin a line of its own. The line end of a line stays, and
/// so do all those of a text of several lines. Elsewhere everything stays as it is.
#[derive(Drop)]
pub enum Lines<E> {
    /// To a terminal, from the program of this name.
    ToTerminal(E, &'static str),
    AsTheyAre(E),
}

/// The lines of this stream, from the program of this name.
pub fn lines_to<E: Write + IsTerminal>(stream: E, program: &'static str) -> Lines<E> {
    if stream.is_terminal() {
        Lines::ToTerminal(stream, program)
    } else {
        Lines::AsTheyAre(stream)
    }
}

/// A control character: its number, and how many bytes it takes in UTF-8.
#[derive(Clone, Copy)]
struct Control {
    number: u8,
    len: usize,
}

/// The control character with which a text begins, if it does. The line end at the end of the text is none, nor is any
/// where the text is not `one_line`.
fn leading_control(text: &[u8], one_line: bool) -> Option<Control>
    ensures { IfSome result (λ c. c.len ≤ length text.now) }
{
    match text {
        [b'\n'] => None,
        [b'\n', ..] if !one_line => None,
        [number @ (0..=0x1f | 0x7f), ..] => Some(Control {
            number: *number,
            len: 1,
        }),
        [0xc2, number @ 0x80..=0x9f, ..] => Some(Control {
            number: *number,
            len: 2,
        }),
        _ => None,
    }
}

/// How many bytes stand before the first control character.
fn plain_len(text: &[u8], one_line: bool) -> usize
    ensures { result ≤ length text.now }
{
    for len in 0..text.len() {
        if leading_control(&text[len..], one_line).is_some() {
            return len;
        }
    }
    text.len()
}

/// Writes to a terminal what stands before the first control character, or else the one with which the text begins, and
/// returns how many bytes of the text these are.
fn write_piece<E: Write>(terminal: &mut E, text: &[u8], one_line: bool) -> io::Result<usize>
    ensures bound { WritesAtMost result text.now }
{
    let Some(Control { number, len }) = leading_control(text, one_line) else {
        let len = plain_len(text, one_line);
        terminal.write_all(&text[..len])?;
        return Ok(len);
    };
    let mut shown = ArrayString::<8>::new();
    let _ = write!(shown, "\\u{{{number:x}}}");
    terminal.write_all(shown.as_bytes())?;
    Ok(len)
}

/// Whether a text begins with the name of a program, a colon and a space.
fn is_message(text: &[u8], program: &str) -> bool {
    match text.strip_prefix(program.as_bytes()) {
        Some(rest) => rest.starts_with(b": "),
        None => false,
    }
}

/// Writes a text to a terminal, its control characters as text. A message of the program's own is one line; what `clap`
/// says has several. A text that comes in two calls is not seen to be one; messages come whole.
fn write_shown<E: Write>(terminal: &mut E, program: &str, text: &[u8]) -> io::Result<usize>
    ensures bound { WritesAtMost result text.now }
{
    let one_line = is_message(text, program);
    let mut next = 0;
    for at in 0..text.len() {
        if at == next {
            next = at + write_piece(terminal, &text[at..], one_line)?;
        }
    }
    Ok(next.min(text.len()))
}

impl<E: Write> Write for Lines<E> {
    ghost contents = { lines_contents E.contents };

    fn write(&mut self, buf: &[u8]) -> io::Result<usize> {
        match self {
            Lines::ToTerminal(terminal, program) => write_shown(terminal, program, buf),
            Lines::AsTheyAre(stream) => stream.write(buf),
        }
    }

    fn flush(&mut self) -> io::Result<()> {
        match self {
            Lines::ToTerminal(terminal, _) => terminal.flush(),
            Lines::AsTheyAre(stream) => stream.flush(),
        }
    }
}
