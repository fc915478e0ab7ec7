//! The lines of a program's own: each begins with its name, which has at most 30 bytes.

ghost use Rattle.std.specs.Prelude.{◌≡◌, ◌≤◌, ◌+◌, ◌++◌, IfOk, false, length};
ghost use Rattle.std.specs.Io.KnownBytes.{Appends};
ghost use Rattle.std.specs.String.{string_bytes};
ghost use Rattle.programs.specs.OwnLines.{memory_line, program_line, version_line as version_line_spec};

use arrayvec::ArrayString;
use register_records::{Output, send};
use std::alloc::{AllocError, Global};

/// What a program says where memory ran out.
pub const OUT_OF_MEMORY: &str = "out of memory";

/// A line of a program's own: its name, what is wrong, and the word with which it is wrong.
///
/// # Errors
///
/// Memory ran out.
pub fn own_line(
    alloc: Global,
    program: &str,
    message: &str,
    word: &str,
) -> Result<String, AllocError>
    ensures { IfOk result (λ line. string_bytes line ≡ program_line program.now (message.now ++ word.now)) }
{
    let mut line = String::from_str(alloc, program)?;
    line.push_str(": ")?;
    line.push_str(message)?;
    line.push_str(word)?;
    line.push_str("\n")?;
    Ok(line)
}

/// A short line of a program's own, which needs no memory: its name, and what is wrong.
pub fn short_line(program: &str, message: &str) -> ArrayString<64>
    requires short { length program.now + length message.now ≤ 61 }
    ensures { result.bytes ≡ program_line program.now message.now }
{
    let mut line = ArrayString::new();
    line.push_str(program);
    line.push_str(": ");
    line.push_str(message);
    line.push_str("\n");
    line
}

/// The line on the version.
pub fn version_line(program: &str, version: &str) -> ArrayString<64>
    requires short { length program.now + length version.now ≤ 62 }
    ensures { result.bytes ≡ version_line_spec program.now version.now }
{
    let mut line = ArrayString::new();
    line.push_str(program);
    line.push_str(" ");
    line.push_str(version);
    line.push_str("\n");
    line
}

/// Reports that memory ran out. A fault of `errors` is let go: there is nowhere else to report it.
pub fn report_out_of_memory<E: Output>(program: &str, errors: &mut E)
    requires short { length program.now ≤ 30 }
    ensures line { E.has_failed errors.new ≡ false
        → Appends (E.contents errors.old) (E.contents errors.new) (memory_line program.now) }
    ensures goes { E.has_failed errors.new ≡ false → E.has_failed errors.old ≡ false }
    ensures mark { E.own_mark errors.new ≡ E.own_mark errors.old }
{
    let line = short_line(program, OUT_OF_MEMORY);
    let _ = send(errors, line.as_str().as_bytes());
}
