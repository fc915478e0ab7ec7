//! The pages that a program prints.

ghost use Rattle.std.specs.Prelude.{◌≡◌, ◌≤◌, ◌⊎◌, ◌-◌, ◌++◌, OnOk, codes, flat_map, length, true};
ghost use Rattle.programs.specs.HelpPages.{gap, help_text, option_text, page_text, value_part};
ghost use Rattle.programs.specs.Pages.{IsPrinted};
ghost use Rattle.programs.specs.private.Sending.{IsSent, head};

use crate::arguments::{Argument, Kind};
use crate::own_lines::short_line;
use crate::statuses::{COMPLETE, INCOMPLETE};
use register_records::{Output, OutputFault, send};

/// A page of help.
pub struct Help<'a> {
    /// What stands above the options.
    pub above: &'a str,
    /// The options, in the order of the page.
    pub arguments: &'a [Argument<'a>],
    /// What stands below them.
    pub below: &'a str,
}

/// A page that a program prints.
#[derive(Clone, Copy)]
pub enum Page<'a> {
    /// A page of help, laid out.
    Help(&'a Help<'a>),
    /// A text as it stands.
    Text(&'a str),
}

/// What stands before a name.
const DASHES: &str = "    --";

/// The blanks before what an option does.
const BLANKS: &[u8] = b"                      ";

/// What leads to what an option does where its name has no room beside it.
const LINE_BREAK: &str = "\n                      ";

/// The options of each program, which are those of clap.
const OF_EACH: &str = "    -h, --help        print this page and read nothing.
    -V, --version     print the version and read nothing.
";

/// Sends texts, one after the other.
fn send_all<W: Output>(output: &mut W, texts: &[&str]) -> Result<(), OutputFault>
    ensures { IsSent W.Output (flat_map (λ text. text.now) texts.now) result output.old output.new }
{
    'texts: for &text in texts {
        send(output, text.as_bytes())?;
    }
    Ok(())
}

/// What an option has behind its name: a blank, and what stands for its value.
fn value_texts<'a>(kind: Kind<'a>) -> (&'a str, &'a str)
    ensures { result.0.now ++ result.1.now ≡ value_part kind.entry }
{
    match kind {
        Kind::Valued(value) | Kind::Repeated(value) => (" ", value.name()),
        Kind::Flag => ("", ""),
    }
}

/// How many columns are left behind an option of this name and value, up to that of what it does.
fn room_behind(name: &str, blank: &str, value: &str) -> usize
    ensures { result ≡ 22 - length (codes "    --" ++ (name.now ++ (blank.now ++ value.now))) }
{
    BLANKS
        .len()
        .saturating_sub(DASHES.len())
        .saturating_sub(name.len())
        .saturating_sub(blank.len())
        .saturating_sub(value.len())
}

/// Sends what leads to the column of what an option does, which is so many columns away.
fn send_gap<W: Output>(output: &mut W, room: usize) -> Result<(), OutputFault>
    requires { room ≤ 22 }
    ensures { IsSent W.Output (gap room) result output.old output.new }
{
    if room == 0 {
        send(output, LINE_BREAK.as_bytes())
    } else {
        send(output, &BLANKS[..room])
    }
}

/// Sends the name of an option, what stands for its value, and what leads to the column of what it does.
fn send_head<W: Output>(output: &mut W, argument: Argument<'_>) -> Result<(), OutputFault>
    ensures { IsSent W.Output (head argument.entry ++ gap (22 - length (head argument.entry))) result
        output.old output.new }
{
    let (blank, value) = value_texts(argument.kind);
    send_all(output, &[DASHES, argument.name, blank, value])?;
    send_gap(output, room_behind(argument.name, blank, value))
}

/// Sends the lines on an option.
fn send_option<W: Output>(output: &mut W, argument: Argument<'_>) -> Result<(), OutputFault>
    ensures { IsSent W.Output (option_text argument.entry) result output.old output.new }
{
    send_head(output, argument)?;
    send_all(output, &[argument.help, "\n"])
}

/// Sends a page of help.
fn send_help<W: Output>(output: &mut W, help: &Help<'_>) -> Result<(), OutputFault>
    ensures sent { IsSent W.Output (help_text help.now) result output.old output.new }
    ensures flushed { OnOk result (W.is_flushed output.new ≡ true) }
{
    send(output, help.above.as_bytes())?;
    'options: for &argument in help.arguments {
        send_option(output, argument)?;
    }
    send(output, OF_EACH.as_bytes())?;
    send(output, help.below.as_bytes())
}

/// Sends a page.
fn send_page<W: Output>(output: &mut W, page: Page<'_>) -> Result<(), OutputFault>
    ensures sent { IsSent W.Output (page_text page.entry) result output.old output.new }
    ensures flushed { OnOk result (W.is_flushed output.new ≡ true) }
{
    match page {
        Page::Help(help) => send_help(output, help),
        Page::Text(text) => send(output, text.as_bytes()),
    }
}

/// Prints a page, and returns the exit status. A fault of `errors` is let go: there is nowhere else to report it.
pub fn print_page<W: Output, E: Output>(
    program: &str,
    page: Page<'_>,
    output: &mut W,
    errors: &mut E,
) -> u8
    requires short { length program.now ≤ 30 }
    ensures printed { IsPrinted W.Output E.Output program.now (page_text page.entry) result
        output.old output.new errors.old errors.new }
    ensures statuses { (result ≡ 0) ⊎ (result ≡ 1) }
    ensures mark { W.own_mark output.new ≡ W.own_mark output.old }
    ensures errors_mark { E.own_mark errors.new ≡ E.own_mark errors.old }
{
    if send_page(output, page).is_ok() {
        COMPLETE
    } else {
        let line = short_line(program, "cannot write to standard output");
        let _ = send(errors, line.as_str().as_bytes());
        INCOMPLETE
    }
}
