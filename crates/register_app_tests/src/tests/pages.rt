//! The pages of help, as they are laid out.

use programs::{Argument, COMPLETE, Help, Kind, Page, Value, print_page};
use register_arguments::{HELP, NAME};
use register_records::PlainOutput;
use std::alloc::Global;

/// A page of help, as it is printed where nothing breaks.
fn printed(alloc: Global, help: &Help<'_>) -> Option<String> {
    let mut output = PlainOutput::new(Vec::new(alloc), 1);
    let mut errors = PlainOutput::new(Vec::new(alloc), 1);
    if print_page(NAME, Page::Help(help), &mut output, &mut errors) != COMPLETE {
        return None;
    }
    String::from_utf8(output.into_inner()).ok()
}

/// That of `register`.
pub fn page_of_help(alloc: Global) -> Option<String> {
    printed(alloc, &HELP)
}

/// Options whose names and values leave room for what they do, just leave it, and leave none.
const OPTIONS: [Argument<'static>; 4] = [
    Argument {
        name: "ring",
        kind: Kind::Valued(Value::Number {
            name: "N",
            least: 1,
            most: 4,
        }),
        help: "one line",
    },
    Argument {
        name: "calendar",
        kind: Kind::Repeated(Value::Text("COLUMN")),
        help: "the first of three lines
                      the second
                      the third",
    },
    Argument {
        name: "calendars",
        kind: Kind::Valued(Value::Words {
            name: "NUMBER",
            words: "one|two",
        }),
        help: "below its name",
    },
    Argument {
        name: "sealed",
        kind: Kind::Flag,
        help: "a flag",
    },
];

const PAGE: Help<'static> = Help {
    above: "Above.\n\n",
    arguments: &OPTIONS,
    below: "\nBelow.\n",
};

const LAID_OUT: &str = "Above.

    --ring N          one line
    --calendar COLUMN the first of three lines
                      the second
                      the third
    --calendars NUMBER
                      below its name
    --sealed          a flag
    -h, --help        print this page and read nothing.
    -V, --version     print the version and read nothing.

Below.
";

#[test]
fn options_are_laid_out(rt: HostRuntime) {
    assert!(rt; printed(rt.alloc(), &PAGE).is_some_and(|page| page.as_str() == LAID_OUT));
}
