//! Lines that go to a terminal, and the same lines elsewhere.

use crate::tests::helpers::{NoFiles, ONE_RECORD, hear};
use programs::Lines;
use std::alloc::Global;
use std::io;
use std::io::{ErrorKind, Write};
use std::sync::Wait;
use std::test::Fail;
use std::thread::Threads;
use std::time::{Clock, CpuClock};

/// A stream over memory that takes so many bytes by one write, is interrupted at its second write, and has room for so
/// many bytes in all.
#[derive(Drop)]
struct Slow {
    bytes: Vec<u8>,
    most: usize,
    room: usize,
    writes: u32,
}

impl Write for Slow {
    fn write(&mut self, buf: &[u8]) -> io::Result<usize> {
        self.writes = self.writes.saturating_add(1);
        if self.writes == 2 {
            return Err(io::Error::from(ErrorKind::Interrupted));
        }
        let count = buf.len().min(self.most).min(self.room);
        self.bytes.extend_from_slice(&buf[..count])?;
        self.room -= count;
        Ok(count)
    }

    fn flush(&mut self) -> io::Result<()> {
        Ok(())
    }
}

/// A wrong target, and how the line that names it stands on a terminal.
#[derive(Clone, Copy)]
struct Shown {
    target: &'static str,
    line: &'static str,
}

static SHOWN: [Shown; 7] = [
    Shown {
        target: "Mayan",
        line: "register: unknown target: Mayan\n",
    },
    Shown {
        target: "",
        line: "register: unknown target: \n",
    },
    // The first and the last control characters of each kind, and what stands beside them.
    Shown {
        target: "\0\u{1f} ~\u{7f}",
        line: "register: unknown target: \\u{0}\\u{1f} ~\\u{7f}\n",
    },
    Shown {
        target: "\u{80}\u{9f}\u{a0}",
        line: "register: unknown target: \\u{80}\\u{9f}\u{a0}\n",
    },
    Shown {
        target: "\u{1b}]0;title\u{7}\u{1b}[31mred",
        line: "register: unknown target: \\u{1b}]0;title\\u{7}\\u{1b}[31mred\n",
    },
    Shown {
        target: "a\tb\rc\nd",
        line: "register: unknown target: a\\u{9}b\\u{d}c\\u{a}d\n",
    },
    Shown {
        target: "Père עברית 日本 \u{2028}",
        line: "register: unknown target: Père עברית 日本 \u{2028}\n",
    },
];

/// What a stream has taken.
fn bytes_of(stream: &Lines<Slow>) -> &[u8] {
    match stream {
        Lines::ToTerminal(slow, _) => slow.bytes.as_slice(),
        Lines::AsTheyAre(slow) => slow.bytes.as_slice(),
    }
}

/// Whether this stands on a stream after the answer to a wrong target.
fn is_reported(
    rt: &(impl Threads + Wait + Clock + CpuClock + Sync),
    alloc: Global,
    target: &str,
    stream: Lines<Slow>,
    wanted: &[u8],
) -> bool {
    let arguments = ["--to", target];
    let output = Vec::new(alloc);
    let Ok(heard) = hear(rt, alloc, &arguments, ONE_RECORD, output, &NoFiles, stream) else {
        return false;
    };
    bytes_of(&heard.errors) == wanted
}

/// Whether the line for a target stands on a terminal as it should, where each write takes so many bytes, and a front
/// of it where there is no room for all.
fn is_shown(
    rt: &(impl Threads + Wait + Clock + CpuClock + Sync),
    alloc: Global,
    shown: &Shown,
    most: usize,
    room: usize,
) -> bool {
    let line = shown.line.as_bytes();
    let terminal = Slow {
        bytes: Vec::new(alloc),
        most,
        room,
        writes: 0,
    };
    let stream = Lines::ToTerminal(terminal, "register");
    is_reported(
        rt,
        alloc,
        shown.target,
        stream,
        &line[..line.len().min(room)],
    )
}

/// Whether the line for a target stands elsewhere as it is.
fn is_as_it_is(
    rt: &(impl Threads + Wait + Clock + CpuClock + Sync),
    alloc: Global,
    target: &str,
) -> bool {
    let Ok(line) = format!(in alloc; "register: unknown target: {target}\n") else {
        return false;
    };
    let stream = Lines::AsTheyAre(Slow {
        bytes: Vec::new(alloc),
        most: 1,
        room: 1000,
        writes: 0,
    });
    is_reported(rt, alloc, target, stream, line.as_bytes())
}

#[test]
fn control_characters_are_shown_on_a_terminal_alone(rt: HostRuntime) -> Result<(), Fail> {
    for shown in &SHOWN {
        for most in [1, 2, 7, 1000] {
            for room in [0, 27, 28, 31, 36, 1000] {
                assert!(rt;
                    is_shown(&rt, rt.alloc(), shown, most, room),
                    "{}, {most} at a time, room for {room}",
                    shown.line
                );
            }
        }
        assert!(rt;
            is_as_it_is(&rt, rt.alloc(), shown.target),
            "{}",
            shown.line
        );
    }
    Ok(())
}
