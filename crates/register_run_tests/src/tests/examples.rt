//! The example in the doc comment of `run`, under the name of its item. The lines are the same in both places.

use register_records::{Form, PlainOutput, Setup};
use register_run::{Verdict, run};
use std::test::Fail;

/// `run`
#[test]
fn sources_become_tables(rt: HostRuntime) -> Result<(), Fail> {
    let setup = Setup::new(&[], 16, b',', 1, Form::Plain)?;
    let text = b"id,calendar,date\nx,gregorian,1970-01-01\n";
    let sources = Vec::from_array(rt.alloc(), [text.as_slice()])?;
    let outputs = Vec::from_array(rt.alloc(), [PlainOutput::new(Vec::new(rt.alloc()), 1)])?;
    let result = run(&rt, rt.alloc(), sources, outputs, &setup);
    assert!(rt; result.is_ok_and(|report| report.verdict == Verdict::Complete));
    Ok(())
}
