//! The ring and the stripes of a run, where one or neither of the two is written.

use crate::tests::helpers::arguments_of;
use programs::Request;
use register_arguments::{fitting, read_request};
use std::alloc::Global;
use std::test::Fail;

/// Processors and files, and the ring and the stripes that fit.
const FITS: [(usize, usize, usize, usize); 10] = [
    (0, 0, 256, 1),
    (1, 0, 256, 1),
    (1, 1, 256, 1),
    (2, 0, 256, 2),
    (2, 1, 256, 2),
    (64, 1, 256, 2),
    (2, 2, 256, 1),
    (64, 4, 256, 1),
    (64, 5, 64, 1),
    (1, 32, 64, 1),
];

#[test]
fn each_machine_and_number_of_files_has_what_fits(rt: HostRuntime) -> Result<(), Fail> {
    for (processors, files, ring, stripes) in FITS {
        let fit = fitting(processors, files);
        assert_eq!(rt; (fit.ring, fit.stripes), (ring, stripes));
    }
    Ok(())
}

/// Arguments, and the ring and the stripes of their run on four processors.
const WRITTEN: [(&[&str], usize, usize); 7] = [
    (&[], 256, 2),
    (&["--ring", "16"], 16, 2),
    (&["--stripes", "1"], 256, 1),
    (&["--ring", "16", "--stripes", "1"], 16, 1),
    (&["--stripes", "4", "a", "b", "c", "d", "e"], 64, 4),
    (&["a", "b"], 256, 1),
    (&["--ring=4096", "--", "a"], 4096, 2),
];

/// The ring and the stripes of the run that arguments ask for on four processors, if they ask for one.
fn threads_of(alloc: Global, arguments: &[String]) -> Option<(usize, usize)> {
    match read_request(alloc, arguments) {
        Ok(Request::Convert(job)) => {
            let setup = job.setup(4);
            Some((setup.ring(), setup.stripes()))
        }
        _ => None,
    }
}

#[test]
fn what_is_written_is_taken_and_the_rest_fits(rt: HostRuntime) -> Result<(), Fail> {
    for (words, ring, stripes) in WRITTEN {
        let arguments = arguments_of(rt.alloc(), words)?;
        assert_eq!(rt;
            threads_of(rt.alloc(), arguments.as_slice()),
            Some((ring, stripes))
        );
    }
    Ok(())
}
