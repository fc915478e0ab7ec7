//! The rings and the stripes that fit machines and numbers of files.

use register_arguments::{MAX_FILES, fitting};
use serde::Serialize;
use std::alloc::{AllocError, Global};

/// The ring and the stripes that fit so many processors, from so many files on.
#[derive(Drop, Serialize)]
pub struct FitFacts {
    processors: usize,
    files: usize,
    ring: usize,
    stripes: usize,
}

/// What fits one, two, three and four processors: for one file, and for each number of files where it changes.
pub fn fit_facts(alloc: Global) -> Result<Vec<FitFacts>, AllocError> {
    let mut all = Vec::new(alloc);
    for processors in 1..=4 {
        let mut before = (0, 0);
        for files in 1..=MAX_FILES {
            let fit = fitting(processors, files);
            let (ring, stripes) = (fit.ring, fit.stripes);
            if (ring, stripes) != before {
                before = (ring, stripes);
                all.push(FitFacts {
                    processors,
                    files,
                    ring,
                    stripes,
                })?;
            }
        }
    }
    Ok(all)
}
