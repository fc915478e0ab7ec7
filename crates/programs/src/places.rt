//! Where an output goes, and the name that its file has until then.

ghost use Rattle.std.specs.Prelude.{◌≡◌, ◌++◌, IfOk};
ghost use Rattle.std.specs.String.{string_bytes};
ghost use Rattle.programs.specs.OutputNames.{part_of};

use std::alloc::{AllocError, Global};

/// What the name of an output's file has at the end until its source has ended.
const PART: &str = ".part";

/// Where an output goes: its name, and the one that its file has until its source has ended.
#[derive(Drop)]
pub struct Place {
    name: String,
    part: String,
    /// Whether its file was made under the second name.
    is_part: bool,
    ghost parted: { string_bytes part ≡ part_of (string_bytes name) },
}

/// A text with another one behind it.
pub fn joined(alloc: Global, text: &str, behind: &str) -> Result<String, AllocError>
    ensures { IfOk result (λ both. string_bytes both ≡ text.now ++ behind.now) }
{
    let mut both = String::from_str(alloc, text)?;
    both.push_str(behind)?;
    Ok(both)
}

impl Place {
    ghost use Rattle.std.specs.String.{string_bytes};
    ghost use Rattle.programs.specs.OutputNames.{part_of};
    ghost use Rattle.programs.specs.Places.{place_name};

    /// The place of an output whose name is that of a file with this ending.
    pub fn new(alloc: Global, file: &str, ending: &str) -> Result<Place, AllocError>
        ensures { IfOk result (λ place. place_name place ≡ file.now ++ ending.now) }
    {
        let name = joined(alloc, file, ending)?;
        let part = joined(alloc, name.as_str(), PART)?;
        Ok(Place {
            name,
            part,
            is_part: false,
        })
    }

    /// The name of the output.
    pub fn name(&self) -> &str
        ensures { result.now ≡ place_name self.now }
    {
        self.name.as_str()
    }

    /// The name that its file has until its source has ended.
    pub fn part(&self) -> &str
        ensures { result.now ≡ part_of (place_name self.now) }
    {
        self.part.as_str()
    }

    /// Another one, of the same output.
    pub fn copy(&self, alloc: Global) -> Result<Place, AllocError>
        ensures { IfOk result (λ place. place_name place ≡ place_name self.now) }
    {
        Ok(Place {
            name: String::from_str(alloc, self.name.as_str())?,
            part: String::from_str(alloc, self.part.as_str())?,
            is_part: self.is_part,
        })
    }

    /// The name of the output, alone.
    pub fn into_name(self) -> String
        ensures { string_bytes result ≡ place_name self }
    {
        self.name
    }

    /// Whether its file was made under that name, so that it is to get its own.
    pub fn is_part(&self) -> bool {
        self.is_part
    }

    /// Notes that its file was made under that name.
    pub fn set_part(&mut self)
        ensures { place_name self.new ≡ place_name self.old }
    {
        self.is_part = true;
    }
}
