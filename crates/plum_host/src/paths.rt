//! The paths of the inputs and of the journal file.

ghost use Rattle.std.specs.Prelude.{◌≡◌, IfOk};

use crate::host::In;
use plum_base::NoMemory;
use std::alloc::Global;
use std::marker::Model;

/// A path. Contracts see the list of its bytes.
#[derive(Debug, Drop)]
pub struct PathText {
    text: String,
}

impl Model for PathText {
    ghost use Rattle.std.specs.Prelude.{List, ℕ, string_bytes};

    ghost Value = { List ℕ };

    ghost view = { λ p. string_bytes p.text };
}

impl PathText {
    /// The path that the text names.
    pub fn new(alloc: Global, text: &str) -> Result<PathText, NoMemory>
        ensures { IfOk result (λ p. p ≡ text.now) }
    {
        Ok(PathText {
            text: String::from_str(alloc, text)?,
        })
    }

    /// Its text.
    pub fn as_str(&self) -> &str
        ensures { result.now ≡ self.now }
    {
        self.text.as_str()
    }
}

/// Where each input lies, and where the journal goes. A path that is not used is empty.
#[derive(Debug, Drop)]
pub struct Paths {
    pub setup: PathText,
    pub stations: PathText,
    pub targets: PathText,
    pub capture: PathText,
    pub journal: PathText,
    pub output: PathText,
}

impl Paths {
    ghost use Rattle.plum_host.specs.Paths.{path_of};

    /// The path of an input.
    pub fn path_of(&self, file: In) -> &str
        ensures { result.now ≡ path_of self.now file }
    {
        let path = match file {
            In::Setup => &self.setup,
            In::Stations => &self.stations,
            In::Targets => &self.targets,
            In::Capture => &self.capture,
            In::Journal => &self.journal,
            In::Output => &self.output,
        };
        path.as_str()
    }
}
