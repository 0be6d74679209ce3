//! The lines of a list of cases.
use console::{Failed, Program};

/// A line of the list: the case's name, its file system, and what is known of it.
#[derive(Clone, Copy)]
pub struct Case<'a> {
    pub name: &'a str,
    pub system: &'a str,
    kind: &'a str,
}

impl<'a> Case<'a> {
    /// What a line says.
    pub fn read_line(line: &'a str) -> Option<Case<'a>> {
        let mut words = line.split_whitespace();
        let (name, system, kind) = (words.next()?, words.next()?, words.next()?);
        matches!(kind, "quiet" | "plain" | "script").then_some(Case { name, system, kind })
    }

    /// Whether it is known what is printed of each state.
    pub fn has_plain(self) -> bool {
        self.kind != "quiet"
    }

    /// Whether there are calls, with their answers.
    pub fn has_script(self) -> bool {
        self.kind == "script"
    }

    /// The bytes of one of the case's files.
    pub fn read(self, program: &Program, part: &str) -> Result<Vec<u8>, Failed> {
        let name = self.name;
        let path = format!(in program.rt.alloc(); "{name}.{part}")?;
        Ok(program.read("file", path.as_str())?.bytes)
    }
}
