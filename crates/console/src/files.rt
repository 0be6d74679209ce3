//! Files read and written, with messages that name them.
ghost use Rattle.std.specs.Prelude.{◌≡◌, IfOk};

use crate::failed::Failed;
use crate::program::Program;
use std::fs::{self, Files};

/// What is added to a file's name for a moment.
const ASIDE: &str = ".renamed-to-compare";

/// A file that was read: its name, and the bytes in it.
#[derive(Drop)]
pub struct Input<'a> {
    pub path: &'a str,
    pub bytes: Vec<u8>,
}

impl Program<'_> {
    /// Reads a file; `what` says in a message what the file is for.
    pub fn read<'a>(&self, what: &str, path: &'a str) -> Result<Input<'a>, Failed>
        ensures { IfOk result (λ input. input.path.now ≡ path.now) }
    {
        let bytes = fs::read(self.rt, path).map_err(|e| self.refused(format_args!(
            "cannot read the {what} {path}: {e}"
        )))?;
        Ok(Input { path, bytes })
    }

    /// Writes a file.
    fn write(&self, path: &str, bytes: &[u8]) -> Result<(), Failed> {
        fs::write(self.rt, path, bytes).map_err(|e| self.refused(format_args!(
            "cannot write {path}: {e}"
        )))
    }

    /// Writes `bytes` to `out`, unless that names one of the files `inputs`: then nothing is written
    /// and the name is refused. A link to an input is replaced, and the input stays as it is.
    pub fn write_beside(&self, inputs: &[Input], out: &str, bytes: &[u8]) -> Result<(), Failed> {
        let rt = self.rt;
        let held = self.held(out);
        if inputs.iter().any(|input| input.is_twin(&held)) {
            let aside = self.put_aside(out)?;
            for input in inputs {
                if input.is_twin(&held) && input.is_put_aside(rt, aside.as_str()) {
                    fs::rename(rt, aside.as_str(), out)?;
                    let path = input.path;
                    return Err(self.refused(format_args!(
                        "{out} is the input {path}; name another file for the output"
                    )));
                }
            }
            fs::remove_file(rt, aside.as_str())?;
        }
        self.write(out, bytes)
    }

    /// The bytes in `out`, where that names a plain file: read once, for all inputs.
    fn held(&self, out: &str) -> Option<Vec<u8>> {
        if fs::metadata(self.rt, out).is_ok_and(|found| found.is_file()) {
            fs::read(self.rt, out).ok()
        } else {
            None
        }
    }

    /// Gives the file `out` another name for a moment, and answers that name.
    fn put_aside(&self, out: &str) -> Result<String, Failed> {
        let rt = self.rt;
        let aside = format!(in rt.alloc(); "{out}{ASIDE}")?;
        if fs::exists(rt, aside.as_str())? {
            return Err(self.refused(format_args!(
                "{aside} is in the way; remove it, or name another file for the output"
            )));
        }
        fs::rename(rt, out, aside.as_str())?;
        Ok(aside)
    }
}

impl Input<'_> {
    /// Whether the input has just these bytes: no other can be the file that holds them.
    fn is_twin(&self, held: &Option<Vec<u8>>) -> bool {
        held.as_ref()
            .is_some_and(|held| held.as_slice() == self.bytes.as_slice())
    }

    /// Whether the input is the file that has the name `aside` for a moment: its own name leads nowhere any more, or,
    /// as that of an open file such as `/dev/stdin`, to that file. A link with the name `aside` is no input.
    fn is_put_aside(&self, rt: &HostRuntime, aside: &str) -> bool {
        match rt.canonicalize(rt.alloc(), self.path) {
            Ok(found) => {
                !fs::symlink_metadata(rt, aside).is_ok_and(|name| name.is_symlink())
                    && rt
                        .canonicalize(rt.alloc(), aside)
                        .is_ok_and(|place| place.as_str() == found.as_str())
            }
            Err(_) => !fs::exists(rt, self.path).unwrap_or(false),
        }
    }
}
