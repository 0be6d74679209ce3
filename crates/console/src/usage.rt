//! How a program is called.
ghost use Rattle.std.specs.Prelude.{◌≡◌, ◌≤◌, ◌⊎◌, Ok, OnOk, IfSome, map, option_map, string_bytes, ⊤};
ghost use Rattle.std.specs.Process.{exit_status};
ghost use Rattle.console.specs.Words.{AsksText, asked_text};

use crate::failed::Failed;
use crate::program::Program;
use std::env;
use std::process::ExitCode;

/// How a program is called.
#[derive(Clone, Copy)]
pub struct Usage<'a> {
    /// The program's name.
    pub name: &'a str,
    /// What `--version` prints; a program may have no such option.
    pub version: Option<&'a str>,
    /// What `--help` prints.
    pub help: &'a str,
    /// Which arguments are wanted, in words.
    pub wanted: &'a str,
}

impl<'a> Usage<'a> {
    /// Does the work on the program's arguments, an array of so many words, or prints the help or
    /// the version that is asked for; and ends with status 0 if that went well, else with 1.
    pub fn run<A, F>(&self, rt: &HostRuntime, work: F) -> ExitCode
    where
        A: TryFrom<Vec<String>, Error = Vec<String>>,
        F: FnOnce(Program, A) -> Result<(), Failed>,
        requires { F.IsAlwaysCallable work }
        ensures { exit_status result ≤ 1 }
    {
        let program = Program {
            rt,
            name: self.name,
        };
        program.status(self.follow(program, work))
    }

    // What `run` asks of the work, the two below ask too: they do it for `run`.
    /// Follows the program's arguments.
    fn follow<A, F>(&self, program: Program, work: F) -> Result<(), Failed>
    where
        A: TryFrom<Vec<String>, Error = Vec<String>>,
        F: FnOnce(Program, A) -> Result<(), Failed>,
        requires { F.IsAlwaysCallable work }
    {
        let rt = program.rt;
        let words: Vec<String> = env::args(rt)
            .map_err(|e| program.refused(format_args!("the words cannot be read: {e}")))?
            .skip(1)
            .collect(rt.alloc())?;
        self.follow_words(program, words, work)
    }

    /// Does the work on the words, or prints the text that they ask for.
    fn follow_words<A, F>(
        &self,
        program: Program,
        words: Vec<String>,
        work: F,
    ) -> Result<(), Failed>
    where
        A: TryFrom<Vec<String>, Error = Vec<String>>,
        F: FnOnce(Program, A) -> Result<(), Failed>,
        requires { F.IsAlwaysCallable work }
        ensures { OnOk result (AsksText words.items ⊎ ((given : A) × F.post work program.entry given (Ok tt))) }
    {
        if let Some(text) = self.text_asked(words.as_slice()) {
            program.rt.println(text)?;
            return Ok(());
        }
        match A::try_from(words) {
            Ok(given) => work(program, given),
            Err(words) => Err(self.not_understood(&program, words.as_slice())),
        }
    }

    /// Says why the words are not what is wanted: a word of them looks like an option, or else they are
    /// too few, too many, or others.
    fn not_understood(&self, program: &Program, words: &[String]) -> Failed {
        let (name, wanted) = (self.name, self.wanted);
        match words.iter().find(|word| word.as_str().starts_with("--")) {
            Some(option) => program.refused(format_args!(
                "{option} is not understood here; {name} --help says more"
            )),
            None => program.refused(format_args!("{wanted}; {name} --help says more")),
        }
    }

    /// The text that the words ask for, if they ask for one.
    fn text_asked(&self, words: &[String]) -> Option<&'a str>
        ensures asks { IfSome result (λ _. AsksText words.now) }
        ensures text { option_map (λ text. text.now) result ≡ asked_text self.now.help.now (option_map (λ text. text.now) self.now.version) (map string_bytes words.now) }
    {
        let [word] = words else {
            return None;
        };
        match word.as_str() {
            "--help" => Some(self.help),
            "--version" => self.version,
            _ => None,
        }
    }
}
