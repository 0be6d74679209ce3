//! What a call of the program asks for.
ghost use Rattle.std.specs.Prelude.{◌≡◌, ◌+◌, ◌<◌, OnSome, vec_len};

/// What is printed.
#[derive(Drop)]
pub enum How {
    /// The exploration in words.
    Words,
    /// A line for each state, and the report.
    Plain,
    /// The report.
    Quiet,
    /// The answers to the calls of a script in this file.
    Script(String),
}

/// What a call of the program asks for.
#[derive(Drop)]
pub struct Asked {
    pub how: How,
    /// Whether it is told how far the exploration is.
    pub progress: bool,
    /// The file system, the recording, and the base.
    words: [String; 3],
}

impl Asked {
    /// The name of the file system.
    pub fn system(&self) -> &str {
        self.words[0].as_str()
    }

    /// The name of the recording.
    pub fn recording(&self) -> &str {
        self.words[1].as_str()
    }

    /// The name of the base image.
    pub fn base(&self) -> &str {
        self.words[2].as_str()
    }
}

/// The options that are said.
#[derive(Drop)]
struct Options {
    how: Option<How>,
    progress: bool,
}

impl Options {
    /// Says how it is printed; that may be said once.
    fn say(&mut self, how: How) -> Option<()> {
        if self.how.is_some() {
            return None;
        }
        self.how = Some(how);
        Some(())
    }

    /// Takes the option at `i` out of the words, and its file too; none if it lacks the file, or says again how it is printed.
    fn take(&mut self, words: &mut Vec<String>, i: usize) -> Option<()>
        ensures { OnSome result (vec_len words.new < vec_len words.old) }
    {
        let option = take_word(words, i)?;
        match option.as_str() {
            "--progress" => self.progress = true,
            "--plain" => self.say(How::Plain)?,
            "--quiet" => self.say(How::Quiet)?,
            "--script" => {
                let file = take_word(words, i)?;
                self.say(How::Script(file))?;
            }
            _ => return None,
        }
        Some(())
    }
}

/// Takes the word at `i` out of the words, if there is one.
fn take_word(words: &mut Vec<String>, i: usize) -> Option<String>
    ensures { OnSome result (vec_len words.new + 1 ≡ vec_len words.old) }
{
    if i < words.len() {
        Some(words.remove(i))
    } else {
        None
    }
}

/// Whether the word is an option.
fn is_option(word: &str) -> bool {
    matches!(word, "--progress" | "--plain" | "--quiet" | "--script")
}

/// Takes the options out of the words, wherever they stand; none if one is not understood. One that is no option is left.
fn take_options(words: &mut Vec<String>) -> Option<Options> {
    let mut options = Options {
        how: None,
        progress: false,
    };
    let mut i = 0;
    while i < words.len() {
        let word = words[i].as_str();
        if is_option(word) {
            options.take(words, i)?;
        } else if word.starts_with("--") {
            return None;
        } else {
            i += 1;
        }
    }
    Some(options)
}

impl TryFrom<Vec<String>> for Asked {
    type Error = Vec<String>;

    fn try_from(mut words: Vec<String>) -> Result<Asked, Vec<String>> {
        let Some(options) = take_options(&mut words) else {
            return Err(words);
        };
        let words = <[String; 3]>::try_from(words)?;
        Ok(Asked {
            how: options.how.unwrap_or(How::Words),
            progress: options.progress,
            words,
        })
    }
}
