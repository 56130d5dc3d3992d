//! The options of `mesh`, as they are set.

ghost use Rattle.std.specs.Prelude.{◌≡◌};
ghost use Rattle.std.specs.Option.{option_copied};
ghost use Rattle.call_words.specs.CommandLine.{nothing_given, word_given, with_word};
ghost use Rattle.call_words.specs.WordsRead.{given_of, setting_of};

/// An option of `mesh`.
#[derive(Clone, Copy, Debug, PartialEq, Eq)]
pub enum Setting {
    /// The greatest size.
    Maxh,
    /// The grading.
    Grading,
    /// The greatest class.
    Class,
    /// The number of steps.
    Steps,
}

/// The words that options are set to, where they are.
#[derive(Clone, Copy)]
pub struct Settings<'a> {
    pub maxh: Option<&'a str>,
    pub grading: Option<&'a str>,
    pub class: Option<&'a str>,
    pub steps: Option<&'a str>,
}

/// The option that is called so.
pub(crate) fn setting_of(name: &str) -> Option<Setting>
    ensures { result ≡ setting_of name.now }
{
    if name == "maxh" {
        Some(Setting::Maxh)
    } else if name == "grading" {
        Some(Setting::Grading)
    } else if name == "class" {
        Some(Setting::Class)
    } else if name == "steps" {
        Some(Setting::Steps)
    } else {
        None
    }
}

impl<'a> Settings<'a> {
    /// No option is set.
    pub(crate) fn new() -> Self
        ensures { given_of result ≡ nothing_given }
    {
        Settings {
            maxh: None,
            grading: None,
            class: None,
            steps: None,
        }
    }

    /// What the option is set to.
    pub(crate) fn get(&self, setting: Setting) -> Option<&'a str>
        ensures { option_copied result ≡ word_given setting (given_of self.now) }
    {
        match setting {
            Setting::Maxh => self.maxh,
            Setting::Grading => self.grading,
            Setting::Class => self.class,
            Setting::Steps => self.steps,
        }
    }

    /// The same with the option set to the word.
    pub(crate) fn with(self, setting: Setting, word: &'a str) -> Self
        ensures { given_of result ≡ with_word setting word.entry.now (given_of self.entry) }
    {
        match setting {
            Setting::Maxh => Settings {
                maxh: Some(word),
                ..self
            },
            Setting::Grading => Settings {
                grading: Some(word),
                ..self
            },
            Setting::Class => Settings {
                class: Some(word),
                ..self
            },
            Setting::Steps => Settings {
                steps: Some(word),
                ..self
            },
        }
    }
}
