// What the words of a command line say.
ghost use Rattle.std.specs.Prelude.{◌≡◌, option_map, map};
ghost use Rattle.clap.specs.Walk.{all_of, first_of};
ghost use Rattle.xb_command.specs.Given.{ReadsFlag, ReadsNumber, given_by};

use clap::ArgMatches;
use std::marker::Model;

/// The words of a command line that `clap` took.
#[derive(Drop)]
pub struct Words<'a> {
    pub(crate) matches: ArgMatches<'a>,
}

impl<'a> Model for Words<'a> {
    ghost use Rattle.std.specs.Prelude.{List};
    ghost use Rattle.clap.specs.Matches.{found_of};
    ghost use Rattle.clap.specs.Walk.{Row, rows_of};

    ghost Value = { List Row };

    ghost view = { λ words. rows_of (found_of words.matches) };
}

impl<'a> Words<'a> {
    /// The number that an option was given.
    pub fn number(&self, name: &str) -> Option<u32>
        ensures { ReadsNumber (given_by self.now name.now) result }
    {
        self.matches.get_one::<u32>(name)
    }

    /// Whether a flag was given.
    pub fn flag(&self, name: &str) -> bool
        ensures { ReadsFlag (given_by self.now name.now) result }
    {
        self.matches.get_flag(name)
    }

    /// The text that an option was given, or the word that stands alone under a name.
    pub fn text(&self, name: &str) -> Option<&'a str>
        ensures { option_map (λ text. text.now) result ≡ first_of name.now self.now }
    {
        self.matches.get_str(name)
    }

    /// The words that stand alone under a name.
    pub fn texts(&self, name: &str) -> Option<&[&'a str]>
        ensures { option_map (λ texts. map (λ text. text.now) texts.now) result ≡ all_of name.now self.now }
    {
        self.matches.get_strs(name)
    }
}
