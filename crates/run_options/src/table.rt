//! An option of the command line, as a row of a table.

use clap::builder::ValueParser;
use clap::{Arg, ArgAction};
use std::alloc::Global;

/// How an option is given.
#[derive(Clone, Copy)]
pub(crate) enum OptionForm {
    /// It is there or not.
    Flag,
    /// It has a text, which the help shows by a name.
    Text(&'static str),
    /// It has a text by a name, and a default.
    Default(&'static str, &'static str),
    /// It has as many texts as there are names.
    Texts(&'static [&'static str]),
    /// It may have a text by a name; what it means without one.
    Optional(&'static str, &'static str),
    /// It may have one of some words by a name; what it means without one.
    Word(&'static str, &'static str, &'static [&'static str]),
    /// It has a number between two.
    Range(u64, u64),
    /// It has a number between two, and a default.
    Number(u64, u64, &'static str),
    /// It has numbers between two by a name, with commas between them.
    Numbers(&'static str, u64, u64),
}

/// An option.
#[derive(Clone, Copy)]
pub(crate) struct OptionRow {
    /// Its name.
    pub(crate) name: &'static str,
    /// How it is given.
    pub(crate) form: OptionForm,
    /// The heading under which the help lists it.
    pub(crate) group: &'static str,
    /// Whether the short help lists it.
    pub(crate) is_first: bool,
    /// Its help.
    pub(crate) help: &'static str,
}

impl OptionRow {
    /// The option, as `clap` reads it. The help lists it if that lists all, or if it is first.
    pub(crate) fn arg<'a>(self, alloc: Global, is_whole: bool) -> Arg<'a> {
        let arg = Arg::new(alloc, self.name)
            .long(self.name)
            .help(self.help)
            .help_heading(self.group)
            .hide(!is_whole && !self.is_first);
        match self.form {
            OptionForm::Flag => arg.action(ArgAction::SetTrue),
            OptionForm::Text(shown) => arg.value_name(shown),
            OptionForm::Default(shown, default) => arg.value_name(shown).default_value(default),
            OptionForm::Texts(names) => arg.value_names(names).num_args(names.len()),
            OptionForm::Optional(shown, missing) => optional(arg.value_name(shown), missing),
            OptionForm::Word(shown, missing, words) => {
                optional(arg.value_name(shown).value_parser(words), missing)
            }
            OptionForm::Range(low, high) => ranged(arg.value_name("N"), low, high),
            OptionForm::Number(low, high, default) => {
                ranged(arg.value_name("N").default_value(default), low, high)
            }
            OptionForm::Numbers(shown, low, high) => {
                ranged(arg.value_name(shown).value_delimiter(','), low, high)
            }
        }
    }
}

/// An option whose value stands after `=`, and may be left out.
fn optional<'a>(arg: Arg<'a>, missing: &'a str) -> Arg<'a> {
    arg.num_args(0..=1)
        .require_equals(true)
        .default_missing_value(missing)
}

/// An option with a number between two.
fn ranged<'a>(arg: Arg<'a>, low: u64, high: u64) -> Arg<'a> {
    arg.value_parser(ValueParser::unsigned(low, high))
}
