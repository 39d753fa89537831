//! Forms of arguments, from which `clap` parses.
use clap::{Arg, ArgAction, value_parser};
use std::alloc::{AllocError, Global};

/// An argument of a command: its name, the name of its value in help (empty if it takes none), its help, and what it takes.
#[derive(Clone, Copy)]
pub(crate) struct ArgumentForm {
    pub name: &'static str,
    pub value: &'static str,
    pub help: &'static str,
    pub takes: ArgumentKind,
}

/// The kind of an argument.
#[derive(Clone, Copy)]
pub(crate) enum ArgumentKind {
    /// A word by position, which may be left out.
    Word,
    /// A word by position.
    NeededWord,
    /// A time by position.
    NeededTime,
    /// An option with a number, and its default.
    Number(&'static str),
    /// An option with a number, which requires another argument.
    NumberWith(&'static str),
    /// An option with a word.
    OneWord,
    /// An option with a word, which requires another argument.
    WordWith(&'static str),
    /// An option with two values of these names, which requires another argument.
    PairWith(&'static [&'static str], &'static str),
    /// An option with a time.
    Time,
    /// An option with a word, which may be given several times.
    Words,
    /// An option without a value.
    Nothing,
    /// An option without a value, which requires another argument.
    NothingWith(&'static str),
    /// An option without a value, with which others can't be given.
    NothingWithout(&'static [&'static str]),
}

impl ArgumentForm {
    /// The argument of this form.
    pub(crate) fn argument<'a>(&self, alloc: Global) -> Result<Arg<'a>, AllocError> {
        match self.takes {
            ArgumentKind::Word => self.word(alloc),
            ArgumentKind::NeededWord => self.needed_word(alloc),
            ArgumentKind::NeededTime => self.needed_time(alloc),
            ArgumentKind::Number(default) => self.number(alloc, default),
            ArgumentKind::NumberWith(other) => self.count(alloc).requires_arg(other),
            ArgumentKind::OneWord => Ok(self.valued(alloc)),
            ArgumentKind::WordWith(other) => self.valued(alloc).requires_arg(other),
            ArgumentKind::PairWith(names, other) => self.pair(alloc, names).requires_arg(other),
            ArgumentKind::Time => self.time(alloc),
            ArgumentKind::Words => self.words(alloc),
            ArgumentKind::Nothing => Ok(self.flag(alloc)),
            ArgumentKind::NothingWith(other) => self.flag(alloc).requires_arg(other),
            ArgumentKind::NothingWithout(others) => self.flag(alloc).conflicts_with_all(others),
        }
    }

    fn word<'a>(&self, alloc: Global) -> Result<Arg<'a>, AllocError> {
        Ok(self.placed(alloc))
    }

    fn needed_word<'a>(&self, alloc: Global) -> Result<Arg<'a>, AllocError> {
        Ok(self.needed(alloc))
    }

    fn needed_time<'a>(&self, alloc: Global) -> Result<Arg<'a>, AllocError> {
        Ok(self.needed(alloc).value_parser(value_parser!(u64)))
    }

    fn needed<'a>(&self, alloc: Global) -> Arg<'a> {
        self.placed(alloc).required(true)
    }

    /// The argument by position, with the name of its value and its help.
    fn placed<'a>(&self, alloc: Global) -> Arg<'a> {
        self.named(Arg::new(alloc, self.name))
    }

    fn number<'a>(&self, alloc: Global, default: &'static str) -> Result<Arg<'a>, AllocError> {
        Ok(self.count(alloc).default_value(default))
    }

    fn count<'a>(&self, alloc: Global) -> Arg<'a> {
        self.valued(alloc).value_parser(value_parser!(u32))
    }

    fn time<'a>(&self, alloc: Global) -> Result<Arg<'a>, AllocError> {
        Ok(self.valued(alloc).value_parser(value_parser!(u64)))
    }

    fn words<'a>(&self, alloc: Global) -> Result<Arg<'a>, AllocError> {
        Ok(self.valued(alloc).action(ArgAction::Append))
    }

    fn pair<'a>(&self, alloc: Global, names: &'static [&'static str]) -> Arg<'a> {
        self.option(alloc).value_names(&*names).help(self.help)
    }

    fn flag<'a>(&self, alloc: Global) -> Arg<'a> {
        self.option(alloc)
            .action(ArgAction::SetTrue)
            .help(self.help)
    }

    /// The option with the name of its value and its help.
    fn valued<'a>(&self, alloc: Global) -> Arg<'a> {
        self.named(self.option(alloc))
    }

    /// The option of this name.
    fn option<'a>(&self, alloc: Global) -> Arg<'a> {
        Arg::new(alloc, self.name).long(self.name)
    }

    /// The argument with the name of its value and its help.
    fn named<'a>(&self, argument: Arg<'a>) -> Arg<'a> {
        argument.value_name(self.value).help(self.help)
    }
}
