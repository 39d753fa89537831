//! Forms of commands.
use crate::arguments::Arguments;
use crate::help::FORMS;
use clap::{Arg, Command as Parser};
use std::alloc::{AllocError, Global};

/// A command: its name, its help, and its arguments in order.
#[derive(Clone, Copy)]
pub(crate) struct CommandForm {
    pub name: &'static str,
    pub about: &'static str,
    pub long_about: &'static str,
    pub arguments: &'static [Arguments],
}

impl CommandForm {
    /// The command of this form, with the kinds of module and the exit statuses at the end of its help.
    pub(crate) fn command<'a>(&self, alloc: Global) -> Result<Parser<'a>, AllocError> {
        self.with_arguments(alloc, self.described(alloc).after_help(FORMS))
    }

    /// The command of this form, with nothing after the arguments in its help.
    pub(crate) fn short_command<'a>(&self, alloc: Global) -> Result<Parser<'a>, AllocError> {
        self.with_arguments(alloc, self.described(alloc))
    }

    fn described<'a>(&self, alloc: Global) -> Parser<'a> {
        Parser::new(alloc, self.name)
            .about(self.about)
            .long_about(self.long_about)
    }

    fn with_arguments<'a>(
        &self,
        alloc: Global,
        command: Parser<'a>,
    ) -> Result<Parser<'a>, AllocError> {
        let mut command = command;
        for arguments in self.arguments {
            command = with_each(alloc, command, *arguments)?;
        }
        Ok(command)
    }
}

/// The command with each of these arguments.
fn with_each<'a>(
    alloc: Global,
    command: Parser<'a>,
    arguments: Arguments,
) -> Result<Parser<'a>, AllocError> {
    let mut command = command;
    for form in arguments.forms() {
        command = with_argument(command, form.argument(alloc))?;
    }
    Ok(command)
}

/// The command with one more argument.
fn with_argument<'a>(
    command: Parser<'a>,
    argument: Result<Arg<'a>, AllocError>,
) -> Result<Parser<'a>, AllocError> {
    match argument {
        Ok(argument) => command.arg(argument),
        Err(error) => {
            drop(command);
            Err(error)
        }
    }
}
