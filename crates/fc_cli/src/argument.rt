//! Arguments of the command lines: options, flags and positional arguments.
ghost use Rattle.fc_cli.specs.Arguments.{IsFlagArg, IsOptionArg, IsPositionalArg};

use clap::{Arg, ArgAction};
use std::alloc::Global;

/// Makes the option `--NAME VALUE`, which is optional and takes any text.
///
/// The value is read by `name`. `value` is the value's name in the help.
pub fn option<'a>(alloc: Global, name: &'a str, value: &'a str, help: &'a str) -> Arg<'a>
    ensures { IsOptionArg name.now value.now help.now result }
{
    positional(alloc, name, value, help).long(name)
}

/// Makes the flag `--NAME`, which is optional and has no value.
///
/// The flag is read by `name`.
pub fn flag<'a>(alloc: Global, name: &'a str, help: &'a str) -> Arg<'a>
    ensures { IsFlagArg name.now help.now result }
{
    Arg::new(alloc, name)
        .long(name)
        .action(ArgAction::SetTrue)
        .help(help)
}

/// Makes a positional argument, which is optional and may be any text.
///
/// The argument is read by `id`. `value` is its name in the help.
pub fn positional<'a>(alloc: Global, id: &'a str, value: &'a str, help: &'a str) -> Arg<'a>
    ensures { IsPositionalArg id.now value.now help.now result }
{
    Arg::new(alloc, id).value_name(value).help(help)
}
