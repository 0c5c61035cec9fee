ghost use Rattle.std.specs.Prelude.{◌≡◌, false};
ghost use Rattle.clap.specs.Words.{rule_of};
ghost use Rattle.commandline.specs.CommandLine as line;

use clap::builder::ValueParser;
use clap::{Arg, ArgAction};
use std::alloc::Global;

/// What an argument of a command is.
#[derive(Clone, Copy)]
pub(crate) enum Kind<'a> {
    /// It is told by its position, and has to stand.
    Positional,
    /// It is told by its position, and may be left out.
    Optional,
    /// `--NAME`.
    Flag,
    /// `--NAME VALUE`, where help calls the value so.
    Valued(&'a str),
    /// `--NAME N`, where N is a number.
    Number(Numbers<'a>),
}

/// Which numbers an option takes.
#[derive(Clone, Copy)]
pub(crate) struct Numbers<'a> {
    /// The least one.
    pub least: u64,
    /// The greatest one.
    pub most: u64,
    /// The one that holds where the option is left out.
    pub default: Option<&'a str>,
}

/// An argument of a command.
#[derive(Clone, Copy)]
pub(crate) struct Argument<'a> {
    /// Its name.
    pub name: &'a str,
    /// What it is.
    pub kind: Kind<'a>,
    /// What help says of it.
    pub help: &'a str,
}

impl<'a> Argument<'a> {
    /// The argument as the command line's parser takes it.
    pub fn build(&self, alloc: Global) -> Arg<'a>
        ensures rule { rule_of result ≡ line.rule_for self.now }
        ensures local { result.global ≡ false }
    {
        let argument = Arg::new(alloc, self.name).help(self.help);
        match self.kind {
            Kind::Positional => argument.required(true),
            Kind::Optional => argument,
            Kind::Flag => argument.long(self.name).action(ArgAction::SetTrue),
            Kind::Valued(value) => argument.long(self.name).value_name(value),
            Kind::Number(numbers) => with_numbers(argument.long(self.name), numbers),
        }
    }
}

// An option that takes these numbers.
fn with_numbers<'a>(option: Arg<'a>, numbers: Numbers<'a>) -> Arg<'a>
    ensures rule { rule_of result ≡ line.with_numbers (rule_of option.entry) numbers.entry }
    ensures local { result.global ≡ option.entry.global }
{
    let parser = ValueParser::unsigned(numbers.least, numbers.most);
    let option = option.value_name("N").value_parser(parser);
    match numbers.default {
        Some(default) => option.default_value(default),
        None => option,
    }
}
