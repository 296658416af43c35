// The words of the program's line.
ghost use Rattle.std.specs.Prelude.{◌≡◌, ◌≤◌, ℕ, List, IfOk, IfErr, IfSome, IfNone, OnOk, false, map, option_map};
ghost use Rattle.clap.specs.Words.{App, Rule, app_of, found_of, first_value, kind_of, rule_of, with_rule};
ghost use Rattle.command_line.specs.Line.{line_form, values_form, print_form, program_form, value_given, is_set, flag_rule, option_rule, path_rule, HasForm};
ghost use Rattle.asked_counts.specs.Counts.{AsksFor};
ghost use Rattle.command_line.specs.Line.{IsAsked, IsLineOf, IsNoLine, IsNothing, IsPrintLine, IsNoPrintLine, IsRefusedFor};
ghost use Rattle.command_line.specs.Line.{IsRefusalOf, IsWithin, AsksForViews, views_named};
ghost use Rattle.command_line.specs.declared.options.OptionsError.TheVariants as refusal;
ghost use Rattle.command_line.specs.declared.options.Views.{Views as TheViews};

use crate::options::{Asked, Options, OptionsError, VERSION, Views};
use clap::error::ErrorKind;
use clap::{Arg, ArgAction, ArgMatches, Command, Error};
use std::alloc::{AllocError, Global};

/// What a line asks for, whose first word is the program's own name: a session, or else a program's normal form; refused as
/// by `options`.
pub fn asked_by<'a>(alloc: Global, words: &'a [&'a str]) -> Result<Asked<'a>, OptionsError>
    ensures read { IfOk result (IsAsked (map (λ word. word.now) words.now)) }
    ensures within { IfOk result IsWithin }
    ensures refused { IfErr result (IsRefusedFor (IsNothing (map (λ word. word.now) words.now))
        (map (λ word. word.now) words.now)) }
{
    match options(alloc, words) {
        Ok(options) => Ok(Asked::Session(options)),
        Err(OptionsError::Usage) => match printed_path(alloc, words) {
            Ok(Some(path)) => Ok(Asked::Print(path)),
            Ok(None) => Err(OptionsError::Usage),
            Err(error) => Err(error),
        },
        Err(OptionsError::NoMemory) => Err(OptionsError::NoMemory),
        Err(OptionsError::Help) => Err(OptionsError::Help),
        Err(OptionsError::Version) => Err(OptionsError::Version),
    }
}

// The path of the program whose normal form the words ask for; none where they don't. Want of memory is the only error.
fn printed_path<'a>(alloc: Global, words: &'a [&'a str]) -> Result<Option<&'a str>, OptionsError>
    ensures found { IfOk result (λ found. IfSome found (λ path.
        IsPrintLine (map (λ word. word.now) words.now) path.now)) }
    ensures none { IfOk result (λ found.
        IfNone found (IsNoPrintLine (map (λ word. word.now) words.now))) }
    ensures memory { IfErr result (λ error. error ≡ refusal.NoMemory) }
{
    let Ok(command) = form_of_print(alloc) else {
        return Err(OptionsError::NoMemory);
    };
    match command.try_get_matches_from(words) {
        Ok(matches) => Ok(matches.get_str("print")),
        Err(error) => match error.kind() {
            ErrorKind::OutOfMemory => Err(OptionsError::NoMemory),
            _ => Ok(None),
        },
    }
}

// The form of a line that asks for a normal form.
fn form_of_print<'a>(alloc: Global) -> Result<Command<'a>, AllocError>
    ensures { IfOk result (λ command. app_of command ≡ print_form) }
{
    with(Ok(named(alloc)), option(alloc, "print"))
}

/// The options of a line, whose first word is the program's own name; refused for another form, a request for help or
/// the version, or want of memory.
pub fn options<'a>(alloc: Global, words: &'a [&'a str]) -> Result<Options<'a>, OptionsError>
    ensures read { IfOk result (IsLineOf (map (λ word. word.now) words.now)) }
    ensures workers { IfOk result (λ o. (1 ≤ o.workers) × (o.workers ≤ 16)) }
    ensures kits { IfOk result (λ o. (1 ≤ o.kits) × (o.kits ≤ 4096)) }
    ensures refused { IfErr result (IsRefusedFor (IsNoLine (map (λ word. word.now) words.now))
        (map (λ word. word.now) words.now)) }
{
    let matches = matched(alloc, words)?;
    options_given(words, &matches)
}

// The options that are given in words of the form, by what these give for each of its names.
fn options_given<'a>(
    _words: &'a [&'a str],
    matches: &ArgMatches<'a>,
) -> Result<Options<'a>, OptionsError>
    requires form { HasForm (map (λ word. word.now) _words.now) }
    requires given { (name : List ℕ)
        → first_value (found_of matches.now) name ≡ value_given name (map (λ word. word.now) _words.now) }
    ensures read { IfOk result (IsLineOf (map (λ word. word.now) _words.now)) }
    ensures workers { IfOk result (λ o. (1 ≤ o.workers) × (o.workers ≤ 16)) }
    ensures kits { IfOk result (λ o. (1 ≤ o.kits) × (o.kits ≤ 4096)) }
    ensures refused { IfErr result (IsRefusedFor (IsNoLine (map (λ word. word.now) _words.now))
        (map (λ word. word.now) _words.now)) }
{
    let workers = asked(matches.get_str("workers"), 1, 16)?;
    let kits = asked(matches.get_str("kits"), 64, 4096)?;
    let views = asked_views(matches.get_str("views"))?;
    match (matches.get_str("program"), matches.get_str("tables")) {
        (Some(program), Some(tables)) => Ok(Options {
            program,
            tables,
            workers,
            kits,
            views,
            trace: matches.get_str("trace"),
            stats: is_given(matches.get_str("stats")),
            explain: is_given(matches.get_str("explain")),
            live: is_given(matches.get_str("live")),
            why: is_given(matches.get_str("why")),
        }),
        _ => Err(OptionsError::Usage),
    }
}

// What the words give for each name of the form.
fn matched<'a>(alloc: Global, words: &'a [&'a str]) -> Result<ArgMatches<'a>, OptionsError>
    ensures form { OnOk result (HasForm (map (λ word. word.now) words.now)) }
    ensures given { IfOk result (λ matches. (name : List ℕ)
        → first_value (found_of matches) name ≡ value_given name (map (λ word. word.now) words.now)) }
    ensures refused { IfErr result (IsRefusedFor (HasForm (map (λ word. word.now) words.now) → ⊥)
        (map (λ word. word.now) words.now)) }
{
    let Ok(command) = form(alloc) else {
        return Err(OptionsError::NoMemory);
    };
    match command.try_get_matches_from(words) {
        Ok(matches) => Ok(matches),
        Err(error) => Err(refusal(error)),
    }
}

// The refusal for an error of the words.
fn refusal(error: Error) -> OptionsError
    ensures { IsRefusalOf (kind_of error) result }
{
    match error.kind() {
        ErrorKind::OutOfMemory => OptionsError::NoMemory,
        ErrorKind::DisplayHelp => OptionsError::Help,
        ErrorKind::DisplayVersion => OptionsError::Version,
        _ => OptionsError::Usage,
    }
}

// The form of the line.
fn form<'a>(alloc: Global) -> Result<Command<'a>, AllocError>
    ensures { IfOk result (λ command. app_of command ≡ line_form) }
{
    let stats = with(form_of_values(alloc), flag(alloc, "stats"));
    let explain = with(stats, flag(alloc, "explain"));
    let live = with(explain, flag(alloc, "live"));
    with(live, flag(alloc, "why"))
}

// The form of the line without its flags.
fn form_of_values<'a>(alloc: Global) -> Result<Command<'a>, AllocError>
    ensures { IfOk result (λ command. app_of command ≡ values_form) }
{
    let program = with(Ok(named(alloc)), path(alloc, "program"));
    let tables = with(program, path(alloc, "tables"));
    let workers = with(tables, option(alloc, "workers"));
    let kits = with(workers, option(alloc, "kits"));
    let trace = with(kits, option(alloc, "trace"));
    with(trace, option(alloc, "views"))
}

// The program's name and its version, with no words of its own yet.
fn named<'a>(alloc: Global) -> Command<'a>
    ensures { app_of result ≡ program_form }
{
    Command::new(alloc, "cilkreport").version(VERSION)
}

// The form so far with one argument more, or the refusal that there is already.
fn with<'a>(
    so_far: Result<Command<'a>, AllocError>,
    argument: Arg<'a>,
) -> Result<Command<'a>, AllocError>
    requires { argument.global ≡ false }
    ensures { (form : App) (rule : Rule) → rule_of argument.entry ≡ rule
        → IfOk so_far.entry (λ command. app_of command ≡ form)
        → IfOk result (λ command. app_of command ≡ with_rule form rule) }
{
    match so_far {
        Ok(command) => command.arg(argument),
        Err(error) => Err(error),
    }
}

// A path that each line has.
fn path<'a>(alloc: Global, name: &'a str) -> Arg<'a>
    ensures rule { rule_of result ≡ path_rule name.now }
    ensures local { result.global ≡ false }
{
    Arg::new(alloc, name).required(true).action(ArgAction::Set)
}

// An option with a value.
fn option<'a>(alloc: Global, name: &'a str) -> Arg<'a>
    ensures rule { rule_of result ≡ option_rule name.now }
    ensures local { result.global ≡ false }
{
    Arg::new(alloc, name).long(name).action(ArgAction::Set)
}

// An option without a value.
fn flag<'a>(alloc: Global, name: &'a str) -> Arg<'a>
    ensures rule { rule_of result ≡ flag_rule name.now }
    ensures local { result.global ≡ false }
{
    Arg::new(alloc, name).long(name).action(ArgAction::SetTrue)
}

// Whether a flag is given, by the text that stands for it.
fn is_given(text: Option<&str>) -> bool
    ensures { result ≡ is_set (option_map (λ t. t.now) text.entry) }
{
    text == Some("true")
}

// The number that a text asks for, of 1 to the most; where there is no text, the one that is meant then.
fn asked(text: Option<&str>, unsaid: usize, most: usize) -> Result<usize, OptionsError>
    requires { (1 ≤ unsaid) × (unsaid ≤ most) }
    ensures asked { IfOk result (AsksFor unsaid most (option_map (λ t. t.now) text.entry)) }
    ensures within { IfOk result (λ n. (1 ≤ n) × (n ≤ most)) }
    ensures refused { IfErr result (λ error. (error ≡ refusal.Usage)
        × ((n : ℕ) → AsksFor unsaid most (option_map (λ t. t.now) text.entry) n → ⊥)) }
{
    match asked_counts::asked(text, unsaid, most) {
        Some(number) => Ok(number),
        None => Err(OptionsError::Usage),
    }
}

// The sort of views that a text asks for; the plain ones where there is no text.
fn asked_views(text: Option<&str>) -> Result<Views, OptionsError>
    ensures asked { IfOk result (AsksForViews (option_map (λ t. t.now) text.entry)) }
    ensures refused { IfErr result (λ error. (error ≡ refusal.Usage)
        × ((v : TheViews) → AsksForViews (option_map (λ t. t.now) text.entry) v → ⊥)) }
{
    let Some(text) = text else {
        return Ok(Views::Plain);
    };
    match views_named(text) {
        Some(views) => Ok(views),
        None => Err(OptionsError::Usage),
    }
}

// The sort of views of that name, if there is one.
fn views_named(name: &str) -> Option<Views>
    ensures { result ≡ views_named name.now }
{
    if name == "plain" {
        return Some(Views::Plain);
    }
    if name == "flat" {
        return Some(Views::Flat);
    }
    if name == "mixed" {
        return Some(Views::Mixed);
    }
    None
}
