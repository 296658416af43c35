//! Which word of the program's line is wrong, by what its usage says.

use text_page::Page;

// What a line's words are not as the usage has it.
#[derive(Clone, Copy)]
enum Mistake<'a> {
    Nothing,
    NoOption(&'a str),
    Twice(&'a str),
    TakesNone(&'a str),
    NoValue(&'a str, &'a str),
    ValueMissing(&'a str),
    Print,
    TooMany(&'a str),
    NoPaths,
    NoTables,
}

/// Puts which word of a line, whose first is the program's own name, isn't as the usage has it, at the end of the text: an option that there
/// isn't, a value that is none of its option's, a word too many or a path that is missing.
pub fn push_mistake(text: &mut Page, usage: &str, words: &[&str]) {
    match mistake_in(usage, words) {
        Mistake::Nothing => {}
        Mistake::NoOption(name) => {
            text.put_named("  There is no option `", name, "`.\n");
        }
        Mistake::Twice(name) => {
            text.put_named("  `", name, "` stands twice.\n");
        }
        Mistake::TakesNone(name) => {
            text.put_named("  `", name, "` takes no value.\n");
        }
        Mistake::NoValue(value, form) => {
            text.put_named("  `", value, "` is no value of `");
            text.put(form);
            text.put("`.\n");
        }
        Mistake::ValueMissing(form) => {
            text.put_named("  A value is missing at the end: `", form, "`.\n");
        }
        Mistake::TooMany(word) => {
            text.put_named(
                "  `",
                word,
                "` is a word too many: PROGRAM and TABLES stand before it.\n",
            );
        }
        Mistake::Print => {
            text.put("  `--print` stands with one path alone: `cilkreport --print PROGRAM`.\n")
        }
        Mistake::NoPaths => text.put(
            "  PROGRAM and TABLES are missing: the paths of the program's file and of the tables'.\n",
        ),
        Mistake::NoTables => text.put(
            "  TABLES is missing: the path of the tables' file, behind that of the program.\n",
        ),
    }
}

// The first that is wrong with the words behind the first one.
fn mistake_in<'a>(usage: &'a str, words: &[&'a str]) -> Mistake<'a> {
    let mut paths: usize = 0;
    let mut awaited = "";
    for at in 1..words.len() {
        let word = words[at];
        let found = if !awaited.is_empty() {
            wrong_value(awaited, word)
        } else if word.starts_with('-') {
            wrong_option(usage, words, at, word)
        } else {
            paths = paths.saturating_add(1);
            if paths > 2 {
                Mistake::TooMany(word)
            } else {
                Mistake::Nothing
            }
        };
        if !matches!(found, Mistake::Nothing) {
            return found;
        }
        awaited = if awaited.is_empty() {
            awaited_behind(usage, word)
        } else {
            ""
        };
    }
    missing(paths, awaited)
}

// What the line lacks at its end: an option's value, or a path.
fn missing<'a>(paths: usize, awaited: &'a str) -> Mistake<'a> {
    if !awaited.is_empty() {
        return Mistake::ValueMissing(awaited);
    }
    match paths {
        0 => Mistake::NoPaths,
        1 => Mistake::NoTables,
        _ => Mistake::Nothing,
    }
}

// What is wrong with an option, which may have its value behind `=`.
fn wrong_option<'a>(usage: &'a str, words: &[&'a str], at: usize, word: &'a str) -> Mistake<'a> {
    let name = name_of(word);
    if name == "--print" {
        return Mistake::Print;
    }
    let form = form_of(usage, name);
    if form.is_empty() {
        return Mistake::NoOption(name);
    }
    if is_among(words, at, name) {
        return Mistake::Twice(name);
    }
    match word.split_once('=') {
        None => Mistake::Nothing,
        Some(_) if value_form(form).is_empty() => Mistake::TakesNone(name),
        Some((_, value)) => wrong_value(form, value),
    }
}

// The form of the option that a word is, where its value is the next word; else nothing.
fn awaited_behind<'a>(usage: &'a str, word: &str) -> &'a str {
    if !word.starts_with('-') || word.contains('=') {
        return "";
    }
    let form = form_of(usage, word);
    if value_form(form).is_empty() {
        ""
    } else {
        form
    }
}

// Whether one of so many first words is the option of that name.
fn is_among(words: &[&str], count: usize, name: &str) -> bool {
    for at in 0..count.min(words.len()) {
        if name_of(words[at]) == name {
            return true;
        }
    }
    false
}

// The name of an option, without the value behind it.
fn name_of<'a>(word: &'a str) -> &'a str {
    match word.split_once('=') {
        Some((name, _)) => name,
        None => word,
    }
}

// The form of the option of that name, as the usage has it between brackets, `--kits 1..4096`; nothing where there is none.
fn form_of<'a>(usage: &'a str, name: &str) -> &'a str {
    for part in usage.split('[') {
        if let Some((form, _)) = part.split_once(']') {
            if form.split(' ').next() == Some(name) {
                return form;
            }
        }
    }
    ""
}

// What the usage says of an option's value, behind its name; nothing where it takes none.
fn value_form<'a>(form: &'a str) -> &'a str {
    match form.split_once(' ') {
        Some((_, value)) => value,
        None => "",
    }
}

// That a value isn't one that its option takes, if it isn't.
fn wrong_value<'a>(form: &'a str, value: &'a str) -> Mistake<'a> {
    if takes(value_form(form), value) {
        Mistake::Nothing
    } else {
        Mistake::NoValue(value, form)
    }
}

// Whether such a value is taken: a number between two, one of some words, or else any that looks like no option.
fn takes(form: &str, value: &str) -> bool {
    if let Some((least, most)) = form.split_once("..") {
        return is_between(least, most, value);
    }
    if form.contains('|') {
        return is_one_of(form, value);
    }
    !value.starts_with('-')
}

// Whether a value is one of some words with `|` between two.
fn is_one_of(words: &str, value: &str) -> bool {
    for word in words.split('|') {
        if word == value {
            return true;
        }
    }
    false
}

fn is_between(least: &str, most: &str, value: &str) -> bool {
    match (
        least.parse::<usize>(),
        most.parse::<usize>(),
        value.parse::<usize>(),
    ) {
        (Ok(least), Ok(most), Ok(number)) => least <= number && number <= most,
        _ => false,
    }
}
