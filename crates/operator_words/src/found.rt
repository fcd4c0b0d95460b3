//! What clap found in the words of a subcommand.

ghost use Rattle.std.specs.Prelude.{◌≡◌, IfOk};
ghost use Rattle.clap.specs.Walk.{texts};
ghost use Rattle.clap.specs.Words.{found_of, rows_of};
ghost use Rattle.operator_words.specs.Found.{is_set, option_in, text_in, texts_in, object_in, remark_in, window_in, options_in};

use clap::ArgMatches;
use gate_model::Text;
use operator_commands::{Object, Options, Remark, Texts, Window};
use std::alloc::{AllocError, Global};

/// Whether a flag is there.
pub fn is_set(found: &ArgMatches<'_>, name: &str) -> bool
    ensures { result ≡ is_set name.now (rows_of (found_of found.now)) }
{
    match found.get_str(name) {
        Some(value) => value == "true",
        None => false,
    }
}

/// The text of an option, if it is there.
pub fn option_in(
    alloc: Global,
    found: &ArgMatches<'_>,
    name: &str,
) -> Result<Option<Text>, AllocError>
    ensures { IfOk result (λ text. text ≡ option_in name.now (rows_of (found_of found.now))) }
{
    match found.get_str(name) {
        Some(word) => Ok(Some(Text::copied(alloc, word.as_bytes())?)),
        None => Ok(None),
    }
}

/// The text of an argument that has to be there.
pub fn text_in(alloc: Global, found: &ArgMatches<'_>, name: &str) -> Result<Text, AllocError>
    ensures { IfOk result (λ text. text ≡ text_in name.now (rows_of (found_of found.now))) }
{
    match option_in(alloc, found, name)? {
        Some(text) => Ok(text),
        None => Ok(Text::new(Vec::new(alloc))),
    }
}

fn copied(alloc: Global, words: &[&str]) -> Result<Texts, AllocError>
    ensures { IfOk result (λ copies. copies ≡ texts words.now) }
{
    let mut list = Vec::new(alloc);
    for word in words {
        let text = Text::copied(alloc, word.as_bytes())?;
        list.push(text)?;
    }
    Ok(Texts::new(list))
}

/// The texts of an argument that may be there several times, in order.
pub fn texts_in(alloc: Global, found: &ArgMatches<'_>, name: &str) -> Result<Texts, AllocError>
    ensures { IfOk result (λ texts. texts ≡ texts_in name.now (rows_of (found_of found.now))) }
{
    match found.get_strs(name) {
        Some(words) => copied(alloc, words),
        None => Ok(Texts::new(Vec::new(alloc))),
    }
}

/// `HOST [SERVICE]`
pub fn object_in(alloc: Global, found: &ArgMatches<'_>) -> Result<Object, AllocError>
    ensures { IfOk result (λ object. object ≡ object_in (rows_of (found_of found.now))) }
{
    Ok(Object {
        host: text_in(alloc, found, "host")?,
        service: option_in(alloc, found, "service")?,
    })
}

/// `--comment TEXT [--author NAME]`
pub fn remark_in(alloc: Global, found: &ArgMatches<'_>) -> Result<Remark, AllocError>
    ensures { IfOk result (λ remark. remark ≡ remark_in (rows_of (found_of found.now))) }
{
    Ok(Remark {
        text: text_in(alloc, found, "comment")?,
        author: option_in(alloc, found, "author")?,
    })
}

/// `--for SPAN`, `--until TIME`, `--from TIME`, `--flexible SPAN` and `--trigger ID`
pub fn window_in(alloc: Global, found: &ArgMatches<'_>) -> Result<Window, AllocError>
    ensures { IfOk result (λ window. window ≡ window_in (rows_of (found_of found.now))) }
{
    Ok(Window {
        lasts: option_in(alloc, found, "for")?,
        until: option_in(alloc, found, "until")?,
        from: option_in(alloc, found, "from")?,
        flexible: option_in(alloc, found, "flexible")?,
        trigger: option_in(alloc, found, "trigger")?,
    })
}

/// The options that several tasks have.
pub fn options_in(alloc: Global, found: &ArgMatches<'_>) -> Result<Options, AllocError>
    ensures { IfOk result (λ options. options ≡ options_in (rows_of (found_of found.now))) }
{
    Ok(Options {
        config: option_in(alloc, found, "config")?,
        operators: option_in(alloc, found, "operators")?,
        pages: option_in(alloc, found, "pages")?,
        wait: option_in(alloc, found, "wait")?,
        json: is_set(found, "json"),
        escaped: is_set(found, "escaped"),
    })
}
