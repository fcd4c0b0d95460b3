//! A request whose names and texts have a page's escapes.

ghost use Rattle.std.specs.Prelude.{◌≡◌, IfOk, map, option_map};
ghost use Rattle.status_reading.specs.Plain.{plain_bytes};
ghost use Rattle.operator_effects.specs.Plain.{plain_object, plain_remark, plain_request};

use gate_model::Text;
use operator_commands::{Object, Remark, Request, Texts};
use status_reading::plain_bytes;
use std::alloc::{AllocError, Global};

fn plain_text(alloc: Global, text: &Text) -> Result<Text, AllocError>
    ensures { IfOk result (λ plain. plain ≡ plain_bytes text.now) }
{
    Ok(Text::new(plain_bytes(alloc, text.bytes())?))
}

fn plain_own(alloc: Global, text: Text) -> Result<Text, AllocError>
    ensures { IfOk result (λ plain. plain ≡ plain_bytes text) }
{
    plain_text(alloc, &text)
}

fn plain_option(alloc: Global, text: &Option<Text>) -> Result<Option<Text>, AllocError>
    ensures { IfOk result (λ plain. plain ≡ option_map plain_bytes text.now) }
{
    match text {
        Some(text) => Ok(Some(plain_text(alloc, text)?)),
        None => Ok(None),
    }
}

fn plain_texts(alloc: Global, texts: &[Text]) -> Result<Texts, AllocError>
    ensures { IfOk result (λ plain. plain ≡ map plain_bytes texts.now) }
{
    let mut list = Vec::new(alloc);
    for text in texts {
        list.push(plain_text(alloc, text)?)?;
    }
    Ok(Texts::new(list))
}

fn plain_object(alloc: Global, object: Object) -> Result<Object, AllocError>
    ensures { IfOk result (λ plain. plain ≡ plain_object object) }
{
    let host = plain_text(alloc, &object.host);
    let service = plain_option(alloc, &object.service);
    drop(object);
    Ok(Object {
        host: host?,
        service: service?,
    })
}

fn plain_remark(alloc: Global, remark: Remark) -> Result<Remark, AllocError>
    ensures { IfOk result (λ plain. plain ≡ plain_remark remark) }
{
    let text = plain_text(alloc, &remark.text);
    let author = plain_option(alloc, &remark.author);
    drop(remark);
    Ok(Remark {
        text: text?,
        author: author?,
    })
}

// An object, and what is said of it.
fn plain_both(alloc: Global, object: Object, remark: Remark) -> Result<(Object, Remark), AllocError>
    ensures { IfOk result (λ plain.
        (plain.0 ≡ plain_object object) × (plain.1 ≡ plain_remark remark)) }
{
    let object = plain_object(alloc, object);
    let remark = plain_remark(alloc, remark);
    Ok((object?, remark?))
}

/// The request that one with a page's escapes stands for: they are undone in names, texts, authors
/// and outputs. The only error is out of memory. Own rule.
pub fn plain_request(alloc: Global, request: Request) -> Result<Request, AllocError>
    ensures { IfOk result (λ plain. plain ≡ plain_request request) }
{
    Ok(match request {
        Request::Ack {
            object,
            remark,
            sticky,
            persistent,
        } => {
            let (object, remark) = plain_both(alloc, object, remark)?;
            Request::Ack {
                object,
                remark,
                sticky,
                persistent,
            }
        }
        Request::Unack { object } => Request::Unack {
            object: plain_object(alloc, object)?,
        },
        Request::Comment {
            object,
            remark,
            persistent,
        } => {
            let (object, remark) = plain_both(alloc, object, remark)?;
            Request::Comment {
                object,
                remark,
                persistent,
            }
        }
        Request::Uncomment { words, all } => {
            let plain = plain_texts(alloc, words.as_slice());
            drop(words);
            Request::Uncomment { words: plain?, all }
        }
        Request::Downtime {
            object,
            remark,
            window,
            services,
        } => {
            let (object, remark) = plain_both(alloc, object, remark)?;
            Request::Downtime {
                object,
                remark,
                window,
                services,
            }
        }
        Request::Passive { setting, object } => Request::Passive {
            object: plain_object(alloc, object)?,
            setting,
        },
        Request::Result {
            object,
            state,
            output,
        } => {
            let output = plain_own(alloc, output)?;
            Request::Result {
                object: plain_object(alloc, object)?,
                state,
                output,
            }
        }
        Request::Cancel { ids } => Request::Cancel { ids },
        Request::Shutdown => Request::Shutdown,
    })
}
