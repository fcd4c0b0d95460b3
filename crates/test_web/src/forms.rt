use bytes::Bytes;
use desk_forms::{AdmitFault, AdmittedForm, FieldsFault, admit_form};
use desk_guard::{Guard, SentForms};
use http::{HeaderName, HeaderValue, Method, Request};
use std::alloc::Global;
use std::test::*;

const NOW: u32 = 492000 * 3600 + 59;

// By Python's `hmac`, with the key 0, 1 to 63: of "492000 ann" and "491999 ann".
const TOKEN: &str = "c8f8a83e50744627e663e1fae2963667768cd4186c8bd59a36b3b36e97656139";

const TOKEN_BEFORE: &str = "4f4a890a918e088f9c96288b5220ca82a42cd3f3f3da26bb3107a76c5cfaa204";

#[rattlefmt::skip]
static FIELDS: [(&str, &str); 5] = [
    ("host", "desk.example"),
    ("origin", "https://desk.example"),
    ("sec-fetch-site", "same-origin"),
    ("content-type", "application/x-www-form-urlencoded"),
    ("x-remote-user", "ann"),
];

fn guard<'a>(alloc: Global) -> Option<Guard<'a>> {
    let mut key = [0u8; 64];
    for (index, byte) in key.iter_mut().enumerate() {
        *byte = index as u8;
    }
    Some(Guard {
        hosts: vec![in alloc; "desk.example"].ok()?,
        user_header: "X-Remote-User",
        users: vec![in alloc; b"ann".as_slice()].ok()?,
        key,
    })
}

fn add(request: &mut Request<Bytes>, alloc: Global, name: &str, value: &str) -> Option<()> {
    let value = HeaderValue::from_bytes(alloc, value.as_bytes()).ok()?;
    let name = HeaderName::from_bytes(alloc, name.as_bytes()).ok()?;
    request.headers_mut().append(name, value).ok()?;
    Some(())
}

fn add_fields(request: &mut Request<Bytes>, alloc: Global) -> Option<()> {
    for (name, value) in FIELDS.iter() {
        add(request, alloc, name, value)?;
    }
    Some(())
}

// The request of a form with ann's token of the hour before, and these fields.
fn request(alloc: Global, fields: &str) -> Option<Request<Bytes>> {
    let body = format!(in alloc; "token={TOKEN_BEFORE}&{fields}").ok()?;
    let body = Bytes::from_vec(body.into_bytes()).ok()?;
    let mut request = Request::new(alloc, body);
    *request.method_mut() = Method::POST;
    if add_fields(&mut request, alloc).is_none() {
        drop(request);
        return None;
    }
    Some(request)
}

/// The form of an admitted request by ann, with these fields.
pub fn form_of(alloc: Global, fields: &str) -> Option<AdmittedForm> {
    let guard = guard(alloc)?;
    let request = request(alloc, fields)?;
    let mut sent = SentForms::new(alloc);
    let form = admit_form(alloc, &guard, &mut sent, &request, NOW);
    drop(request);
    form.ok()
}

#[test]
fn a_page_has_the_token_of_its_hour(rt: HostRuntime) {
    let alloc = rt.alloc();
    let token = match guard(alloc) {
        Some(guard) => guard.token(alloc, b"ann", NOW).ok(),
        None => None,
    };
    assert!(rt; token.is_some_and(|token| token.as_str() == TOKEN));
}

#[test]
fn what_is_no_form_is_named(rt: HostRuntime) -> Result<(), Fail> {
    for (fault, text) in [
        (FieldsFault::NotUtf8, "the form is not UTF-8"),
        (FieldsFault::Twice, "the form has a field twice"),
    ] {
        let found = AdmitFault::Form(fault).to_string(rt.alloc())?;
        assert!(rt; found.as_str() == text, "{found}");
    }
    Ok(())
}
