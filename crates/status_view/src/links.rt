//! The links to the page of one object and to the objects of one host, and the query that asks for a page
//! of the list.

ghost use Rattle.std.specs.Prelude.{◌≡◌, ◌^◌, ◌<◌, ◌≤◌, [], ◌++◌, All, IfOk, OnOk, codes, string_bytes};
ghost use Rattle.form_urlencoded.specs.Form.{append_pair, byte_serialize, raw_pairs};
ghost use Rattle.status_merge.specs.declared.query.Choice.TheVariants as choices;
ghost use Rattle.status_merge.specs.Asking.{asked_by, asked_in, only, with_choice, sort_asked, page_asked};
ghost use Rattle.status_merge.specs.Values.{value_in};
ghost use Rattle.status_view.specs.Links.{object_query, object_link, object_query_at, object_link_at, hosts_query, hosts_link, page_query};
ghost use Rattle.status_view.specs.inner.Pairs.{IsTextPair};

use form_urlencoded::{Serializer, byte_serialize};
use status_merge::{Choice, Query, Sort, choice_name, mark_name, sort_name, value_in};
use std::alloc::{AllocError, Global};

/// The names of an object, as the pages of its gateways write them, and of the gateway that is asked for.
#[derive(Drop)]
pub struct ObjectName {
    pub host: Vec<u8>,
    /// Empty for a host.
    pub service: Vec<u8>,
    /// Empty for every gateway.
    pub gateway: Vec<u8>,
}

/// Appends a text as a value in a URL's query.
pub fn push_value(link: &mut String, text: &[u8]) -> Result<(), AllocError>
    ensures { OnOk result
        (string_bytes link.new ≡ string_bytes link.old ++ byte_serialize text.now) }
{
    for piece in byte_serialize(text) {
        link.push_str(piece)?;
    }
    Ok(())
}

/// The link to the page of an object, by its names as pages write them: `/object?host=..&service=..`.
/// The service is empty for a host. The only error is out of memory. Own rule.
#[tactic(auto, unfolding(crate::specs::Links::object_link, crate::specs::Links::object_query))]
pub fn object_link(alloc: Global, host: &[u8], service: &[u8]) -> Result<String, AllocError>
    ensures link { IfOk result (λ link.
        string_bytes link ≡ object_link host.now service.now) }

    // Its query is read as these names, whatever bytes they have.
    ensures read { let pairs = raw_pairs (object_query host.now service.now) in
        IfOk result (λ _. (value_in (codes "host") pairs ≡ host.now)
        × (value_in (codes "service") pairs ≡ service.now)) }
{
    let mut link = String::from_str(alloc, "/object?host=")?;
    push_value(&mut link, host)?;
    link.push_str("&service=")?;
    push_value(&mut link, service)?;
    Ok(link)
}

/// The same for the gateway of a name alone: `/object?host=..&service=..&gateway=..`.
pub fn object_link_at(
    alloc: Global,
    host: &[u8],
    service: &[u8],
    gateway: &str,
) -> Result<String, AllocError>
    ensures link { IfOk result (λ link.
        string_bytes link ≡ object_link_at host.now service.now gateway.now) }
    ensures read { let pairs = raw_pairs (object_query_at host.now service.now gateway.now) in
        IfOk result (λ _. (value_in (codes "host") pairs ≡ host.now)
        × (value_in (codes "service") pairs ≡ service.now)
        × (value_in (codes "gateway") pairs ≡ gateway.now)) }
{
    let mut link = object_link(alloc, host, service)?;
    link.push_str("&gateway=")?;
    push_value(&mut link, gateway.as_bytes())?;
    Ok(link)
}

/// The link to the list of the objects of a host, by its name as pages write it: `/?hostname=..`. The
/// only error is out of memory. Own rule.
pub fn hosts_link(alloc: Global, host: &[u8]) -> Result<String, AllocError>
    ensures link { IfOk result (λ link. string_bytes link ≡ hosts_link host.now) }

    // Its query asks for the objects of this host, whatever bytes its name has, and of no other.
    ensures read { IfOk result (λ _. asked_in (raw_pairs (hosts_query host.now))
        ≡ record (only choices.All) { hostname = host.now }) }
{
    let mut link = String::from_str(alloc, "/?hostname=")?;
    push_value(&mut link, host)?;
    Ok(link)
}

// Appends a name and a value to a query.
fn push_pair(form: &mut Serializer, name: &str, value: &str) -> Result<(), AllocError>
    ensures pair { OnOk result (form.new
        ≡ record form.old { form = append_pair form.old.form name.now value.now }) }
    ensures texts { IsTextPair (name.now, value.now) }
{
    form.append_pair(name, value)
}

// The form whose first pair is the exact name of a host.
fn begin_form(alloc: Global, host: &[u8]) -> Result<Serializer, AllocError>
    ensures form { IfOk result (λ form.
        form ≡ record { prefix = []; form = append_pair [] (codes "hostname") host.now }) }
    ensures bytes { IfOk result (λ _. All (λ byte. byte < 256) host.now) }
{
    let mut text = String::from_str(alloc, "hostname=")?;
    push_value(&mut text, host)?;
    Ok(Serializer::new(text))
}

/// The query of a URL that asks for a page, from 1, of the objects of a choice that a query asks for
/// beside, in an order. The only error is out of memory. Own rule.
pub fn page_query(
    alloc: Global,
    query: &Query,
    choice: Choice,
    sort: Sort,
    page: usize,
) -> Result<String, AllocError>
    ensures query { let asked = with_choice choice (asked_by query.now) in IfOk result (λ text.
        string_bytes text ≡ page_query asked query.now.refresh sort page) }

    // It is read as what was asked for, with this choice, as this order, and as this page.
    ensures read { let asked = with_choice choice (asked_by query.now) in
        let pairs = raw_pairs (page_query asked query.now.refresh sort page) in
        1 ≤ page → page < 2 ^ 32 → IfOk result (λ _. (asked_in pairs ≡ asked)
        × (sort_asked pairs ≡ sort) × (page_asked pairs ≡ page)) }
{
    let mut form = begin_form(alloc, query.hostname.as_slice())?;
    push_pair(&mut form, "state", choice_name(choice))?;
    push_pair(&mut form, "host", query.host.as_str())?;
    push_pair(&mut form, "service", query.service.as_str())?;
    push_pair(&mut form, "output", query.output.as_str())?;
    push_pair(&mut form, "gateway", query.gateway.as_str())?;
    push_pair(&mut form, "acknowledged", mark_name(query.acknowledged))?;
    push_pair(&mut form, "downtime", mark_name(query.downtime))?;
    push_pair(&mut form, "sort", sort_name(sort))?;
    push_pair(
        &mut form,
        "refresh",
        query.refresh.to_string(alloc)?.as_str(),
    )?;
    push_pair(&mut form, "page", page.to_string(alloc)?.as_str())?;
    Ok(form.finish())
}

/// Reads the query of an object's page: `host`, `service` and `gateway`, each empty where it is missing.
///
/// Other names are skipped. Of a name that comes twice the last counts. The only error is out of
/// memory.
pub fn read_object_name(alloc: Global, query: &str) -> Result<ObjectName, AllocError>
    ensures host { IfOk result (λ names.
        names.host.items ≡ value_in (codes "host") (raw_pairs query.now)) }
    ensures service { IfOk result (λ names.
        names.service.items ≡ value_in (codes "service") (raw_pairs query.now)) }
    ensures gateway { IfOk result (λ names.
        names.gateway.items ≡ value_in (codes "gateway") (raw_pairs query.now)) }
{
    Ok(ObjectName {
        host: value_in(alloc, "host", query)?,
        service: value_in(alloc, "service", query)?,
        gateway: value_in(alloc, "gateway", query)?,
    })
}
