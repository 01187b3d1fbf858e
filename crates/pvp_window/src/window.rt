//! A window: where an actor is shown, and what a request comes to there before its loop is asked.
ghost use Rattle.std.specs.Prelude.{◌≡◌, ◌++◌, map, option_copied, string_bytes, IfOk, OnOk};
ghost use Rattle.std.specs.List.{flat_map};
ghost use Rattle.http.specs.Request.{head_of};
ghost use Rattle.http_server.specs.Response.{fields_of};
ghost use Rattle.pvp_window.specs.Answers.{allowed, common, decided, fixed, is_for, is_neighbour, permitted, unread};
ghost use Rattle.pvp_window.specs.Neighbours.{asks, listed_json, name_item, names_in, names_json, origin_of, policy_of, policy_text};

use crate::json::{push_comma, push_quoted};
use crate::page::{CONSOLE, SUMS};
use crate::path::{Asked, asked_by, is_read};
use crate::reader::{Token, is_open, may_read, reader_of};
use bytes::Bytes;
use http::header::HeaderValueError;
use http::{HeaderValue, Request, header};
use http_server::Response;
use pvp_types::Setup;
use std::alloc::{AllocError, Global};

/// What each connection of a window needs to know.
#[derive(Drop)]
pub struct Window {
    pub setup: Setup,
    /// Where it listens, as its users write it.
    pub host: String,
    /// The pages that may read it, beside its own: `http://HOST:PORT` of other windows.
    pub origins: Vec<String>,
    /// What the console's page may do.
    pub policy: HeaderValue,
    /// The windows that the console reads, as JSON.
    pub listed: Bytes,
    /// The console's page.
    pub page: Bytes,
    /// The tokens of those who may read it; without any list everybody may.
    pub tokens: Option<Vec<Token>>,
}

/// What a request comes to.
#[derive(Clone, Copy, Debug, PartialEq, Eq)]
pub enum Decision {
    /// It names another host: a page of elsewhere whose name was led here.
    Elsewhere,
    /// It does not only read.
    NotRead,
    /// A browser asks whether a page may send a token.
    Preflight,
    /// It has no token, or an unknown one.
    Unknown,
    /// Its token is of one who may not read this.
    Barred,
    Of(Asked),
}

impl Window {
    /// A window at this address, whose console reads the windows at these others. These stand between commas.
    pub fn new(
        alloc: Global,
        setup: Setup,
        host: &str,
        others: &str,
        tokens: Option<Vec<Token>>,
    ) -> Result<Self, AllocError>
        ensures setup { IfOk result (λ window. window.setup ≡ setup) }
        ensures host { IfOk result (λ window. string_bytes window.host ≡ host.now) }
        ensures tokens { IfOk result (λ window. window.tokens ≡ tokens) }
        ensures origins { IfOk result (λ window. map (λ it. string_bytes it) window.origins.items
            ≡ map origin_of (names_in others.now)) }
        ensures policy { IfOk result (λ window. window.policy.bytes
            ≡ policy_of (names_in others.now)) }
        ensures listed { IfOk result (λ window. window.listed ≡ listed_json (names_in others.now)) }
        ensures page { IfOk result (λ window. window.page ≡ CONSOLE.now) }
    {
        let named = names_in(alloc, others)?;
        let names = named.as_slice();
        Ok(Window {
            setup,
            host: String::from_str(alloc, host)?,
            origins: origins_of(alloc, names)?,
            policy: policy_of(alloc, names)?,
            listed: listed_of(alloc, names)?,
            page: Bytes::from_static(CONSOLE),
            tokens,
        })
    }

    /// What a request comes to.
    pub fn decide(&self, request: &Request<Bytes>) -> Decision
        ensures { result ≡ decided self.now (head_of request.now) }
    {
        let headers = request.headers();
        let method = request.method().as_str();
        if !self.is_for(headers.get(header::HOST)) {
            Decision::Elsewhere
        } else if is_read(method) {
            let uri = request.uri();
            let asked = asked_by(&self.setup, uri.path(), uri.query());
            self.permit(headers.get(header::AUTHORIZATION), asked)
        } else {
            self.unread(method)
        }
    }

    /// What a request comes to that does not only read: where tokens are needed a browser asks first whether it may send one.
    fn unread(&self, method: &str) -> Decision
        ensures { result ≡ unread self.now method.now }
    {
        if self.tokens.is_some() && method == "OPTIONS" {
            Decision::Preflight
        } else {
            Decision::NotRead
        }
    }

    /// Whether this may be read by who shows this field.
    fn permit(&self, field: Option<&HeaderValue>, asked: Asked) -> Decision
        ensures { result ≡ permitted self.now (option_copied field.entry) asked }
    {
        match &self.tokens {
            Some(tokens) if !is_open(asked) => match reader_of(tokens.as_slice(), field) {
                Some(reader) if may_read(reader, asked) => Decision::Of(asked),
                Some(_) => Decision::Barred,
                None => Decision::Unknown,
            },
            _ => Decision::Of(asked),
        }
    }

    /// Whether a request names this window.
    fn is_for(&self, host: Option<&HeaderValue>) -> bool
        ensures { result ≡ is_for self.now (option_copied host.entry) }
    {
        match host {
            Some(host) => host.as_bytes() == self.host.as_str().as_bytes(),
            None => false,
        }
    }

    /// Whether a page of this origin may read what is answered.
    fn is_neighbour(&self, origin: &[u8]) -> bool
        ensures { result ≡ is_neighbour self.now origin.now }
    {
        self.origins
            .iter()
            .any(|other| other.as_str().as_bytes() == origin)
    }

    /// Adds the fields that each answer has, of which one depends on whose page asks.
    pub fn add_common(
        &self,
        origin: Option<&HeaderValue>,
        response: &mut Response,
    ) -> Result<(), AllocError>
        ensures fields { OnOk result (fields_of response.new
            ≡ fields_of response.old ++ common self.now (option_copied origin.entry)) }
        ensures status { response.new.status ≡ response.old.status }
        ensures body { response.new.body ≡ response.old.body }
    {
        add_fixed(response)?;
        self.add_allowed(origin, response)
    }

    /// Adds that the page of another window may read the answer, where it is such a page that asks.
    fn add_allowed(
        &self,
        origin: Option<&HeaderValue>,
        response: &mut Response,
    ) -> Result<(), AllocError>
        ensures fields { OnOk result (fields_of response.new
            ≡ fields_of response.old ++ allowed self.now (option_copied origin.entry)) }
        ensures status { response.new.status ≡ response.old.status }
        ensures body { response.new.body ≡ response.old.body }
    {
        match origin {
            Some(origin) if self.is_neighbour(origin.as_bytes()) => {
                response.add_header(header::ACCESS_CONTROL_ALLOW_ORIGIN, origin.clone()?)
            }
            _ => Ok(()),
        }
    }
}

/// Adds the fields that are the same of each answer.
fn add_fixed(response: &mut Response) -> Result<(), AllocError>
    ensures fields { OnOk result (fields_of response.new ≡ fields_of response.old ++ fixed) }
    ensures status { response.new.status ≡ response.old.status }
    ensures body { response.new.body ≡ response.old.body }
{
    response.add_header(header::CACHE_CONTROL, HeaderValue::from_static("no-store"))?;
    let nosniff = HeaderValue::from_static("nosniff");
    response.add_header(header::X_CONTENT_TYPE_OPTIONS, nosniff)?;
    response.add_header(header::VARY, HeaderValue::from_static("origin"))
}

/// The names of other windows: what stands between commas, where it is something.
fn names_in<'a>(alloc: Global, others: &'a str) -> Result<Vec<&'a str>, AllocError>
    ensures { IfOk result (λ names. map (λ name. name.now) names.items ≡ names_in others.now) }
{
    others
        .split(',')
        .filter(|name| !name.is_empty())
        .collect(alloc)
}

/// The pages of these windows.
fn origins_of(alloc: Global, names: &[&str]) -> Result<Vec<String>, AllocError>
    ensures { IfOk result (λ origins. map (λ it. string_bytes it) origins.items
        ≡ map origin_of (map (λ name. name.now) names.now)) }
{
    let mut origins = Vec::new(alloc);
    for name in names {
        let origin = format!(in alloc; "http://{name}")?;
        origins.push(origin)?;
    }
    Ok(origins)
}

/// The list of these windows, as JSON.
#[tactic(auto, unfolding(crate::specs::Neighbours::listed_json))]
fn listed_of(alloc: Global, names: &[&str]) -> Result<Bytes, AllocError>
    ensures { IfOk result (λ listed. listed ≡ listed_json (map (λ name. name.now) names.now)) }
{
    let mut listed = String::from_str(alloc, "{\"windows\":[")?;
    push_names(&mut listed, names)?;
    listed.push_str("]}\n")?;
    Bytes::from_string(listed)
}

/// Appends the names of these windows.
fn push_names(text: &mut String, names: &[&str]) -> Result<(), AllocError>
    ensures { OnOk result (string_bytes text.new
        ≡ string_bytes text.old ++ names_json (map (λ name. name.now) names.now)) }
{
    for (at, name) in names.iter().enumerate() {
        push_item(text, at, name)?;
    }
    Ok(())
}

/// Appends the name of the window at this place.
#[tactic(auto, unfolding(crate::specs::Neighbours::name_item))]
fn push_item(text: &mut String, at: usize, name: &str) -> Result<(), AllocError>
    ensures { OnOk result (string_bytes text.new
        ≡ string_bytes text.old ++ name_item (at, name.now)) }
{
    push_comma(text, at)?;
    push_quoted(text, name)
}

/// The field of the policy. One that no field can have lets a page do nothing.
fn policy_of(alloc: Global, names: &[&str]) -> Result<HeaderValue, AllocError>
    ensures { IfOk result (λ policy. policy.bytes
        ≡ policy_of (map (λ name. name.now) names.now)) }
{
    match HeaderValue::from_string(policy_text(alloc, names)?) {
        Ok(value) => Ok(value),
        Err(HeaderValueError::Invalid) => Ok(HeaderValue::from_static("default-src 'none'")),
        Err(HeaderValueError::OutOfMemory) => Err(AllocError),
    }
}

/// The policy: the page may ask its own window and these.
#[tactic(auto, unfolding(crate::specs::Neighbours::policy_text))]
fn policy_text(alloc: Global, names: &[&str]) -> Result<String, AllocError>
    ensures { IfOk result (λ text. string_bytes text
        ≡ policy_text (map (λ name. name.now) names.now)) }
{
    let mut text = String::from_str(alloc, SUMS)?;
    text.push_str("; connect-src 'self'")?;
    push_asks(&mut text, names)?;
    Ok(text)
}

/// Appends that the page may ask these windows.
fn push_asks(text: &mut String, names: &[&str]) -> Result<(), AllocError>
    ensures { OnOk result (string_bytes text.new
        ≡ string_bytes text.old ++ flat_map asks (map (λ name. name.now) names.now)) }
{
    for name in names {
        write!(text, " http://{name}")?;
    }
    Ok(())
}
