//! What is answered to a request: by the window itself, or by a look at the actor.
ghost use Rattle.std.specs.Prelude.{◌≡◌, ◌++◌, ◌∷◌, [], codes, IfSome, OnOk};
ghost use Rattle.http.specs.Request.{head_of};
ghost use Rattle.http_server.specs.Response.{IsResponse, fields_of};
ghost use Rattle.pvp_window.specs.declared.path.Asked.TheVariants.{Console, Windows};
ghost use Rattle.pvp_window.specs.Answers.{IsAnswered, IsBusy, IsDecided, IsSent, Shows, code_of, kind_of};
ghost use Rattle.pvp_window.specs.Readings.{IsReading};

use crate::look::{Found, Look, Shown, View};
use crate::path::Asked;
use crate::window::{Decision, Window};
use bytes::Bytes;
use crossbeam_channel::{Sender, bounded};
use http::{HeaderName, HeaderValue, Request, StatusCode, header};
use http_server::{Response, Service};
use std::alloc::{AllocError, Global};
use std::sync::Wait;
use std::sync::atomic::{AtomicU64, Ordering};
use std::thread;
use std::time::{Clock, Duration};

/// How many milliseconds the loop is waited for.
const LOOK_MILLIS: u64 = 1_000;

/// How many looks a second the actor is asked for at the most, by all connections together.
const MOST_LOOKS: u64 = 200;

/// How long who asks more often waits for the answer that this is too often.
const REST_MILLIS: u64 = 100;

/// How often in a second it is looked whether there is a further entry.
const LOOKS_A_SECOND: u32 = 5;

/// What a look needs of the machine: a clock, and to wait.
pub trait Waits: Wait + Clock + AllocGlobal + Copy + Drop {}

impl<R: Wait + Clock + AllocGlobal + Copy + Drop> Waits for R {}

/// Answers the requests of a connection: what it cannot say itself it asks the loop, of which this is the inbox.
#[derive(Drop)]
pub struct Looker<'w, R: Waits, T: From<Look> + Drop> {
    pub rt: R,
    pub window: &'w Window,
    pub inbox: Sender<T>,
    /// When the clock of the connection began, in milliseconds: anew with each request.
    pub began: &'w AtomicU64,
    /// The second in which the actor was looked at last, and how often in it.
    pub spent: &'w AtomicU64,
}

impl<'w, R: Waits, T: From<Look> + Drop> Service for Looker<'w, R, T> {
    ghost answers = { λ old request response new.
        IsAnswered old.window.now (head_of request) response × (new ≡ old) };

    fn call(
        &mut self,
        request: &Request<Bytes>,
        response: &mut Response,
    ) -> Result<(), AllocError> {
        self.begin_anew();
        let origin = request.headers().get(header::ORIGIN);
        self.window.add_common(origin, response)?;
        self.respond(self.window.decide(request), response)
    }
}

impl<'w, R: Waits, T: From<Look> + Drop> Looker<'w, R, T> {
    /// A request came: the connection has its whole time again.
    fn begin_anew(&self) {
        if let Ok(now) = self.rt.monotonic() {
            self.began.store(millis_of(now), Ordering::SeqCst);
        }
    }

    /// Answers what a request comes to.
    fn respond(&self, decision: Decision, response: &mut Response) -> Result<(), AllocError>
        requires { IsResponse 200 (fields_of response.old) [] response.old }
        ensures { OnOk result (IsDecided self.now.window.now (fields_of response.old) decision
            response.new) }
    {
        match decision {
            Decision::Elsewhere => refuse(
                response,
                StatusCode::MISDIRECTED_REQUEST,
                b"{\"error\":\"another host\"}\n",
            ),
            Decision::NotRead => {
                let reads = HeaderValue::from_static("GET, HEAD");
                refuse_with(
                    response,
                    header::ALLOW,
                    reads,
                    StatusCode::METHOD_NOT_ALLOWED,
                    b"{\"error\":\"only reads\"}\n",
                )
            }
            Decision::Preflight => send_preflight(response),
            Decision::Unknown => {
                let scheme = HeaderValue::from_static("Bearer");
                refuse_with(
                    response,
                    header::WWW_AUTHENTICATE,
                    scheme,
                    StatusCode::UNAUTHORIZED,
                    b"{\"error\":\"no token\"}\n",
                )
            }
            Decision::Barred => {
                refuse(
                    response,
                    StatusCode::FORBIDDEN,
                    b"{\"error\":\"not yours\"}\n",
                )
            }
            Decision::Of(asked) => self.answer(asked, response),
        }
    }

    /// Answers what is asked for.
    fn answer(&self, asked: Asked, response: &mut Response) -> Result<(), AllocError>
        requires { IsResponse 200 (fields_of response.old) [] response.old }
        ensures { OnOk result (IsSent self.now.window.now (fields_of response.old) asked
            response.new) }
    {
        match asked {
            Asked::Console => self.send_page(response),
            Asked::Windows => self.send_windows(response),
            Asked::Look { view, wait } => self.show(view, wait, response),
            Asked::Missing => refuse(
                response,
                StatusCode::NOT_FOUND,
                b"{\"error\":\"not found\"}\n",
            ),
            Asked::Wrong => refuse(
                response,
                StatusCode::BAD_REQUEST,
                b"{\"error\":\"bad request\"}\n",
            ),
        }
    }

    /// Answers with the console's page.
    fn send_page(&self, response: &mut Response) -> Result<(), AllocError>
        requires { IsResponse 200 (fields_of response.old) [] response.old }
        ensures { OnOk result (IsSent self.now.window.now (fields_of response.old) Console
            response.new) }
    {
        let policy = self.window.policy.clone()?;
        let page = self.window.page.clone()?;
        fill_page(response, policy, page)
    }

    /// Answers with the windows that the console reads.
    fn send_windows(&self, response: &mut Response) -> Result<(), AllocError>
        requires { IsResponse 200 (fields_of response.old) [] response.old }
        ensures { OnOk result (IsSent self.now.window.now (fields_of response.old) Windows
            response.new) }
    {
        let listed = self.window.listed.clone()?;
        let kind = HeaderValue::from_static("application/json");
        fill(response, StatusCode::OK, kind, listed)
    }

    /// Answers with what the loop shows, or that it is busy.
    fn show(&self, view: View, wait: u32, response: &mut Response) -> Result<(), AllocError>
        requires { IsResponse 200 (fields_of response.old) [] response.old }
        ensures { OnOk result (Shows (fields_of response.old) view response.new) }
    {
        match self.wait_for(view, wait) {
            Some(shown) => send(self.rt.alloc(), view, &shown, response),
            None => send_busy(response),
        }
    }

    /// What the loop shows, once there is an entry more, or so many seconds are over; `None` where it is busy.
    fn wait_for(&self, view: View, wait: u32) -> Option<Shown>
        ensures { IfSome result (λ shown. shown.view ≡ view) }
    {
        for _ in 0..wait.saturating_mul(LOOKS_A_SECOND) {
            let shown = self.look(view)?;
            if shown.has_more() {
                return Some(shown);
            }
            thread::sleep(
                &self.rt,
                Duration::from_millis(1000 / u64::from(LOOKS_A_SECOND)),
            );
        }
        self.look(view)
    }

    /// Asks the loop, and waits for what it shows; `None` where it does not answer in time, or is asked too often.
    fn look(&self, view: View) -> Option<Shown>
        ensures { IfSome result (λ shown. shown.view ≡ view) }
    {
        if self.is_over() {
            thread::sleep(&self.rt, Duration::from_millis(REST_MILLIS));
            return None;
        }
        let (to, from) = bounded(self.rt.alloc(), 1).ok()?;
        self.inbox.send(&self.rt, T::from(Look { view, to })).ok()?;
        let shown = from
            .recv_timeout(&self.rt, Duration::from_millis(LOOK_MILLIS))
            .ok()?;
        // what was waited for is not of the time for the answer
        self.begin_anew();
        if shown.view() == view {
            Some(shown)
        } else {
            None
        }
    }

    /// Counts a look. Whether there were too many in this second.
    fn is_over(&self) -> bool {
        let Ok(now) = self.rt.monotonic() else {
            return true;
        };
        let second = now.as_secs() % (1 << 48);
        if self.spent.load(Ordering::SeqCst) / 1024 != second {
            self.spent.store(second * 1024, Ordering::SeqCst);
        }
        // who looks too often rests, so no second has 1024
        self.spent.fetch_add(1, Ordering::SeqCst) % 1024 >= MOST_LOOKS
    }
}

/// Milliseconds of a clock.
pub fn millis_of(at: Duration) -> u64 {
    at.as_secs()
        .saturating_mul(1000)
        .saturating_add(u64::from(at.subsec_millis()))
}

/// The status of how a look came out.
fn code_of(found: Found) -> StatusCode
    ensures { result ≡ code_of found }
{
    match found {
        Found::Shown => StatusCode::OK,
        Found::Unwell => StatusCode::SERVICE_UNAVAILABLE,
        Found::NoBook => StatusCode::CONFLICT,
        Found::Nothing => StatusCode::NOT_FOUND,
    }
}

/// Of what kind the text of a view is.
fn kind_of(view: View) -> HeaderValue
    ensures { result.bytes ≡ kind_of view }
{
    match view {
        View::Health => HeaderValue::from_static("text/plain; charset=utf-8"),
        View::Metrics => HeaderValue::from_static("text/plain; version=0.0.4; charset=utf-8"),
        _ => HeaderValue::from_static("application/json"),
    }
}

/// Answers with what the loop showed.
fn send(alloc: Global, view: View, shown: &Shown, response: &mut Response) -> Result<(), AllocError>
    requires blank { IsResponse 200 (fields_of response.old) [] response.old }
    requires view { shown.now.view ≡ view }
    ensures { OnOk result (Shows (fields_of response.old) view response.new) }
{
    let text = Bytes::copy_from_slice(alloc, shown.text().as_bytes())?;
    send_reading(response, view, shown.found(), text)
}

/// Answers with a reading.
fn send_reading(
    response: &mut Response,
    view: View,
    found: Found,
    text: Bytes,
) -> Result<(), AllocError>
    requires blank { response.old.body.items ≡ [] }
    requires exact { ∥ IsReading view found text ∥₁ }
    ensures { OnOk result (Shows (fields_of response.old) view response.new) }
{
    fill(response, code_of(found), kind_of(view), text)
}

/// Answers that a page may send a token.
fn send_preflight(response: &mut Response) -> Result<(), AllocError>
    requires { response.old.body.items ≡ [] }
    ensures { OnOk result (IsResponse 204 (fields_of response.old
        ++ (codes "access-control-allow-headers", codes "authorization") ∷ []) [] response.new) }
{
    let token = HeaderValue::from_static("authorization");
    response.add_header(header::ACCESS_CONTROL_ALLOW_HEADERS, token)?;
    response.status = StatusCode::NO_CONTENT;
    Ok(())
}

/// Answers that the loop is busy.
fn send_busy(response: &mut Response) -> Result<(), AllocError>
    requires { IsResponse 200 (fields_of response.old) [] response.old }
    ensures { OnOk result (IsBusy (fields_of response.old) response.new) }
{
    refuse_with(
        response,
        header::RETRY_AFTER,
        HeaderValue::from_static("1"),
        StatusCode::SERVICE_UNAVAILABLE,
        b"{\"error\":\"busy\"}\n",
    )
}

/// Fills a response with a status, a kind of content and a body.
fn fill(
    response: &mut Response,
    status: StatusCode,
    kind: HeaderValue,
    body: Bytes,
) -> Result<(), AllocError>
    requires { response.old.body.items ≡ [] }
    ensures { OnOk result (IsResponse status
        (fields_of response.old ++ (codes "content-type", kind.bytes) ∷ []) body response.new) }
{
    response.status = status;
    response.add_header(header::CONTENT_TYPE, kind)?;
    response.body.push(body)
}

/// Fills a response with a page that may do what this policy says.
fn fill_page(response: &mut Response, policy: HeaderValue, page: Bytes) -> Result<(), AllocError>
    requires { response.old.body.items ≡ [] }
    ensures { OnOk result (IsResponse 200 (fields_of response.old
        ++ (codes "content-security-policy", policy.bytes)
        ∷ (codes "content-type", codes "text/html; charset=utf-8") ∷ []) page response.new) }
{
    response.add_header(header::CONTENT_SECURITY_POLICY, policy)?;
    let kind = HeaderValue::from_static("text/html; charset=utf-8");
    fill(response, StatusCode::OK, kind, page)
}

/// Fills a response with a refusal.
fn refuse(
    response: &mut Response,
    status: StatusCode,
    text: &'static [u8],
) -> Result<(), AllocError>
    requires { response.old.body.items ≡ [] }
    ensures { OnOk result (IsResponse status
        (fields_of response.old ++ (codes "content-type", codes "application/json") ∷ [])
        text.now response.new) }
{
    let kind = HeaderValue::from_static("application/json");
    fill(response, status, kind, Bytes::from_static(text))
}

/// Fills a response with a refusal that has a field of its own.
fn refuse_with(
    response: &mut Response,
    name: HeaderName,
    value: HeaderValue,
    status: StatusCode,
    text: &'static [u8],
) -> Result<(), AllocError>
    requires { response.old.body.items ≡ [] }
    ensures { OnOk result (IsResponse status
        (fields_of response.old ++ (name, value.bytes)
        ∷ (codes "content-type", codes "application/json") ∷ []) text.now response.new) }
{
    response.add_header(name, value)?;
    refuse(response, status, text)
}
