//! A scene, made of a run that was noted.

ghost use Rattle.std.specs.Prelude.{◌≡◌, ◌<◌, ◌≤◌, ◌-◌, length, map, All, IfOk, OnOk};
ghost use Rattle.pvp_picture.specs.Scene.{ending_of, snapshots_after, IsShownStep, AreShownSteps, IsFlight, ShowsPart};

use crate::apart::{Apart, Passing};
use crate::executed::Executions;
use crate::frame::Frame;
use crate::scene::{Actor, Ending, Flight, Passed, Scene, Sending, ShownStep, Snapshot};
use pvp_book::Book;
use pvp_trace::Attempt;
use pvp_trace::attempt::push_step;
use pvp_trace::messages::{kind_name, push_envelope, push_message};
use pvp_trace::names::push_actor;
use pvp_trace::words::push_command;
use pvp_types::Step;
use pvp_world::{Report, World, WorldFault};
use std::alloc::{AllocError, Global};
use vr_types::{ActorId, Envelope, FIRST_SITE, MemCell, MsgOf};

/// A run: its world at the end, its steps, where the sites stood before the first and after each, the rows that they executed,
/// what its lines did apart from steps, and which actors are to be shown.
#[derive(Drop)]
pub struct Run<'a> {
    pub world: &'a World<MemCell>,
    pub noted: &'a [Attempt],
    pub snapshots: &'a [Vec<Snapshot>],
    pub executions: &'a Executions,
    pub apart: &'a Apart,
    pub frame: &'a Frame<'a>,
}

/// By which steps envelopes were sent and first delivered, by their places on the post, 0 where a step never did; and why
/// they were passed over.
#[derive(Drop)]
struct Routes {
    sent: Vec<usize>,
    came: Vec<usize>,
    passed: Vec<Option<Passed>>,
}

/// The scene of the steps of a run that stand from `first` on and before `end`, counted from 0.
pub fn stage(alloc: Global, run: &Run, first: usize, end: usize) -> Result<Scene, AllocError>
    ensures { IfOk result (ShowsPart run.now.world.now.setup
        run.now.world.now.post run.now.noted.now
        (map (λ snapshots. snapshots.items) run.now.snapshots.now) first end) }
{
    let total = run.noted.len();
    let end = end.min(total);
    let first = first.min(end);
    let steps = shown_steps(alloc, run, first, end)?;
    let flights = flights_of(alloc, run, first, end)?;
    Ok(Scene {
        actors: actors_of(alloc, run, steps.as_slice(), flights.as_slice())?,
        opening: snapshots_at(alloc, run, first)?,
        steps,
        flights,
        cuts: Vec::from_slice(alloc, run.apart.cuts.as_slice())?,
        earlier: first,
        later: total - end,
    })
}

/// Where the sites stood after so many steps.
fn snapshots_at(alloc: Global, run: &Run, count: usize) -> Result<Vec<Snapshot>, AllocError>
    ensures { IfOk result (λ all. all.items
        ≡ snapshots_after (map (λ snapshots. snapshots.items) run.now.snapshots.now) count) }
{
    match run.snapshots.get(count) {
        Some(snapshots) => Vec::from_slice(alloc, snapshots.as_slice()),
        None => Ok(Vec::new(alloc)),
    }
}

/// The steps that stand from `first` on and before `end`.
fn shown_steps(
    alloc: Global,
    run: &Run,
    first: usize,
    end: usize,
) -> Result<Vec<ShownStep>, AllocError>
    requires order { first ≤ end }
    requires there { end ≤ length run.now.noted.now }
    ensures { IfOk result (λ steps. AreShownSteps run.now.world.now.setup
        run.now.world.now.post run.now.noted.now
        (map (λ snapshots. snapshots.items) run.now.snapshots.now) first
        (end - first) steps.items) }
{
    let mut steps = Vec::new(alloc);
    for place in first..end {
        steps.push(shown_step(alloc, run, place)?)?;
    }
    Ok(steps)
}

/// The step at a place.
fn shown_step(alloc: Global, run: &Run, place: usize) -> Result<ShownStep, AllocError>
    requires { place < length run.now.noted.now }
    ensures { IfOk result (IsShownStep run.now.world.now.setup
        run.now.world.now.post run.now.noted.now
        (map (λ snapshots. snapshots.items) run.now.snapshots.now) place) }
{
    let attempt = run.noted[place];
    let mut words = String::new(alloc);
    push_step(&mut words, run.world, attempt.step)?;
    let mut short = String::new(alloc);
    push_short(&mut short, run.world, attempt.step)?;
    Ok(ShownStep {
        number: place + 1,
        actor: actor_of(run.world, attempt.step),
        short,
        words,
        ending: ending_of(attempt.result),
        crashes: matches!(attempt.step, Step::Crash(_)),
        delivers: delivered_by(attempt.step),
        sender: sender_of(run.world, attempt.step),
        from_below: is_from_below(run.world, attempt.step),
        rows: rows_at(alloc, run, place)?,
        sendings: sendings_of(alloc, run, attempt)?,
        snapshots: snapshots_at(alloc, run, place + 1)?,
    })
}

/// The number of the envelope that a step delivers, where it does.
fn delivered_by(step: Step) -> Option<usize> {
    match step {
        Step::Deliver(number) => Some(number),
        _ => None,
    }
}

/// The rows that the step at a place executed and none before it, in words.
fn rows_at(alloc: Global, run: &Run, place: usize) -> Result<Vec<String>, AllocError> {
    let (before, after) = run.executions.counts_at(place);
    let mut rows = Vec::new(alloc);
    for row in before..after {
        rows.push(row_words(alloc, run, row.saturating_add(1))?)?;
    }
    Ok(rows)
}

/// The row at a place of the log, counted from 1, and what it came to.
fn row_words(alloc: Global, run: &Run, place: usize) -> Result<String, AllocError> {
    let mut words = String::new(alloc);
    write!(words, "row {place}")?;
    if let Some(executed) = run.executions.row(place) {
        words.push_str(" ")?;
        push_command(&mut words, run.world.setup(), executed.row.cmd)?;
        let reply = executed.reply;
        write!(words, ": {reply}")?;
    }
    Ok(words)
}

/// What a step sent to actors that are to be shown, each kind once.
fn sendings_of(alloc: Global, run: &Run, attempt: Attempt) -> Result<Vec<Sending>, AllocError> {
    let mut sendings = Vec::new(alloc);
    for place in attempt.before..attempt.after {
        if let Some(envelope) = run.world.envelope(place.saturating_add(1)) {
            if is_shown(alloc, run, envelope.to)? {
                add_sending(&mut sendings, sending_of(alloc, run.world, envelope)?)?;
            }
        }
    }
    Ok(sendings)
}

/// Whether an actor is to be shown.
fn is_shown(alloc: Global, run: &Run, actor: u16) -> Result<bool, AllocError> {
    if run.frame.is_whole() {
        return Ok(true);
    }
    let mut name = String::new(alloc);
    push_actor(&mut name, run.world.setup(), actor)?;
    Ok(run.frame.shows(name.as_str()))
}

/// What an envelope adds to what its step sent.
fn sending_of(
    alloc: Global,
    world: &World<MemCell>,
    envelope: &Envelope<Book>,
) -> Result<Sending, AllocError> {
    let mut words = String::new(alloc);
    match &envelope.msg {
        MsgOf::PayOrder(_) => push_message(&mut words, world.setup(), &envelope.msg)?,
        msg => words.push_str(kind_name(msg))?,
    }
    Ok(Sending {
        upwards: envelope.from > envelope.to,
        words,
    })
}

/// Adds what was sent, unless it is there.
fn add_sending(sendings: &mut Vec<Sending>, sending: Sending) -> Result<(), AllocError> {
    if !sendings
        .iter()
        .any(|other| other.words.as_str() == sending.words.as_str())
    {
        sendings.push(sending)?;
    }
    Ok(())
}

/// By which steps the envelopes of a run were sent and delivered.
fn routes_of(alloc: Global, run: &Run) -> Result<Routes, AllocError> {
    let mut routes = Routes {
        sent: Vec::new(alloc),
        came: Vec::new(alloc),
        passed: Vec::new(alloc),
    };
    for place in 0..run.noted.len() {
        if let Some(attempt) = run.noted.get(place) {
            note_sent(&mut routes, *attempt, place.saturating_add(1))?;
            note_came(&mut routes, *attempt, place.saturating_add(1));
        }
    }
    note_passed(&mut routes, run.apart.passed.as_slice());
    Ok(routes)
}

/// Notes which envelopes a step sent.
fn note_sent(routes: &mut Routes, attempt: Attempt, number: usize) -> Result<(), AllocError> {
    for _sent in attempt.before..attempt.after {
        routes.sent.push(number)?;
        routes.came.push(0)?;
        routes.passed.push(None)?;
    }
    Ok(())
}

/// Notes which envelope a step delivered first, where it did.
fn note_came(routes: &mut Routes, attempt: Attempt, number: usize) {
    if let Step::Deliver(envelope) = attempt.step {
        if let Some(came) = routes.came.get_mut(envelope.wrapping_sub(1)) {
            if *came == 0 {
                *came = number;
            }
        }
    }
}

/// Notes which envelopes were passed over, and why.
fn note_passed(routes: &mut Routes, passed: &[Passing]) {
    for one in passed {
        if let Some(why) = routes.passed.get_mut(one.number.wrapping_sub(1)) {
            *why = Some(one.why);
        }
    }
}

/// Appends a step in few words: of a delivery the kind of its message, of all else what a script's line says.
fn push_short(text: &mut String, world: &World<MemCell>, step: Step) -> Result<(), AllocError> {
    let Step::Deliver(number) = step else {
        return push_step(text, world, step);
    };
    write!(text, "deliver {number}")?;
    match world.envelope(number) {
        Some(envelope) => {
            text.push_str(" ")?;
            text.push_str(kind_name(&envelope.msg))
        }
        None => Ok(()),
    }
}

/// Whose turn a step is, where there is such an actor.
fn actor_of(world: &World<MemCell>, step: Step) -> Option<u16> {
    match step {
        Step::Deliver(number) => world.envelope(number).map(|envelope| envelope.to),
        Step::PayIn { ccy, .. } | Step::Close { ccy, .. } => {
            Some(ActorId::Node(u16::from(ccy)).number())
        }
        Step::Submit { client, .. } => Some(client),
        Step::Beat(actor) => Some(actor),
        Step::Timer(site) | Step::Crash(site) | Step::Restart(site) => {
            Some(ActorId::Site(site).number())
        }
    }
}

/// Who sent the envelope that a step delivers, where there is one.
fn sender_of(world: &World<MemCell>, step: Step) -> Option<u16> {
    match step {
        Step::Deliver(number) => world.envelope(number).map(|envelope| envelope.from),
        _ => None,
    }
}

/// Whether a step delivers an envelope of an actor that has the greater number: lifelines stand in that order.
fn is_from_below(world: &World<MemCell>, step: Step) -> bool {
    match step {
        Step::Deliver(number) => {
            world
                .envelope(number)
                .map_or(false, |envelope| envelope.from > envelope.to)
        }
        _ => false,
    }
}

/// What came of a step.
fn ending_of(came: Result<Report, WorldFault>) -> Ending
    ensures { result ≡ ending_of came }
{
    match came {
        Ok(report) => match report.dropped {
            Some(why) => Ending::Dropped(why),
            None => Ending::Taken,
        },
        Err(fault) => Ending::Refused(fault),
    }
}

/// The envelopes that the steps from `first` on and before `end` deliver, and those that they sent and that none of them
/// delivers.
fn flights_of(alloc: Global, run: &Run, first: usize, end: usize) -> Result<Vec<Flight>, AllocError>
    ensures { IfOk result (λ flights.
        All (IsFlight run.now.world.now.setup run.now.world.now.post) flights.items) }
{
    let routes = routes_of(alloc, run)?;
    let mut flights = Vec::new(alloc);
    for place in first..end {
        push_delivered(alloc, &mut flights, run, &routes, place)?;
        push_sent(alloc, &mut flights, run, &routes, place, end)?;
    }
    Ok(flights)
}

/// Adds the envelope that a step delivers, where it does.
fn push_delivered(
    alloc: Global,
    flights: &mut Vec<Flight>,
    run: &Run,
    routes: &Routes,
    place: usize,
) -> Result<(), AllocError>
    requires { All (IsFlight run.now.world.now.setup run.now.world.now.post) flights.old.items }
    ensures { OnOk result
        (All (IsFlight run.now.world.now.setup run.now.world.now.post) flights.new.items) }
{
    let Some(attempt) = run.noted.get(place) else {
        return Ok(());
    };
    let Step::Deliver(number) = attempt.step else {
        return Ok(());
    };
    let way = Way {
        number,
        sent: step_of(routes.sent.as_slice(), number),
        came: place.checked_add(1),
        ending: ending_of(attempt.result),
        passed: None,
        rank: 0,
    };
    push_flight(alloc, flights, run.world, way)
}

/// Adds the envelopes that a step sent and that no step before `end` delivers.
fn push_sent(
    alloc: Global,
    flights: &mut Vec<Flight>,
    run: &Run,
    routes: &Routes,
    place: usize,
    end: usize,
) -> Result<(), AllocError>
    requires { All (IsFlight run.now.world.now.setup run.now.world.now.post) flights.old.items }
    ensures { OnOk result
        (All (IsFlight run.now.world.now.setup run.now.world.now.post) flights.new.items) }
{
    let Some(attempt) = run.noted.get(place) else {
        return Ok(());
    };
    let mut rank: usize = 0;
    for sent in attempt.before..attempt.after {
        let number = sent.saturating_add(1);
        let came = step_of(routes.came.as_slice(), number);
        if came == 0 || came > end {
            let way = Way {
                number,
                sent: place.saturating_add(1),
                came: if came == 0 { None } else { Some(came) },
                ending: Ending::Taken,
                passed: why_passed(routes.passed.as_slice(), number),
                rank,
            };
            push_flight(alloc, flights, run.world, way)?;
            rank = rank.saturating_add(1);
        }
    }
    Ok(())
}

/// The step that is noted for an envelope, 0 where none is.
fn step_of(steps: &[usize], envelope: usize) -> usize {
    match envelope.checked_sub(1) {
        Some(place) => steps.get(place).copied().unwrap_or(0),
        None => 0,
    }
}

/// Why an envelope was passed over, by its number.
fn why_passed(passed: &[Option<Passed>], envelope: usize) -> Option<Passed> {
    match envelope.checked_sub(1) {
        Some(place) => passed.get(place).copied().unwrap_or(None),
        None => None,
    }
}

/// One way of an envelope: by which steps it was sent and delivered, what came of it, why it was passed over, and how many
/// stubs stand before it.
#[derive(Clone, Copy)]
struct Way {
    number: usize,
    sent: usize,
    came: Option<usize>,
    ending: Ending,
    passed: Option<Passed>,
    rank: usize,
}

/// Adds a way of an envelope, where one has the number.
fn push_flight(
    alloc: Global,
    flights: &mut Vec<Flight>,
    world: &World<MemCell>,
    way: Way,
) -> Result<(), AllocError>
    requires { All (IsFlight world.now.setup world.now.post) flights.old.items }
    ensures { OnOk result (All (IsFlight world.now.setup world.now.post) flights.new.items) }
{
    let Some(envelope) = world.envelope(way.number) else {
        return Ok(());
    };
    let mut words = String::new(alloc);
    push_envelope(&mut words, world.setup(), envelope)?;
    flights.push(Flight {
        number: way.number,
        from: envelope.from,
        to: envelope.to,
        sent: way.sent,
        came: way.came,
        ending: way.ending,
        passed: way.passed,
        rank: way.rank,
        words,
    })?;
    Ok(())
}

/// The actors that have a lifeline, of those that are to be shown: clients and nodes that took part, then every site.
fn actors_of(
    alloc: Global,
    run: &Run,
    steps: &[ShownStep],
    flights: &[Flight],
) -> Result<Vec<Actor>, AllocError> {
    let mut taking = no_marks(alloc)?;
    mark_steps(taking.as_mut_slice(), steps);
    mark_flights(taking.as_mut_slice(), flights);
    let mut actors = Vec::new(alloc);
    push_others(alloc, &mut actors, run, taking.as_slice())?;
    push_sites(alloc, &mut actors, run)?;
    Ok(actors)
}

/// A mark for each actor that is no site.
fn no_marks(alloc: Global) -> Result<Vec<bool>, AllocError> {
    let mut taking = Vec::new(alloc);
    for _actor in 0..FIRST_SITE {
        taking.push(false)?;
    }
    Ok(taking)
}

/// Marks whose turns steps were.
fn mark_steps(taking: &mut [bool], steps: &[ShownStep]) {
    for step in steps {
        if let Some(actor) = step.actor {
            mark(taking, actor);
        }
    }
}

/// Marks whom envelopes go between.
fn mark_flights(taking: &mut [bool], flights: &[Flight]) {
    for flight in flights {
        mark(taking, flight.from);
        mark(taking, flight.to);
    }
}

/// Marks an actor, where it is no site.
fn mark(taking: &mut [bool], actor: u16) {
    if let Some(taken) = taking.get_mut(usize::from(actor)) {
        *taken = true;
    }
}

/// Adds the clients and nodes that are marked.
fn push_others(
    alloc: Global,
    actors: &mut Vec<Actor>,
    run: &Run,
    taking: &[bool],
) -> Result<(), AllocError> {
    for number in 0..FIRST_SITE {
        if taking.get(usize::from(number)).copied().unwrap_or(false) {
            push_new_actor(alloc, actors, run, number, None)?;
        }
    }
    Ok(())
}

/// Adds the sites.
fn push_sites(alloc: Global, actors: &mut Vec<Actor>, run: &Run) -> Result<(), AllocError> {
    let sites = run
        .world
        .setup()
        .faults()
        .saturating_mul(2)
        .saturating_add(1);
    for site in 0..sites {
        let number = ActorId::Site(site).number();
        push_new_actor(alloc, actors, run, number, Some(usize::from(site)))?;
    }
    Ok(())
}

/// Adds an actor, where it is to be shown.
fn push_new_actor(
    alloc: Global,
    actors: &mut Vec<Actor>,
    run: &Run,
    number: u16,
    site: Option<usize>,
) -> Result<(), AllocError> {
    let mut name = String::new(alloc);
    push_actor(&mut name, run.world.setup(), number)?;
    if run.frame.shows(name.as_str()) {
        actors.push(Actor { number, name, site })?;
    }
    Ok(())
}
