//! A client of the bank: its one request at a time, and the answer to it.
ghost use Rattle.std.specs.Prelude.{◌≡◌, ◌≤◌, length, IfOk, IfErr};

use headline::{ClientEvent, ClientFault};
use pvp_book::Book;
use pvp_types::{Cmd, Reply, Setup};
use rtgs_node::request::to_sites;
use std::alloc::Global;
use std::marker::Model;
use vr_types::{Envelope, MsgOf};

/// A client of the bank: the operator or a member. It waits for the answer to one request before it makes the next.
#[derive(Debug, Drop)]
pub struct Client {
    /// How many of the bank's sites may fail at once.
    faults: u16,
    /// Its number as an actor.
    me: u16,
    /// The number of its last request.
    number: u32,
    waiting: Option<Cmd>,
    answer: Option<Reply>,
}

impl Model for Client {
    ghost use Rattle.std.specs.Prelude.{◌≤◌};
    ghost use Rattle.pvp_world.specs.Client.{ShownClient};

    ghost Value = { ShownClient };

    ghost view = { λ a. record {
      f = a.faults;
      me = a.me;
      client = record { number = a.number; waiting = a.waiting; answer = a.answer };
    } };

    ghost invariant = { λ a. a.faults ≤ 3 };
}

impl Client {
    ghost use Rattle.std.specs.Prelude.{is_some};
    ghost use Rattle.pvp_types.specs.Setup.{IsValid, faults};
    ghost use Rattle.headline.specs.declared.step.ClientEvent.TheVariants.{Submits, Takes, Beats};
    ghost use Rattle.headline.specs.Client.{opening_client};
    ghost use Rattle.pvp_world.specs.Client.{step_of, IsStep, IsRefusal};

    /// The client of this number, which has asked for nothing yet: 0 for the operator, or a member's number.
    pub fn new(setup: &Setup, number: u16) -> Self
        requires valid { IsValid setup.now }
        requires known { number ≤ length setup.now.members }
        ensures { result ≡ record { f = faults setup.now; me = number; client = opening_client } }
    {
        Client {
            faults: setup.faults(),
            me: number,
            number: 0,
            waiting: None,
            answer: None,
        }
    }

    /// Handles an event, by the call for its kind: `submit`, `take` or `beat`. Answers what is sent. After an `Err`
    /// the client is as it was.
    pub fn handle(
        &mut self,
        alloc: Global,
        event: ClientEvent,
    ) -> Result<Vec<Envelope<Book>>, ClientFault>
        ensures taken { IfOk result (λ sent. IsStep self.old self.new
            (step_of self.old event) sent.items) }
        ensures refused { IfErr result (IsRefusal self.old self.new (step_of self.old event)) }
    {
        match event {
            ClientEvent::Submits(cmd) => self.submit(alloc, cmd),
            ClientEvent::Takes(envelope) => Ok(self.take(alloc, envelope)),
            ClientEvent::Beats => self.beat(alloc),
        }
    }

    /// Makes this request under the next number: a REQUEST goes to every site. `Outstanding` is tested first, then
    /// `Spent`; `NoMemory` comes after them. After an `Err` the client is as it was.
    pub fn submit(&mut self, alloc: Global, cmd: Cmd) -> Result<Vec<Envelope<Book>>, ClientFault>
        ensures taken { IfOk result (λ sent. IsStep self.old self.new
            (step_of self.old (Submits cmd)) sent.items) }
        ensures refused { IfErr result
            (IsRefusal self.old self.new (step_of self.old (Submits cmd))) }
    {
        if self.is_waiting() {
            return Err(ClientFault::Outstanding);
        }
        let Some(number) = self.number.checked_add(1) else {
            return Err(ClientFault::Spent);
        };
        let Ok(sent) = to_sites(alloc, self.faults, self.me, number, cmd) else {
            return Err(ClientFault::NoMemory);
        };
        self.number = number;
        self.waiting = Some(cmd);
        self.answer = None;
        Ok(sent)
    }

    /// Takes an envelope. A REPLY with the number of the request that waits answers it; anything else does nothing. It
    /// sends nothing and takes no memory.
    pub fn take(&mut self, alloc: Global, envelope: Envelope<Book>) -> Vec<Envelope<Book>>
        ensures { IsStep self.old self.new (step_of self.old (Takes envelope)) result.items }
    {
        if let MsgOf::Reply(msg) = envelope.msg {
            if self.is_waiting() && msg.number == self.number {
                self.waiting = None;
                self.answer = Some(msg.reply);
            }
        }
        Vec::new(alloc)
    }

    /// Sends the request that waits to every site again. The client stays as it is, and the only fault is `NoMemory`.
    pub fn beat(&self, alloc: Global) -> Result<Vec<Envelope<Book>>, ClientFault>
        ensures taken { IfOk result (λ sent. IsStep self.now self.now
            (step_of self.now Beats) sent.items) }
        ensures refused { IfErr result (IsRefusal self.now self.now (step_of self.now Beats)) }
    {
        let Some(cmd) = self.waiting else {
            return Ok(Vec::new(alloc));
        };
        to_sites(alloc, self.faults, self.me, self.number, cmd).map_err(|_| ClientFault::NoMemory)
    }

    /// How many of the bank's sites may fail at once.
    pub fn faults(&self) -> u16
        ensures { result ≡ self.now.f }
    {
        self.faults
    }

    /// The number of its last request; 0 if it has made none.
    pub fn number(&self) -> u32
        ensures { result ≡ self.now.client.number }
    {
        self.number
    }

    /// Whether it waits for the answer to its last request.
    pub fn is_waiting(&self) -> bool
        ensures { result ≡ is_some self.now.client.waiting }
    {
        self.waiting.is_some()
    }

    /// The answer to its last request, if it came.
    pub fn answer(&self) -> Option<Reply>
        ensures { result ≡ self.now.client.answer }
    {
        self.answer
    }
}
