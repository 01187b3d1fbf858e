//! What a process is asked for: to begin an actor, or to serve one, and how.
ghost use Rattle.std.specs.Prelude.{◌≡◌};
ghost use Rattle.pvp_places.specs.Orders.{setup_of};

/// Whom a process serves, by the words of its command line.
#[derive(Clone, Copy, Debug)]
pub enum Who<'a> {
    /// The site of this place.
    Site(&'a str),
    /// The node of this currency.
    Node(&'a str),
    /// `OP`, or the member of this name.
    Client(&'a str),
}

/// How a process serves.
#[derive(Clone, Copy, Debug)]
pub struct Order<'a> {
    pub who: Who<'a>,
    /// The text of the setup.
    pub setup: &'a str,
    /// The file that says where the sites listen.
    pub peers: &'a str,
    /// The folder of the actor, in which its journal stands.
    pub data: &'a str,
    /// The file of the keys that it shares with others.
    pub keys: Option<&'a str>,
    /// Milliseconds from beat to beat.
    pub beat: u32,
    /// After how many beats without a word of the primary a timer runs out, at the least.
    pub patience: u32,
    /// Whether each batch is synced before anything of it leaves.
    pub syncs: bool,
    /// Whether it serves on once its terminal has ended, until it is killed.
    pub stays: bool,
    /// Whether a site may listen beyond this machine without keys.
    pub trusts_network: bool,
    /// Where the actor is shown over HTTP, as HOST:PORT.
    pub http: Option<&'a str>,
    /// The windows of others, whose pages may read this one: HOST:PORT,HOST:PORT ..
    pub http_peers: Option<&'a str>,
    /// The file of the tokens of those who may read the window; without one everybody may.
    pub http_token: Option<&'a str>,
}

/// Which actor is begun, and where.
#[derive(Clone, Copy, Debug)]
pub struct Beginning<'a> {
    pub who: Who<'a>,
    /// The text of the setup.
    pub setup: &'a str,
    /// The file that names this life of the bank, where one does.
    pub peers: Option<&'a str>,
    /// The folder of the actor, which is made where it is not there.
    pub data: &'a str,
}

/// What a process does with an actor.
#[derive(Clone, Copy, Debug)]
pub enum Task<'a> {
    /// It leaves in a folder what the actor is served from.
    Begin(Beginning<'a>),
    Serve(Order<'a>),
}

impl<'a> Task<'a> {
    /// The text of the setup of the actor's bank.
    pub fn setup(&self) -> &'a str
        ensures { result.now ≡ setup_of self.now }
    {
        match self {
            Task::Begin(beginning) => beginning.setup,
            Task::Serve(order) => order.setup,
        }
    }
}
