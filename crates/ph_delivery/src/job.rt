//! A delivery in hand.
ghost use Rattle.std.specs.Prelude.{◌≡◌};

use ph_base::Bytes;

/// A delivery that was taken, to be sent and then told of. It isn't `Drop`: whoever takes one owes
/// the book its outcome.
#[derive(Debug)]
pub struct Job {
    host: Bytes,
    port: u16,
    request: Bytes,
    run: u64,
}

impl Job {
    /// A job of this request to this host and port. `run` is the place of the entry that took it.
    pub fn new(host: Bytes, port: u16, request: Bytes, run: u64) -> Job
        ensures { result ≡ record { host = host; port = port; request = request; run = run } }
    {
        Job {
            host,
            port,
            request,
            run,
        }
    }

    /// The host that it goes to, as the endpoint's address gave it.
    pub fn host(&self) -> &Bytes
        ensures { result.now ≡ self.now.host }
    {
        &self.host
    }

    /// The port that it goes to.
    pub fn port(&self) -> u16
        ensures { result ≡ self.now.port }
    {
        self.port
    }

    /// The bytes that are sent.
    pub fn request(&self) -> &Bytes
        ensures { result.now ≡ self.now.request }
    {
        &self.request
    }

    /// The place of the entry that took it.
    pub fn run(&self) -> u64
        ensures { result ≡ self.now.run }
    {
        self.run
    }

    /// Lets it go, once its outcome was told. It answers the place of the entry that took it.
    pub fn told(self) -> u64
        ensures { result ≡ self.run }
    {
        let Job {
            host,
            port: _,
            request,
            run,
        } = self;
        drop(host);
        drop(request);
        run
    }
}
