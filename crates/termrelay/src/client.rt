//! The key of a client.
ghost use Rattle.std.specs.Prelude.{◌≡◌};

use std::marker::Model;

/// The key of a client in its hub. After a client ends, its key is unknown to the hub until a new client gets it.
#[derive(Clone, Copy, Debug, Eq, PartialEq)]
pub struct Client {
    key: usize,
}

impl Model for Client {
    ghost use Rattle.std.specs.Prelude.{ℕ};

    ghost Value = { ℕ };

    ghost view = { λ c. c.key };

    ghost inverse = { λ key. record { key = key } };
}

impl Client {
    /// The client with this key. A hub refuses the key with `UnknownClient` if it has no such client.
    pub fn from_key(key: usize) -> Self
        ensures { result ≡ key }
    {
        Client { key }
    }

    /// The client's key in its hub, which [`from_key`](Self::from_key) takes back.
    pub fn key(self) -> usize
        ensures { result ≡ self }
    {
        self.key
    }
}
