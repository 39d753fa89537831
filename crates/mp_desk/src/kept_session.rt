//! A session with what keeps its edits.
ghost use Rattle.std.specs.Prelude.{◌≡◌};

use crate::unkept::Unkept;
use mp_version::{EditKeeper, EditSession};
use std::marker::Model;

/// A session, with what keeps its edits. A contract sees both.
#[derive(Drop)]
pub struct KeptSession<S: EditSession, K: EditKeeper> {
    session: S,
    keeper: K,
}

impl<S: EditSession, K: EditKeeper> Model for KeptSession<S, K> {
    ghost use Rattle.mp_desk.specs.Keepers as keepers;

    ghost Value = { keepers.KeptSession S K };

    ghost view = { λ kept. record { session = kept.session; keeper = kept.keeper } };

    ghost invariant = { λ kept. K.keeps kept.keeper (S.story kept.session) };
}

impl<S: EditSession> KeptSession<S, Unkept> {
    /// A session whose edits nobody keeps.
    pub fn unkept(session: S) -> Self
        ensures { result.session ≡ session }
    {
        KeptSession::new(session, Unkept)
    }
}

impl<S: EditSession, K: EditKeeper> KeptSession<S, K> {
    /// A session with what keeps its edits so far.
    pub fn new(session: S, keeper: K) -> Self
        requires { K.keeps keeper (S.story session) }
        ensures { result ≡ record { session = session; keeper = keeper } }
    {
        KeptSession { session, keeper }
    }

    /// The session.
    pub fn session(&self) -> &S
        ensures { result.now ≡ self.now.session }
    {
        &self.session
    }

    /// The session, and what keeps its edits.
    pub fn into_parts(self) -> (S, K)
        ensures session { result.0 ≡ self.session }
        ensures keeper { result.1 ≡ self.keeper }
        ensures kept { K.keeps result.1 (S.story result.0) }
    {
        let KeptSession { session, keeper } = self;
        (session, keeper)
    }
}
