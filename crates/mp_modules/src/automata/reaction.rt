//! The reaction of an automaton to the events of a unit.

use crate::Client;
use crate::automata::phase::Phase;
use crate::automata::toggles::Toggles;

/// The phase after a unit, and the outputs that toggle in it.
#[derive(Clone, Copy)]
pub struct Reaction {
    pub phase: Phase,
    pub toggles: Toggles,
}

impl Reaction {
    ghost use Rattle.std.specs.Prelude.{◌≡◌};
    ghost use Rattle.mp_modules.specs.automata.Reactions.{quiet, toggle_first, toggle_second, toggle_third, toggle_first_if, toggle_second_if, toggle_third_if, with_served, with_waiting};

    /// A reaction in which nothing toggles.
    pub(crate) fn quiet(phase: Phase) -> Reaction
        ensures { result ≡ quiet phase }
    {
        Reaction {
            phase,
            toggles: Toggles {
                first: false,
                second: false,
                third: false,
            },
        }
    }

    /// The reaction with one more toggle of the first output.
    pub(crate) fn toggle_first(mut self) -> Reaction
        ensures { result ≡ toggle_first self }
    {
        self.toggles.first = !self.toggles.first;
        self
    }

    /// The reaction with one more toggle of the second output.
    pub(crate) fn toggle_second(mut self) -> Reaction
        ensures { result ≡ toggle_second self }
    {
        self.toggles.second = !self.toggles.second;
        self
    }

    /// The reaction with one more toggle of the third output.
    pub(crate) fn toggle_third(mut self) -> Reaction
        ensures { result ≡ toggle_third self }
    {
        self.toggles.third = !self.toggles.third;
        self
    }

    pub(crate) fn toggle_first_if(self, toggles: bool) -> Reaction
        ensures { result ≡ toggle_first_if toggles self }
    {
        if toggles { self.toggle_first() } else { self }
    }

    pub(crate) fn toggle_second_if(self, toggles: bool) -> Reaction
        ensures { result ≡ toggle_second_if toggles self }
    {
        if toggles { self.toggle_second() } else { self }
    }

    pub(crate) fn toggle_third_if(self, toggles: bool) -> Reaction
        ensures { result ≡ toggle_third_if toggles self }
    {
        if toggles { self.toggle_third() } else { self }
    }

    /// The reaction after which this client is served.
    pub(crate) fn with_served(mut self, client: Client) -> Reaction
        ensures { result ≡ with_served client self }
    {
        self.phase.served = client;
        self
    }

    /// The reaction after which this client waits or not.
    pub(crate) fn with_waiting(mut self, client: Client, waits: bool) -> Reaction
        ensures { result ≡ with_waiting client waits self }
    {
        match client {
            Client::Nobody => {}
            Client::First => self.phase.waiting.first = waits,
            Client::Second => self.phase.waiting.second = waits,
        }
        self
    }
}
