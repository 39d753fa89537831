//! Automata: how modules of width 1 answer events.
ghost use Rattle.std.specs.Prelude.{◌≡◌};
ghost use Rattle.mp_modules.specs.automata.Automata.{core_automaton, function_automaton, automaton_of};

use crate::automata::client_rules::{grant, serve};
use crate::automata::events::Events;
use crate::automata::phase::Phase;
use crate::automata::reaction::Reaction;
use crate::automata::rules::{alternate, choose, differ, hold, join, meet, pick};
use crate::{AnyModule, CoreModule, Function};

/// The number of automata.
pub(crate) const AUTOMATA: u16 = 11;

/// The way in which a module of width 1 answers events. Kinds that answer alike share one automaton.
#[derive(Clone, Copy)]
pub enum Automaton {
    /// Each event of the input is an event of the output: BUF and NOT, and ADDC, XORC and BIT at width 1.
    Follow,
    /// An event of exactly one of the two inputs is an event of the output: XOR, and SUM and SUB at width 1.
    Merge,
    /// C.
    Join,
    /// TOGGLE.
    Alternate,
    /// SELECT.
    Choose,
    /// CALL.
    Serve,
    /// ARBITER.
    Grant,
    /// REG at width 1.
    Hold,
    /// A module that isn't active: it keeps its phase and has no event at an output.
    Sleep,
    /// The output has an event when two levels meet, or part: AND, OR and LESS at width 1.
    Meet,
    /// MUX at width 1.
    Pick,
}

impl Automaton {
    ghost use Rattle.std.specs.Prelude.{◌≡◌, ◌<◌};
    ghost use Rattle.mp_modules.specs.declared.automata.automaton.Automaton.{Automaton as AnyAutomaton};
    ghost use Rattle.mp_modules.specs.automata.Automata.{automaton_of};
    ghost use Rattle.mp_modules.specs.automata.Phases.{clients_in};
    ghost use Rattle.mp_modules.specs.automata.Codes.{automaton_code};
    ghost use Rattle.mp_modules.specs.automata.Reactions.{react};

    /// The automaton of an active module whose ports all have width 1.
    pub fn of(part: &AnyModule) -> Automaton
        ensures { result ≡ automaton_of part.now }
    {
        match part {
            AnyModule::Core(part) => core_automaton(*part),
            AnyModule::Reg(_) => Automaton::Hold,
            AnyModule::Function(part) => function_automaton(part.function),
        }
    }

    #[tactic(auto, unfolding(crate::specs::automata::Reactions::react))]
    /// The phase after a unit with these events, and the outputs that toggle in it.
    pub fn react(self, phase: Phase, events: Events) -> Reaction
        ensures { result ≡ react self phase events }
    {
        let quiet = Reaction::quiet(phase);
        match self {
            Automaton::Follow => quiet.toggle_first_if(events.first),
            Automaton::Merge => quiet.toggle_first_if(differ(events.first, events.second)),
            Automaton::Join => join(phase, events),
            Automaton::Alternate => alternate(phase.waiting.first, events.first),
            Automaton::Choose => choose(differ(phase.waiting.first, events.second), events.first),
            Automaton::Serve => serve(events, quiet),
            Automaton::Grant => grant(events, quiet),
            Automaton::Hold => hold(phase, events),
            Automaton::Sleep => quiet,
            Automaton::Meet => meet(phase, events),
            Automaton::Pick => pick(phase, events),
        }
    }

    /// The client that a module serves in a phase, and those that wait; nobody if the module serves no clients.
    pub(crate) fn clients(self, phase: Phase) -> Phase
        ensures { result ≡ clients_in self phase }
    {
        match self {
            Automaton::Serve | Automaton::Grant => phase,
            _ => Phase::unserved(false, false),
        }
    }

    /// The number of the automaton, from 0.
    pub(crate) fn code(self) -> u16
        ensures value { result ≡ automaton_code self }
        ensures low { result < 11 }
    {
        match self {
            Automaton::Follow => 0,
            Automaton::Merge => 1,
            Automaton::Join => 2,
            Automaton::Alternate => 3,
            Automaton::Choose => 4,
            Automaton::Serve => 5,
            Automaton::Grant => 6,
            Automaton::Hold => 7,
            Automaton::Sleep => 8,
            Automaton::Meet => 9,
            Automaton::Pick => 10,
        }
    }

    /// The automaton with this number.
    pub(crate) fn from_code(code: u16) -> Automaton
        ensures { (a : AnyAutomaton) → code ≡ automaton_code a → result ≡ a }
    {
        match code {
            0 => Automaton::Follow,
            1 => Automaton::Merge,
            2 => Automaton::Join,
            3 => Automaton::Alternate,
            4 => Automaton::Choose,
            5 => Automaton::Serve,
            6 => Automaton::Grant,
            7 => Automaton::Hold,
            8 => Automaton::Sleep,
            9 => Automaton::Meet,
            _ => Automaton::Pick,
        }
    }
}

fn core_automaton(part: CoreModule) -> Automaton
    ensures { result ≡ core_automaton part }
{
    match part {
        CoreModule::C(_) => Automaton::Join,
        CoreModule::Toggle => Automaton::Alternate,
        CoreModule::Select => Automaton::Choose,
        CoreModule::Call => Automaton::Serve,
        CoreModule::Arbiter => Automaton::Grant,
    }
}

fn function_automaton(function: Function) -> Automaton
    ensures { result ≡ function_automaton function }
{
    match function {
        Function::Xor | Function::Sum | Function::Sub => Automaton::Merge,
        Function::And | Function::Or | Function::Less => Automaton::Meet,
        Function::Mux => Automaton::Pick,
        _ => Automaton::Follow,
    }
}
