//! Modules of any kind as one type.
ghost use Rattle.std.specs.Prelude.{◌≡◌};
ghost use Rattle.mp_modules.specs.storage.AnyModules.{is_width_of, core_kind};

use crate::storage::function_module::FunctionModule;
use crate::storage::reg::Reg;
use crate::{CoreModule, EventModule, FindingSet, Kind, Memory, Rendezvous, level_at};

/// An event module of any kind, with its parameters and its width.
#[derive(Clone, Copy, PartialEq, Eq)]
pub enum AnyModule {
    Core(CoreModule),
    Reg(Reg),
    Function(FunctionModule),
}

impl AnyModule {
    ghost use Rattle.std.specs.Prelude.{◌≡◌, ◌↔◌, ◌&&◌, IsSome, IfSome, IsTrue};
    ghost use Rattle.mp_modules.specs.Kinds.{are_params};
    ghost use Rattle.mp_modules.specs.storage.AnyModules.{is_width_of, any_part_of, kind_of};

    #[tactic(auto, unfolding(crate::specs::storage::AnyModules::any_part_of))]
    /// The module of a kind with these parameters and this width. `None` if the kind doesn't accept the parameters, or if the width isn't 1 to 64, or
    /// 1 for a kind without ports of any width.
    pub fn of(kind: Kind, params: &[u64], width: u32) -> Option<AnyModule>
        ensures made { IsSome result ↔ IsTrue (is_width_of kind width && are_params kind width params.now) }
        ensures part { IfSome result (λ part. part ≡ any_part_of kind params.now width) }
    {
        if !is_width_of(kind, width) || !kind.accepts(width, params) {
            return None;
        }
        let first = level_at(params, 0);
        Some(match kind {
            Kind::C => AnyModule::Core(CoreModule::C(Rendezvous::from_params(params))),
            Kind::Toggle => AnyModule::Core(CoreModule::Toggle),
            Kind::Select => AnyModule::Core(CoreModule::Select),
            Kind::Call => AnyModule::Core(CoreModule::Call),
            Kind::Arbiter => AnyModule::Core(CoreModule::Arbiter),
            Kind::Reg => AnyModule::Reg(Reg { initial: first }),
            Kind::Function(function) => AnyModule::Function(FunctionModule {
                function,
                width,
                constant: first,
            }),
        })
    }

    /// Its kind.
    pub fn kind(&self) -> Kind
        ensures { result ≡ kind_of self.now }
    {
        match self {
            AnyModule::Core(part) => core_kind(*part),
            AnyModule::Reg(_) => Kind::Reg,
            AnyModule::Function(part) => Kind::Function(part.function),
        }
    }
}

fn core_kind(part: CoreModule) -> Kind
    ensures { result ≡ core_kind part }
{
    match part {
        CoreModule::C(_) => Kind::C,
        CoreModule::Toggle => Kind::Toggle,
        CoreModule::Select => Kind::Select,
        CoreModule::Call => Kind::Call,
        CoreModule::Arbiter => Kind::Arbiter,
    }
}

/// Whether a module of the kind can have this width.
fn is_width_of(kind: Kind, width: u32) -> bool
    ensures { result ≡ is_width_of kind width }
{
    if kind.has_width() {
        1 <= width && width <= 64
    } else {
        width == 1
    }
}

impl EventModule for AnyModule {
    ghost use Rattle.mp_modules.specs.storage.AnyModules as any;
    ghost use Rattle.mp_modules.specs.Memories.{output_of};
    ghost use Rattle.mp_modules.specs.storage.QuietAny as quiet;

    ghost start_of = { any.start };

    ghost settled = { any.settle };

    ghost stepped = { any.step };

    ghost level_out = { λ part. output_of };

    ghost found = { any.found };

    ghost settled_stays = { quiet.settled_stays };

    ghost stepped_stays = { quiet.stepped_stays };

    ghost settled_quiet = { quiet.settled_quiet };

    ghost stepped_quiet = { quiet.stepped_quiet };

    #[tactic(auto, unfolding(crate::specs::storage::AnyModules::start))]
    fn start(&self) -> Memory {
        match self {
            AnyModule::Core(part) => part.start(),
            AnyModule::Reg(part) => part.start(),
            AnyModule::Function(part) => part.start(),
        }
    }

    #[tactic(auto, unfolding(crate::specs::storage::AnyModules::settle))]
    fn settle(&self, levels: &[u64]) -> Memory {
        match self {
            AnyModule::Core(part) => part.settle(levels),
            AnyModule::Reg(part) => part.settle(levels),
            AnyModule::Function(part) => part.settle(levels),
        }
    }

    // Inlined, like the steps of modules without data.
    #[inline(always)]
    #[tactic(auto, unfolding(crate::specs::storage::AnyModules::step))]
    fn step(&self, memory: &mut Memory, levels: &[u64]) {
        match self {
            AnyModule::Core(part) => part.step(memory, levels),
            AnyModule::Reg(part) => part.step(memory, levels),
            AnyModule::Function(part) => part.step(memory, levels),
        }
    }

    fn out(&self, memory: Memory, port: usize) -> u64 {
        memory.output(port)
    }

    #[tactic(auto, unfolding(crate::specs::storage::AnyModules::found))]
    fn findings(&self, memory: Memory, levels: &[u64]) -> FindingSet {
        match self {
            AnyModule::Core(part) => part.findings(memory, levels),
            AnyModule::Reg(part) => part.findings(memory, levels),
            AnyModule::Function(part) => part.findings(memory, levels),
        }
    }
}
