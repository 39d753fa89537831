//! What is found at a module.
ghost use Rattle.std.specs.Prelude.{◌≡◌, ◌-◌, ◌<◌};
ghost use Rattle.mp_report.specs.Clauses.{ℕ, true, List, IsSome, IfOk, All, map, vec_len, length, IsWaveform, level_of, Memory, no_findings, wire_at, input_by, AreWavesOf, level, module_place, levels_at, piece_level, found_over};
ghost use Rattle.mp_modules.specs.storage.AnyModules.{any_part_of, found};
ghost use Rattle.mp_records.specs.declared.ports.Input.{Input as Port};

use mp_model::{Findings, InPiece, Waves, built, cut, cut_delayed, respond};
use mp_modules::{EventModule, Function, Kind};
use mp_netlist::{Input, ModuleId, Netlist};
use mp_wave::Wave;
use std::alloc::{AllocError, Global};

/// What is found at a module, by time and then by the codes' numbers; nothing if it doesn't exist. The module answers once, over the whole horizon,
/// unless its kind finds nothing.
#[tactic(auto, using(crate::proofs::ModuleLemmas::found_at_module_steps))]
pub(crate) fn found_at_module(
    alloc: Global,
    netlist: &Netlist,
    waves: &Waves,
    id: ModuleId,
) -> Result<Findings, AllocError>
    requires { AreWavesOf netlist.now waves.now }
    ensures { IfOk result (λ found. found ≡ found_over netlist.now (module_place id.0)) }
{
    let Some(record) = netlist.module(id) else {
        return Ok(Findings::none(alloc));
    };
    if finds_nothing(record.kind) {
        return Ok(Findings::none(alloc));
    }
    let end = netlist.horizon();
    let part = built(netlist, record);
    let inputs = pieces(alloc, netlist, waves, record.inputs.as_slice())?;
    let piece = respond(alloc, &part, part.start(), inputs.as_slice(), 0, end)?;
    Ok(piece.findings)
}

/// Whether no module of the kind ever finds anything, so that none need be looked at.
#[tactic(auto, unfolding(mp_modules::specs::storage::AnyModules::any_part_of, mp_modules::specs::storage::AnyModules::found))]
fn finds_nothing(kind: Kind) -> bool
    ensures { result ≡ true → (params : List ℕ) (width : ℕ) (memory : Memory) (x : List ℕ) → found (any_part_of kind params width) memory x ≡ no_findings }
{
    match kind {
        Kind::Function(Function::Xor) => false,
        Kind::Toggle | Kind::Function(_) => true,
        Kind::C | Kind::Select | Kind::Call | Kind::Arbiter | Kind::Reg => false,
    }
}

/// The waves at the inputs of a module, up to the horizon.
fn pieces(
    alloc: Global,
    netlist: &Netlist,
    waves: &Waves,
    inputs: &[Input],
) -> Result<Vec<InPiece>, AllocError>
    requires waves { AreWavesOf netlist.now waves.now }
    requires stand { All (λ (i : Port). IsSome (wire_at netlist.now i.wire.0)) inputs.now }
    ensures count { IfOk result (λ pieces. vec_len pieces ≡ length inputs.now) }
    ensures levels { IfOk result (λ pieces. (t : ℕ) → t < netlist.now.horizon
        → levels_at pieces.items t ≡ map (λ i. input_by netlist.now (level netlist.now) i t) inputs.now) }
{
    let mut pieces = Vec::with_capacity(alloc, inputs.len())?;
    for &input in inputs {
        pieces.push(piece(alloc, netlist, waves, input)?)?;
    }
    Ok(pieces)
}

/// The wave at an input, up to the horizon.
#[tactic(auto, using(crate::proofs::WaveLemmas::modules_piece_steps))]
fn piece(
    alloc: Global,
    netlist: &Netlist,
    waves: &Waves,
    input: Input,
) -> Result<InPiece, AllocError>
    requires waves { AreWavesOf netlist.now waves.now }
    requires stands { IsSome (wire_at netlist.now input.wire.0) }
    ensures { IfOk result (λ piece. (t : ℕ) → t < netlist.now.horizon → piece_level piece t ≡ input_by netlist.now (level netlist.now) input t) }
{
    match waves.of(input.wire) {
        Some(wave) => heard(alloc, wave, input.delay, netlist.horizon()),
        None => unreachable!(),
    }
}

/// A wave later by a delay, from time 0 to an end. Without a delay it is copied as a whole.
#[tactic(auto, using(crate::proofs::WaveLemmas::cut_whole, crate::proofs::WaveLemmas::cut_late))]
fn heard(alloc: Global, wave: &Wave, delay: u32, end: u32) -> Result<InPiece, AllocError>
    requires some { 0 < end }
    requires form { IsWaveform wave.now }
    ensures { IfOk result (λ piece. (t : ℕ) → t < end → piece_level piece t ≡ level_of wave.now (t - delay)) }
{
    if delay == 0 {
        return cut(alloc, wave, 0, end);
    }
    cut_delayed(alloc, wave, delay, 0, end)
}
