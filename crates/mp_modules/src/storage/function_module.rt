//! Modules that hold nothing.
use crate::merge::is_collision;
use crate::{EventModule, FindingCode, FindingSet, Function, Memory, level_at};

/// A module that holds nothing.
#[derive(Clone, Copy, PartialEq, Eq)]
pub struct FunctionModule {
    pub function: Function,
    /// The module's width.
    pub width: u32,
    /// Its parameter; 0 if it has none.
    pub constant: u64,
}

impl FunctionModule {
    ghost use Rattle.std.specs.Prelude.{◌≡◌};
    ghost use Rattle.mp_modules.specs.storage.Functions.{value, output};

    /// What it gives, from the levels of its first, second and third input. Sums and differences are modulo two to the power of the width, which is at
    /// most 64 bits.
    #[inline(always)]
    pub fn value(self, a: u64, b: u64, s: u64) -> u64
        ensures { result ≡ value self a b s }
    {
        match self.function {
            Function::Buf => a,
            Function::Not => 1u64.saturating_sub(a),
            Function::Xor => one_if(a != b),
            Function::AddC => wrapping_sum(a, self.constant, self.width),
            Function::XorC => a ^ self.constant,
            Function::Sum => wrapping_sum(a, b, self.width),
            Function::Bit => bit_at(a, self.constant),
            Function::And => a & b,
            Function::Or => a | b,
            Function::Sub => wrapping_difference(a, b, self.width),
            Function::Less => one_if(a < b),
            Function::Mux => chosen(a, b, s),
            Function::Join => joined(a, b, self.width),
        }
    }

    /// What it gives, from these levels at its inputs.
    #[inline(always)]
    fn output(self, levels: &[u64]) -> u64
        ensures { result ≡ output self levels.now }
    {
        self.value(
            level_at(levels, 0),
            level_at(levels, 1),
            level_at(levels, 2),
        )
    }
}

impl EventModule for FunctionModule {
    ghost use Rattle.std.specs.Prelude.{refl};
    ghost use Rattle.mp_modules.specs.storage.Functions as part;
    ghost use Rattle.mp_modules.specs.storage.QuietFunctions as quiet;
    ghost use Rattle.mp_modules.specs.Memories.{output_of};

    ghost start_of = { part.start };

    ghost settled = { part.settle };

    ghost stepped = { part.step };

    ghost level_out = { λ it. output_of };

    ghost found = { part.found };

    ghost settled_stays = { λ it levels. refl };

    ghost stepped_stays = { λ it memory levels. refl };

    ghost settled_quiet = { quiet.settled_quiet };

    ghost stepped_quiet = { quiet.stepped_quiet };

    fn start(&self) -> Memory {
        Memory::with_one_output(&[], self.output(&[]))
    }

    fn settle(&self, levels: &[u64]) -> Memory {
        let mut memory = self.start().seen(levels);
        self.step(&mut memory, levels);
        memory
    }

    #[inline(always)]
    fn step(&self, memory: &mut Memory, levels: &[u64]) {
        memory.set_one_output(levels, self.output(levels));
    }

    fn out(&self, memory: Memory, port: usize) -> u64 {
        memory.output(port)
    }

    fn findings(&self, memory: Memory, levels: &[u64]) -> FindingSet {
        let none = FindingSet::empty();
        match self.function {
            Function::Xor => {
                none.with_if(FindingCode::MergeCollision, is_collision(memory, levels))
            }
            _ => none,
        }
    }
}

ghost use Rattle.std.specs.Prelude.{◌≡◌, ◌+◌, ◌-◌, ◌*◌, ◌/◌, ◌%◌, ◌^◌, ◌==◌, if◌then◌else◌};
ghost use Rattle.mp_modules.specs.storage.Functions.{one_if};
ghost use Rattle.mp_modules.specs.storage.Widths.{modulus};

#[inline(always)]
fn one_if(is_so: bool) -> u64
    ensures { result ≡ one_if is_so }
{
    if is_so { 1 } else { 0 }
}

/// The bits of a level below a width.
#[inline(always)]
fn low_bits(level: u64, width: u32) -> u64
    ensures { result ≡ level % modulus width }
{
    if width >= 64 {
        return level;
    }
    level & ((1 << width) - 1)
}

// What wraps at 64 bits has the right bits below each width.

/// The sum of two numbers, modulo two to the power of a width.
#[inline(always)]
fn wrapping_sum(a: u64, b: u64, width: u32) -> u64
    ensures { result ≡ (a + b) % modulus width }
{
    low_bits(a.wrapping_add(b), width)
}

/// The difference of two numbers, modulo two to the power of a width.
#[inline(always)]
fn wrapping_difference(a: u64, b: u64, width: u32) -> u64
    ensures { result ≡ (a + (2 ^ 64 - b)) % modulus width }
{
    low_bits(a.wrapping_sub(b), width)
}

/// A number with a bit more below it, modulo two to the power of a width.
#[inline(always)]
fn joined(a: u64, b: u64, width: u32) -> u64
    ensures { result ≡ (2 * a + b) % modulus width }
{
    low_bits(a.wrapping_mul(2).wrapping_add(b), width)
}

/// The bit at a place.
#[inline(always)]
fn bit_at(level: u64, place: u64) -> u64
    ensures { result ≡ level / 2 ^ place % 2 }
{
    if place >= 64 {
        return 0;
    }
    (level >> place) % 2
}

/// The first number or the second, as the third is 0 or not.
#[inline(always)]
fn chosen(a: u64, b: u64, s: u64) -> u64
    ensures { result ≡ (if s == 0 then a else b) }
{
    if s == 0 { a } else { b }
}
