//! A buffer for one line.
ghost use Rattle.std.specs.Prelude.{◌≡◌, ◌+◌, ◌≤◌, [], Some, None, IfOk, MatchResult, IsTrue, ◌↔◌, length};
ghost use Rattle.mp_streams.specs.Places.{IsPlaced};
ghost use Rattle.mp_text.specs.lines.Given.{with_more};

use crate::lines::too_long::{LINE_BYTES, TooLong};
use std::alloc::{AllocError, Global};
use std::marker::Model;

/// The bytes of a line so far; `None` if they are more than a line may have.
#[derive(Drop)]
pub(crate) struct LineRoom {
    room: Vec<u8>,
    end: usize,
    is_long: bool,
}

impl Model for LineRoom {
    ghost use Rattle.std.specs.Prelude.{◌≡◌, ℕ, ◌≤◌, List, Option, Some, None, length, take, if◌then◌else◌};
    ghost use Rattle.mp_text.specs.lines.Given.{max_line};

    ghost Value = { Option (List ℕ) };

    ghost view = { λ line. if line.is_long then None else Some (take line.end line.room.items) };

    ghost invariant = { λ line. (line.end ≤ length line.room.items) × (length line.room.items ≡ max_line) };
}

impl LineRoom {
    /// An empty line.
    pub(crate) fn new(alloc: Global) -> Result<LineRoom, AllocError>
        ensures { IfOk result (λ line. line ≡ Some []) }
    {
        let room = vec![in alloc; 0; LINE_BYTES]?;
        Ok(LineRoom {
            room,
            end: 0,
            is_long: false,
        })
    }

    /// Begins a line.
    pub(crate) fn clear(&mut self)
        ensures { self.new ≡ Some [] }
    {
        self.end = 0;
        self.is_long = false;
    }

    /// Whether the line has no byte.
    pub(crate) fn is_empty(&self) -> bool
        ensures { IsTrue result ↔ (self.now ≡ Some []) }
    {
        self.end == 0 && !self.is_long
    }

    /// Appends the bytes.
    #[tactic(auto, using(crate::proofs::lemmas::lines::GivenLemmas::given_long, crate::proofs::lemmas::lines::GivenLemmas::given_short))]
    pub(crate) fn put(&mut self, bytes: &[u8])
        ensures { self.new ≡ with_more self.old bytes.now }
    {
        if self.is_long {
            return;
        }
        if bytes.len() > LINE_BYTES - self.end {
            self.is_long = true;
            return;
        }
        self.end = place(self.room.as_mut_slice(), self.end, bytes);
    }

    /// The bytes so far.
    pub(crate) fn bytes(&self) -> Result<&[u8], TooLong>
        ensures { MatchResult result (λ bytes. self.now ≡ Some bytes.now) (λ _. self.now ≡ None) }
    {
        if self.is_long {
            return Err(TooLong);
        }
        Ok(&self.room[..self.end])
    }
}

/// Writes the bytes into the room from `at` on, if there is room for them, and returns the index after them.
fn place(room: &mut [u8], at: usize, bytes: &[u8]) -> usize
    requires { at + length bytes.now ≤ length room.old }
    ensures { IsPlaced room.old room.new at bytes.now result }
{
    let end = at + bytes.len();
    room[at..end].copy_from_slice(bytes);
    end
}
