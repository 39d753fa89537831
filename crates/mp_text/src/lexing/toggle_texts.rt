//! Changes of a level that toggles, as texts.
ghost use Rattle.std.specs.Prelude.{◌≡◌, ◌+◌, ◌-◌, ◌≤◌, ◌∷◌};
ghost use Rattle.mp_text.specs.lexing.Clauses.{[], drop, length, decimal, Writes, IsPlaced, toggle_changes, change_text, changes_text};

use crate::lexing::change_text::{ChangeText, write_number};
use mp_streams::{Failed, Out, Piece, Sink, Text};

/// The changes of a level that toggles at these times, each written as ` T=V`: from 0 to 1, and from any other level to 0.
#[derive(Clone, Copy)]
pub struct ToggleTexts<'a> {
    pub level: u64,
    pub times: &'a [u32],
}

impl<'a> Text for ToggleTexts<'a> {
    ghost text = { λ toggles. changes_text (toggle_changes toggles.level toggles.times.now) };

    #[tactic(auto, using(crate::proofs::lemmas::lexing::ToggleLemmas::toggle_steps))]
    fn put_to<S: Sink>(&self, out: &mut Out<S>) -> Result<(), Failed> {
        let level = self.level.min(1);
        let times = self.times;
        let mut place = 0;
        while times.len() - place >= 4 {
            out.put_piece(&FourToggles {
                level,
                one: times[place],
                two: times[place + 1],
                three: times[place + 2],
                four: times[place + 3],
            })?;
            place += 4;
        }
        put_few(out, level, from_place(times, place))
    }
}

/// The times from a place on.
fn from_place(times: &[u32], place: usize) -> &[u32]
    requires { place ≤ length times.now }
    ensures { result.now ≡ drop place times.now }
{
    &times[place..]
}

/// Writes the changes of a level that toggles at these times, one by one.
#[tactic(auto, using(crate::proofs::lemmas::lexing::ToggleLemmas::few_steps))]
fn put_few<S: Sink>(out: &mut Out<S>, level: u64, times: &[u32]) -> Result<(), Failed>
    ensures { Writes result out.old out.new (changes_text (toggle_changes level times.now)) }
{
    let mut level = level;
    for time in times {
        level = 1u64.saturating_sub(level);
        out.put_piece(&ChangeText {
            time: *time,
            value: level,
        })?;
    }
    Ok(())
}

/// The changes of a level of 0 or 1 that toggles four times.
#[derive(Clone, Copy)]
struct FourToggles {
    level: u64,
    one: u32,
    two: u32,
    three: u32,
    four: u32,
    ghost low: { level ≤ 1 },
}

impl Piece for FourToggles {
    ghost text = { λ toggles. changes_text (toggle_changes toggles.level (toggles.one ∷ toggles.two ∷ toggles.three ∷ toggles.four ∷ [])) };

    #[inline(always)]
    fn write(&self, room: &mut [u8], at: usize) -> usize {
        let other = 1 - self.level;
        let end = write_toggle(self.one, other, room, at);
        let end = write_toggle(self.two, self.level, room, end);
        let end = write_toggle(self.three, other, room, end);
        write_toggle(self.four, self.level, room, end)
    }
}

/// Writes a change to a level of 0 or 1 into the room from `at` on, and returns the index after it.
#[inline(always)]
fn write_toggle(time: u32, level: u64, room: &mut [u8], at: usize) -> usize
    requires low { level ≤ 1 }
    requires within { at + 22 ≤ length room.old }
    ensures placed { IsPlaced room.old room.new at (change_text (time, level)) result }
    ensures short { result ≤ at + 13 }
{
    room[at] = b' ';
    let sign = write_time(time, room, at + 1);
    room[sign] = b'=';
    room[sign + 1] = b'0' + level as u8;
    sign + 2
}

/// Writes a time in decimal digits into the room from `at` on, and returns the index after them.
#[inline(always)]
#[tactic(auto, using(crate::proofs::lemmas::lexing::DecimalLemmas::few_digits))]
fn write_time(time: u32, room: &mut [u8], at: usize) -> usize
    requires { at + 20 ≤ length room.old }
    ensures placed { IsPlaced room.old room.new at (decimal time) result }
    ensures short { result ≤ at + 10 }
{
    write_number(u64::from(time), room, at)
}
