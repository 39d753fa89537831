//! Texts that are written one after the other.
ghost use Rattle.std.specs.Prelude.{◌≡◌, ℕ, List, ◌++◌};
ghost use Rattle.std.specs.Fmt.{decimal};
ghost use Rattle.mp_streams.specs.Outgoing.{Writes};

use crate::failed::Failed;
use crate::out::Out;
use crate::sink::Sink;

/// A value with a text: bytes, a number, or several such values one after the other, for example `("horizon ", horizon, "\n")`.
pub trait Text {
    // Its bytes.
    ghost text: { Self → List ℕ };

    /// Writes its text. `Failed` comes as in `Out::put_bytes`.
    fn put_to<S: Sink>(&self, out: &mut Out<S>) -> Result<(), Failed>
        ensures { Writes result out.old out.new (text self.now) };
}

impl Text for &str {
    ghost text = { λ text. text.now };

    fn put_to<S: Sink>(&self, out: &mut Out<S>) -> Result<(), Failed> {
        out.put_text(self)
    }
}

impl Text for &[u8] {
    ghost text = { λ bytes. bytes.now };

    fn put_to<S: Sink>(&self, out: &mut Out<S>) -> Result<(), Failed> {
        out.put_bytes(self)
    }
}

/// A number has its decimal digits.
impl Text for u64 {
    ghost text = { λ number. decimal number };

    fn put_to<S: Sink>(&self, out: &mut Out<S>) -> Result<(), Failed> {
        out.put_number(*self)
    }
}

/// A number has its decimal digits.
impl Text for u32 {
    ghost text = { λ number. decimal number };

    fn put_to<S: Sink>(&self, out: &mut Out<S>) -> Result<(), Failed> {
        out.put_number(u64::from(*self))
    }
}

impl<T: Text> Text for &T {
    ghost text = { λ thing. T.text thing.now };

    fn put_to<S: Sink>(&self, out: &mut Out<S>) -> Result<(), Failed> {
        (**self).put_to(out)
    }
}

impl<A: Text, B: Text> Text for (A, B) {
    ghost text = { λ things. A.text things.0 ++ B.text things.1 };

    fn put_to<S: Sink>(&self, out: &mut Out<S>) -> Result<(), Failed> {
        self.0.put_to(out)?;
        self.1.put_to(out)
    }
}

impl<A: Text, B: Text, C: Text> Text for (A, B, C) {
    ghost text = { λ things. A.text things.0 ++ (B.text things.1 ++ C.text things.2) };

    fn put_to<S: Sink>(&self, out: &mut Out<S>) -> Result<(), Failed> {
        (&self.0, (&self.1, &self.2)).put_to(out)
    }
}

impl<A: Text, B: Text, C: Text, D: Text> Text for (A, B, C, D) {
    ghost text = { λ things. A.text things.0 ++ (B.text things.1 ++ (C.text things.2 ++ D.text things.3)) };

    fn put_to<S: Sink>(&self, out: &mut Out<S>) -> Result<(), Failed> {
        (&self.0, (&self.1, &self.2, &self.3)).put_to(out)
    }
}
