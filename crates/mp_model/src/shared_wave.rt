//! Waves that lists share.
ghost use Rattle.std.specs.Prelude.{◌≡◌};

use crate::wave_list::shared;
use mp_records::Kept;
use mp_wave::Wave;
use std::alloc::{AllocError, Global};
use std::marker::Model;
use std::sync::Arc;

/// A wave that lists share, or none. Contracts see the wave.
#[derive(Drop)]
pub(crate) struct SharedWave {
    wave: Option<Arc<Wave, Global>>,
}

impl Model for SharedWave {
    ghost use Rattle.std.specs.Prelude.{Option, option_map};
    ghost use Rattle.std.specs.Arc.{arc_value};
    ghost use Rattle.mp_wave.specs.Waveform.{Waveform};

    ghost Value = { Option Waveform };

    ghost view = { λ shared. option_map arc_value shared.wave };
}

impl Clone for SharedWave {
    ghost is_clone = { λ old new. new ≡ old };

    /// The same wave, shared once more.
    fn clone(&self) -> Result<Self, AllocError> {
        Ok(SharedWave {
            wave: shared(&self.wave)?,
        })
    }
}

impl Kept for SharedWave {
    ghost clones_equal = { λ old new same. same };
}

impl SharedWave {
    ghost use Rattle.std.specs.Prelude.{◌≡◌, None, option_map, IfOk};
    ghost use Rattle.std.specs.Option.{option_copied};
    ghost use Rattle.std.specs.Arc.{arc_value};

    /// This wave.
    pub(crate) fn of(wave: Option<Arc<Wave, Global>>) -> SharedWave
        ensures { result ≡ option_map arc_value wave }
    {
        SharedWave { wave }
    }

    /// No wave.
    pub(crate) fn none() -> SharedWave
        ensures { result ≡ None }
    {
        SharedWave { wave: None }
    }

    /// The wave, if there is one.
    pub(crate) fn get(&self) -> Option<&Wave>
        ensures { option_copied result ≡ self.now }
    {
        match &self.wave {
            Some(wave) => Some(wave),
            None => None,
        }
    }

    /// The wave, if there is one, to be shared.
    pub(crate) fn share(&self) -> Result<Option<Arc<Wave, Global>>, AllocError>
        ensures { IfOk result (λ wave. option_map arc_value wave ≡ self.now) }
    {
        shared(&self.wave)
    }
}
