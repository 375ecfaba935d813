// Why a text is not read.
use symbols::Memory;

/// Why a text was not read.
#[derive(Clone, Copy, Debug, PartialEq, Eq)]
pub enum FormStop {
    /// The text is not of the first form.
    OtherForm,
    /// Memory could not be had.
    Memory,
}

impl From<Memory> for FormStop {
    ghost use Rattle.std.specs.Prelude.{◌≡◌};
    ghost use Rattle.first_form.specs.declared.stop.FormStop.TheVariants as stop;

    ghost from_gives = { λ _ stopped. stopped ≡ stop.Memory };

    fn from(_: Memory) -> FormStop {
        FormStop::Memory
    }
}
