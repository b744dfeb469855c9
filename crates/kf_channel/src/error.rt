use kf_value::Mem;

/// Why a trace table has no channel.
#[derive(Clone, Copy, Debug, PartialEq, Eq)]
pub enum ChannelError {
    /// Some part of the target is not read before the program's statements.
    NotInitial,
    Mem,
}

impl From<Mem> for ChannelError {
    ghost use Rattle.std.specs.Prelude.{◌≡◌};
    ghost use Rattle.kf_channel.specs.declared.error.ChannelError.TheVariants as error;

    ghost from_gives = { λ _ e. e ≡ error.Mem };

    fn from(_: Mem) -> Self {
        ChannelError::Mem
    }
}
