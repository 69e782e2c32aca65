// An index that is known to be in the table.
ghost use Rattle.std.specs.Prelude.{◌<◌};

// One of the eight places.
#[derive(Clone, Copy)]
pub(crate) struct Spot {
    pub(crate) at: usize,
    ghost one_of_eight: { at < 8 },
}
