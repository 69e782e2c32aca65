// Where a part stands, or why there is none.
use wire::{Fault, View};

// The number of the refusal, 0 for none, then start and end, 0 where it is refused.
pub(crate) fn numbered(view: Result<View, Fault>) -> [usize; 3] {
    match view {
        Ok(v) => [0, v.start, v.end],
        Err(fault) => [usize::from(fault.why.number()), 0, 0],
    }
}
