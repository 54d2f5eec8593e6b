// The number of slots for the values of steps.
ghost use Rattle.std.specs.Prelude.{◌<◌};
ghost use Rattle.event_judge.specs.Listed.{slot_count};

/// The number of slots for the values of steps: few if few are wanted, since all are cleared before they are used.
#[derive(Clone, Copy)]
pub(crate) enum SlotCount {
    Of28,
    Of64,
    Of128,
    Of256,
}

impl SlotCount {
    /// Returns the smallest of the four numbers of slots that gives one to the step with a number.
    pub fn fewest_for_step(place: usize) -> SlotCount
        requires { place < 256 }
        ensures { place < slot_count result }
    {
        if place < 28 {
            SlotCount::Of28
        } else if place < 64 {
            SlotCount::Of64
        } else if place < 128 {
            SlotCount::Of128
        } else {
            SlotCount::Of256
        }
    }
}
