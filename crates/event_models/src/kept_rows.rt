// The rows that are kept from one span of times to the next.
ghost use Rattle.std.specs.Prelude.{◌≤◌, ◌<◌};
ghost use Rattle.event_models.specs.Rows.{IsLine};

use crate::row_room::RowRoom;
use crate::rows::Line;
use body_states::Quantity;

/// How many rows are kept. The lines of whole granules and of their parts come again in turn, and most searches have
/// fewer than these.
const KEPT_ROWS: usize = 16;

/// Rows over lines of arguments. One that is needed and not there takes the place of the one used the longest time ago.
#[derive(Drop)]
pub(crate) struct KeptRows {
    rooms: [RowRoom; KEPT_ROWS],
    /// For each room the number of the span of times for which it was used last.
    used: [u64; KEPT_ROWS],
    /// The number of the span of times for which rows are used now.
    now: u64,
}

impl KeptRows {
    /// Makes room for sixteen rows, without a row.
    pub fn new() -> KeptRows {
        KeptRows {
            rooms: [RowRoom::new(); KEPT_ROWS],
            used: [0; KEPT_ROWS],
            now: 0,
        }
    }

    /// Begins another span of times: rows used from now on are used later than all before.
    pub fn begin_span(&mut self) {
        self.now = self.now.wrapping_add(1);
    }

    /// Returns the place of the row of a quantity over a line, which is written unless it is there with `n` entries.
    pub fn place_of_row(&mut self, quantity: Quantity, line: &Line, n: usize) -> usize
        requires line { IsLine line.now }
        requires some { 1 ≤ n }
        requires few { n ≤ 32 }
        ensures { result < 16 }
    {
        let place = self.place_for_line(line);
        self.used[place] = self.now;
        let room = &mut self.rooms[place];
        if !room.serves(quantity, line, n) {
            room.write_row(quantity, line, n);
        }
        place
    }

    // Returns the place of the row over a line, or if there is none, the place of the row used the longest time ago.
    fn place_for_line(&self, line: &Line) -> usize
        ensures { result < 16 }
    {
        let rooms = &self.rooms;
        for place in 0..KEPT_ROWS {
            if rooms[place].is_over(line) {
                return place;
            }
        }
        self.oldest_place()
    }

    // Returns the place of the row that was used the longest time ago.
    fn oldest_place(&self) -> usize
        ensures { result < 16 }
    {
        let mut oldest = 0;
        for place in 1..KEPT_ROWS {
            if self.used[place] < self.used[oldest] {
                oldest = place;
            }
        }
        oldest
    }

    /// Returns the row at a place.
    pub fn row(&self, place: usize) -> &RowRoom
        requires { place < 16 }
    {
        &self.rooms[place]
    }
}
