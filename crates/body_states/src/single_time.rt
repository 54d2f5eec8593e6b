// What both targets are made of at a single time.
use crate::column_entries::ColumnEntry;
use crate::sources::KEPT_COLUMNS;
use crate::states::BodyStates;
use event_expr::Axes;
use event_expr::rules::TimeSpan;

/// The arithmetic of intervals at a single time, for lists of steps. Two tables, one for each quantity, hold the
/// columns that were evaluated along some axes of the files; along others a column is evaluated when it is asked for.
#[derive(Clone, Copy)]
pub(crate) struct SingleTime<'t, 'e> {
    pub states: &'t BodyStates<'e>,
    /// The time, as the first and the last of a span.
    pub times: &'t TimeSpan,
    pub position_axes: Axes,
    pub positions: &'t [ColumnEntry; KEPT_COLUMNS],
    pub velocity_axes: Axes,
    pub velocities: &'t [ColumnEntry; KEPT_COLUMNS],
}
