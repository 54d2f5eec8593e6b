// The models of the steps of a list over the columns.
ghost use Rattle.std.specs.Prelude.{◌≡◌, ◌<◌, ◌<ℤ◌, IfSome, length, suc, ℤ};
ghost use Rattle.spec_intervals.specs.Interval.{Interval, product};
ghost use Rattle.spec_bodies.specs.Views.{Fits};
ghost use Rattle.spec_steps.specs.ColumnTerms.{sight_of};
ghost use Rattle.spec_steps.specs.Steps.{terms_of};
ghost use Rattle.column_steps.specs.Listed.{listed_term, slot_limit, step_count};
ghost use Rattle.column_steps.specs.Values.{AreValues};
ghost use Rattle.event_models.specs.Covered.{IsIfMade};
ghost use Rattle.event_models.specs.Signs.{IsFunctionModel, IsStepModel};
ghost use Rattle.event_models.specs.Spans.{IsSpanSeen, IsTermModel};

use crate::function_model::{FunctionModel, Told};
use crate::granules::column_granule;
use crate::spans::{ModelRooms, Span};
use crate::times::ModelTimes;
use body_states::{BodyStates, Ephemeris, Factor, Quantity};
use column_steps::{Arithmetic, MAX_STEPS, StepList, StepPlace, fill};
use event_expr::rules::{cosine_interval, length_interval};
use ival_core::Ival;
use span_models::Model;
use spec_covers::laws::points;
use spec_models::rounding_laws::ends_stay_in_order;
use spec_steps::laws::{
    listed_columns_are_read, listed_constants_are_within_limits, terms_mean_their_formulas,
};
use spec_text::Decimal;

/// Returns a model over the times from `c` to `d` of the formula that a step stands for: at each time it covers the
/// formula's enclosure there, or tells its sign. None is returned if an exponent or an error passes its limit, a signed
/// square is not seen to have one sign, or the columns need more than four rows. Equal parts are modelled once. Any room
/// serves.
///
/// The signs alone are told of the function of a right angle, which is the signed square of a product of vectors: near the
/// event it has both signs, and no polynomial is near it.
pub fn model_over(
    rooms: &mut ModelRooms,
    listed: StepPlace,
    ephemeris: &Ephemeris,
    states: &BodyStates,
    c: i64,
    d: i64,
) -> Option<FunctionModel>
    requires step { listed.place < step_count listed.steps.now }
    requires slot { listed.place < slot_limit }
    requires sight { listed.steps.now.sight ≡ sight_of states.now }
    requires same { states.now.ephemeris ≡ ephemeris.now }
    requires fits { Fits states.now c d }
    requires later { c <ℤ d }
    ensures { let l = listed.entry in
        IfSome result (IsFunctionModel states.now c d l.steps.now l.place) }
{
    points();
    terms_mean_their_formulas();
    let times = ModelTimes { first: c, last: d };
    rooms.write_rows(states, ephemeris, &times, listed);
    let span = Span {
        states,
        ephemeris,
        times,
        position: &rooms.position,
        velocity: &rooms.velocity,
    };
    step_model(&span, listed.steps, listed.place, &mut rooms.slots)
}

// Returns a model of the term of a step, by slots for it and the steps before it: of its values, or else of its signs. None
// is returned if it or a part has no model.
fn step_model(
    span: &Span,
    steps: &StepList,
    place: usize,
    slots: &mut [Option<Model>; MAX_STEPS],
) -> Option<FunctionModel>
    requires seen { IsSpanSeen span.now }
    requires sight { sight_of span.now.states.now ≡ steps.now.sight }
    requires step { place < step_count steps.now }
    requires slot { place < slot_limit }
    ensures { IfSome result (IsStepModel span.now (listed_term steps.now place)) }
{
    fill(span, steps, 0, place + 1, slots);
    match slots[place] {
        Some(model) => Some(FunctionModel {
            model,
            told: Told::Values,
        }),
        None => sign_model(span, steps, place, slots),
    }
}

// Returns a model of the signs of the term of a step, if it is the signed square of an earlier step's term and nothing
// else: the model of that term, which has the same signs. The slots hold the models of the steps up to this one.
fn sign_model(
    span: &Span,
    steps: &StepList,
    place: usize,
    slots: &[Option<Model>],
) -> Option<FunctionModel>
    requires step { place < step_count steps.now }
    requires room { place < length slots.now }
    requires values { AreValues (IsTermModel span.now) (terms_of steps.now.steps) (suc place) slots.now }
    ensures { IfSome result (IsStepModel span.now (listed_term steps.now place)) }
{
    match steps.squared_step(place) {
        Some(x) => match slots[x] {
            Some(model) => Some(FunctionModel {
                model,
                told: Told::Signs,
            }),
            None => None,
        },
        None => None,
    }
}

impl<'s, 'e> Arithmetic for Span<'s, 'e> {
    type Value = Option<Model>;

    ghost is_ready = { λ s. IsSpanSeen s };

    ghost sight = { λ s. sight_of s.states.now };

    ghost is_value = { λ s t made. IsTermModel s t made };

    fn column(&self, quantity: Quantity, number: usize, axis: usize) -> Option<Model> {
        listed_columns_are_read();
        let granule = column_granule(self.states, self.ephemeris, number, &self.times);
        self.rows(quantity)
            .model(quantity, &granule, axis, &self.times)
    }

    fn zero(&self) -> Option<Model> {
        Model::of_interval(Ival::zero())
    }

    fn length(&self, km: Decimal) -> Option<Model> {
        listed_constants_are_within_limits();
        Model::of_interval(length_interval(km))
    }

    fn cosine(&self, number: Decimal) -> Option<Model> {
        listed_constants_are_within_limits();
        Model::of_interval(cosine_interval(number))
    }

    fn scaled(&self, factor: Factor, x: &Option<Model>) -> Option<Model> {
        let constant = Model::of_interval(self.states.factor(factor));
        self.product_model(&constant, x)
    }

    fn sum(&self, x: &Option<Model>, y: &Option<Model>) -> Option<Model> {
        ends_stay_in_order();
        match (x, y) {
            (Some(x), Some(y)) => x.covering_sum(y),
            _ => None,
        }
    }

    fn difference(&self, x: &Option<Model>, y: &Option<Model>) -> Option<Model> {
        ends_stay_in_order();
        match (x, y) {
            (Some(x), Some(y)) => x.covering_difference(y),
            _ => None,
        }
    }

    fn product(&self, x: &Option<Model>, y: &Option<Model>) -> Option<Model> {
        self.product_model(x, y)
    }

    fn signed_square(&self, x: &Option<Model>) -> Option<Model> {
        ends_stay_in_order();
        match x {
            Some(x) => x.covering_square(),
            None => None,
        }
    }
}

impl<'s, 'e> Span<'s, 'e> {
    // Returns a model of the product of two modelled intervals, or None if a model is missing or the product has none.
    fn product_model(&self, x: &Option<Model>, y: &Option<Model>) -> Option<Model>
        ensures { (f g : ℤ → Interval)
            → IsIfMade self.now.times.first self.now.times.last x.now f
            → IsIfMade self.now.times.first self.now.times.last y.now g
            → IsIfMade self.now.times.first self.now.times.last result (λ t. product (f t) (g t)) }
    {
        ends_stay_in_order();
        match (x, y) {
            (Some(x), Some(y)) => x.covering_product(y),
            _ => None,
        }
    }
}
