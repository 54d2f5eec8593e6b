// What is known of the function of a search over times of one granule, and the still spans that it tells.
ghost use Rattle.std.specs.Prelude.{◌≡◌, ◌*◌, ◌^◌, ◌≤◌, ◌-ℤ◌, ◌≤ℤ◌, ◌<ℤ◌, pos, neg_ℤ, IfOk, IfSome};
ghost use Rattle.spec_bodies.specs.Views.{Fits};
ghost use Rattle.spec_bounds.specs.Steady.{sign_at};
ghost use Rattle.spec_stills.specs.Margins.{HasMargin};
ghost use Rattle.spec_models.specs.Models.{bulk};
ghost use Rattle.span_models.specs.Margins.{margin_of};
ghost use Rattle.event_models.specs.Signs.{greatest_ratio};
ghost use Rattle.still_spans.specs.Found.{IsStillOver};
ghost use Rattle.still_spans.specs.Knowledge.{AreSignsKnownOver, AreWithin, HasOneSign, IsBoundedOver, IsKnownOver, KeepAll, argument_of, side};

use crate::knowledge::Knowledge;
use crate::span_bound::{SpanBound, side_sign};
use event_bounds::RangeRows;
use event_judge::EventSearch;
use event_models::{ModelRooms, is_wide_enough};
use ival_core::Sign;
use span_models::{Margin, Model, Outlook};
use spec_stills::StillSpan;
use spec_stills::margin_laws::margins_tell_signs;

/// The least ratio of the times of a model to those of a finer one that tells more.
const FINER: u64 = 64;

/// The least length in ticks of a model that tells nothing in many ticks beside an event, so that it is not halved down
/// to where it tells nothing.
const LONG: u64 = 1 << 26;

/// The greatest length in ticks of a model that is halved down to where it tells nothing. A longer one that is not long
/// is over a part of a granule already, and a finer one would tell no more.
const SHORT: u64 = 1 << 22;

/// Why no still span is found over some times.
#[derive(Clone, Copy)]
pub(crate) enum Doubt {
    /// There may be some in parts of them.
    Parts,
    /// There may be some in parts of them, and a model over them alone tells of more.
    Rough,
    /// The model tells of none in any part.
    Blurred,
}

/// A model of the function of a search over times of one granule.
#[derive(Clone, Copy)]
pub(crate) struct Known {
    pub(crate) model: Model,
    pub(crate) first: i64,
    pub(crate) last: i64,
}

impl Known {
    /// Makes a model of the search's function over the times from `first` to `last`, in room that is lent. None is
    /// returned if the function has no model of its values there.
    pub(crate) fn over(
        search: &EventSearch,
        rooms: &mut ModelRooms,
        first: i64,
        last: i64,
    ) -> Option<Known>
        requires fits { Fits search.now.view first last }
        requires several { first <ℤ last }
        ensures { IfSome result (λ known. IsKnownOver search.now known first last) }
    {
        match Knowledge::over(search, rooms, first, last) {
            Some(Knowledge::Values(known)) => Some(known),
            Some(Knowledge::Signs(_)) => None,
            None => None,
        }
    }

    // Returns the argument of the model that stands for the time `t`, in half ticks from the middle of the model's
    // times: 0 in the middle, and plus or minus their whole length at the ends.
    fn argument_at(&self, t: i64) -> i64
        requires first_near { neg_ℤ (pos (2 ^ 50)) ≤ℤ self.now.first }
        requires last_near { self.now.last ≤ℤ pos (2 ^ 50) }
        requires from { self.now.first ≤ℤ t }
        requires upto { t ≤ℤ self.now.last }
        ensures { result ≡ argument_of self.now.first self.now.last t }
    {
        2 * t - self.first - self.last
    }

    // Returns the length of the model's times in ticks.
    fn length_in_ticks(&self) -> i64
        requires first_near { neg_ℤ (pos (2 ^ 50)) ≤ℤ self.now.first }
        requires last_near { self.now.last ≤ℤ pos (2 ^ 50) }
        requires ordered { self.now.first ≤ℤ self.now.last }
        ensures { result ≡ self.now.last -ℤ self.now.first }
    {
        self.last - self.first
    }

    // Returns what is known of all numbers near the model from `a` to `b`: a margin that they keep from 0 on one side, or
    // none.
    fn outlook_between(&self, a: i64, b: i64) -> Outlook
        requires first_near { neg_ℤ (pos (2 ^ 50)) ≤ℤ self.now.first }
        requires last_near { self.now.last ≤ℤ pos (2 ^ 50) }
        requires within { AreWithin self.now.first self.now.last a b }
        ensures { let x = self.now in IfSome result.margin (KeepAll x.model
            (argument_of x.first x.last a) (argument_of x.first x.last b) (x.last -ℤ x.first)) }
    {
        let (first, last) = (self.argument_at(a), self.argument_at(b));
        let length = self.length_in_ticks();
        self.model.outlook(first, last, length)
    }

    // Returns what the model tells of the function from `a` to `b`: how far it keeps from 0 and on which side, or no
    // margin if it may pass 0. The width of the search is read for what the call ensures.
    fn outlook_within(&self, search: &EventSearch, a: i64, b: i64) -> Outlook
        requires { IsKnownOver search.now self.now a b }
        ensures margin { IfSome result.margin (λ margin.
            HasMargin search.now a b (margin_of margin)) }
        ensures sign { IfSome result.margin (λ margin. sign_at search.now a ≡ side margin) }
    {
        margins_tell_signs();
        let _search = search.width();
        self.outlook_between(a, b)
    }

    // Returns the sign that the function has at each time from `a` to `b`, by a model that tells its signs. None is
    // returned if it is not seen to have one sign. The width of the search is read for what the call ensures.
    fn sign_within(&self, search: &EventSearch, a: i64, b: i64) -> Option<Sign>
        requires { AreSignsKnownOver search.now self.now a b }
        ensures { IfSome result (HasOneSign search.now a b) }
    {
        let _search = search.width();
        match self.outlook_between(a, b).margin {
            Some(margin) => self.sign_by_margin(margin),
            None => None,
        }
    }

    /// Returns the still span from `a` to `b` that the signs and the bound `over` show: the function has one sign there, and
    /// is monotone. None is returned if this is not seen.
    pub(crate) fn still_span_by_sign(
        &self,
        search: &EventSearch,
        over: &SpanBound,
        a: i64,
        b: i64,
    ) -> Option<StillSpan>
        requires known { AreSignsKnownOver search.now self.now a b }
        requires bounded { IsBoundedOver search.now over.now a b }
        ensures { IfSome result (λ still. IsStillOver search.now a b still) }
    {
        match self.sign_within(search, a, b) {
            Some(sign) => over.still_span_by_sign(search, sign, a, b),
            None => None,
        }
    }

    // Returns the sign of the numbers on the side of 0 on which a margin of the model is, or None if the margin is not
    // wide enough to tell it.
    fn sign_by_margin(&self, margin: Margin) -> Option<Sign>
        ensures sign { IfSome result (λ sign. sign ≡ side margin) }
        ensures unit { IfSome result (λ sign. margin.exponent ≡ self.now.model.exponent) }
        ensures far { IfSome result (λ sign. bulk self.now.model ≤ margin.size * greatest_ratio) }
    {
        if is_wide_enough(&self.model, margin) {
            Some(side_sign(margin))
        } else {
            None
        }
    }

    /// Returns the still span from `a` to `b` that the model's margin and the bound `over` show, with `spare` leaves to
    /// spare. The error says whether still spans may be found in parts of these times.
    pub(crate) fn still_span_within(
        &self,
        search: &EventSearch,
        rows: &mut RangeRows,
        over: &SpanBound,
        spare: u64,
        a: i64,
        b: i64,
    ) -> Result<StillSpan, Doubt>
        requires known { IsKnownOver search.now self.now a b }
        requires bounded { IsBoundedOver search.now over.now a b }
        ensures { IfOk result (λ still. IsStillOver search.now a b still) }
    {
        let outlook = self.outlook_within(search, a, b);
        match outlook.margin {
            Some(margin) => over
                .still_span_by_margin(search, rows, margin, spare, a, b)
                .ok_or(Doubt::Parts),
            None if self.is_long_and_far_wider(a, b) => Err(Doubt::Rough),
            None if outlook.is_blurred && self.is_short_and_far_wider(a, b) => Err(Doubt::Rough),
            None if outlook.is_blurred => Err(Doubt::Blurred),
            None => Err(Doubt::Parts),
        }
    }

    // Tells whether the model is longer than 2^26 ticks and at least 64 times as long as the times from `a` to `b`.
    // Then a model of their own is worth making at once.
    fn is_long_and_far_wider(&self, a: i64, b: i64) -> bool {
        LONG < self.last.abs_diff(self.first) && self.is_far_wider(a, b)
    }

    // Tells whether the model is at most 2^22 ticks long and at least 64 times as long as the times from `a` to `b`.
    // Then a model of their own may tell more, even though this one tells nothing.
    fn is_short_and_far_wider(&self, a: i64, b: i64) -> bool {
        self.last.abs_diff(self.first) <= SHORT && self.is_far_wider(a, b)
    }

    /// Returns the model by which the parts of the times from `a` to `b` are examined: this one, or for the doubt
    /// `Rough` a new one over these times alone. None is returned if no model can tell more, or none can be made.
    pub(crate) fn model_for_parts(
        &self,
        search: &EventSearch,
        rooms: &mut ModelRooms,
        doubt: Doubt,
        a: i64,
        b: i64,
    ) -> Option<Known>
        requires { IsKnownOver search.now self.now a b }
        ensures { IfSome result (λ known. IsKnownOver search.now known a b) }
    {
        match doubt {
            Doubt::Parts => Some(*self),
            Doubt::Rough => Known::over(search, rooms, a, b),
            Doubt::Blurred => None,
        }
    }

    // Tells whether the model's times are at least 64 times as long as those from `a` to `b`.
    fn is_far_wider(&self, a: i64, b: i64) -> bool {
        b.abs_diff(a) <= self.last.abs_diff(self.first) / FINER
    }
}
