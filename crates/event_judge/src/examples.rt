// Worked values of the words in which signs are remembered, by computation.
ghost use Rattle.std.specs.Prelude.{◌≡◌, pos};
ghost use Rattle.spec_numbers.specs.Numbers.{minus};
ghost use Rattle.spec_intervals.specs.declared.signs.Sign.TheVariants.{No, Open, Yes};
ghost use Rattle.event_judge.specs.Memory.{sign_word};

/// States the words for the signs at the time 7, and for `Yes` at 8 and at -2^50, the first time of all. None is 0.
pub fn words_of_signs()
    ensures yes { sign_word (pos 7) Yes ≡ pos 9007199254741021 }
    ensures no { sign_word (pos 7) No ≡ pos 9007199254741022 }
    ensures open { sign_word (pos 7) Open ≡ pos 9007199254741023 }
    ensures next { sign_word (pos 8) Yes ≡ pos 9007199254741025 }
    ensures first { sign_word (minus 1125899906842624) Yes ≡ pos 4503599627370497 }
{}
