// Worked examples that are proved.
ghost use Rattle.std.specs.Prelude.{◌≡◌, ℕ, [], ◌∷◌, true, false, replicate, pos, Some, None, Ok, Err};
ghost use Rattle.fault.specs.declared.Stop.TheVariants.{CutShort, Misspelt, UnknownKind, BadEntry};
ghost use Rattle.fault.specs.Refusals.{refused_at};
ghost use Rattle.charge.specs.Decimals.{cents_entry, packed, cents_sum, cents_opposite};
ghost use Rattle.charge.specs.Kinds.{voices, pitch};
ghost use Rattle.criterion.specs.Balance.{ring_a};
ghost use Rattle.criterion.specs.Search.{padding, sums_to_zero};
ghost use Rattle.bench.specs.Benches.{label_of};
ghost use Rattle.bench.specs.Laws.{integers};
ghost use Rattle.bench.specs.Verdicts.{holds, agree, judge_found, judge_crossings, judging, compare_crossings, comparing};
ghost use Rattle.preset.specs.Numbers.{number_read, spell};
ghost use Rattle.preset.specs.Presets.{whole_preset};
ghost use Rattle.preset.specs.Writes.{preset_to_write, writing};
ghost use Rattle.cases.specs.Examples.{count, class, residues, elementary, ones, flip, weighing, counting, bench_150, bench_of_ones};
ghost use Rattle.cases.specs.Examples.{gain, broken_at, pattern_10, pattern_01, bytes_184, preset_184};
ghost use Rattle.cases.specs.Examples.{cent, ones_in_cents, header_in_cents, entries_in_cents, bytes_in_cents, preset_in_cents};
ghost use Rattle.cases.specs.WorkedLog.{WorkedLog, session, counts};

/// The worked examples that are proved: each clause is one, about the very definitions that the contracts of the calls
/// go by. The function itself does nothing.
#[tactic(auto, using(crate::proofs::Spelt::spelt_largest, crate::proofs::Classes::twelve_in_pitch, crate::proofs::WorkedLog::worked_log))]
pub fn worked_examples()
    // Numbers as written and as read: 300 is 82 2C, and the largest is 8F FF FF FF 7F.
    ensures spelt_300 { spell 300 ≡ 130 ∷ 44 ∷ [] }
    ensures read_300 { number_read 0 (130 ∷ 44 ∷ []) ≡ Ok (300, []) }
    // The largest has a name, v, since to compute its spelling takes as many steps as it is large.
    ensures spelt_largest { (v : ℕ) → v ≡ 4294967295 →
        spell v ≡ 143 ∷ 255 ∷ 255 ∷ 255 ∷ 127 ∷ [] }
    ensures read_largest { number_read 0 (143 ∷ 255 ∷ 255 ∷ 255 ∷ 127 ∷ []) ≡ Ok (4294967295, []) }
    // 80, 80 00 and 90 80 80 80 00 are misspelt, and a lone 81 is cut short.
    ensures misspelt_80 { number_read 6 (128 ∷ []) ≡ Err (refused_at Misspelt 6) }
    ensures misspelt_80_00 { number_read 6 (128 ∷ 0 ∷ []) ≡ Err (refused_at Misspelt 6) }
    ensures misspelt_long { number_read 6 (144 ∷ 128 ∷ 128 ∷ 128 ∷ 0 ∷ [])
        ≡ Err (refused_at Misspelt 6) }
    ensures cut_short_81 { number_read 6 (129 ∷ []) ≡ Err (refused_at CutShort 6) }
    // The bytes of rule 184 in voices.
    ensures preset_184 { whole_preset bytes_184 ≡ Ok preset_184 }
    // Rule 184 holds, and what crosses at the words 00, 01, 10 and 11 is 0, 0, 1, 0.
    ensures rule_184 { judging (counting (elementary 184)) 4 5 ≡ Ok holds }
    ensures crossings_184 { residues (judge_crossings (counting (elementary 184)) 4 5)
        ≡ 0 ∷ 0 ∷ 1 ∷ 0 ∷ [] }
    // Rule 90 breaks at the word 100, on a ring of five cells with one voice before and two after.
    ensures rule_90 { judging (counting (elementary 90)) 4 5 ≡ broken_at 4 5 (count 1) (count 2) }
    ensures ring_90 { judge_found (counting (elementary 90)) 4 5
        ≡ Ok (Some (4, 1 ∷ 0 ∷ 0 ∷ 0 ∷ 0 ∷ [])) }
    // Rule 150 holds in channels, where the letter 1 weighs channel set 1.
    ensures rule_150 { judging bench_150 4 5 ≡ Ok holds }
    ensures crossings_150 { residues (judge_crossings bench_150 4 5) ≡ 0 ∷ 1 ∷ 1 ∷ 0 ∷ [] }
    // Every answer 1, in pitch, where the letter 1 weighs 4: the word 00 fails. As a whole number the ring 000 gains 12,
    // which is 0 in pitch, so 00 is shown.
    ensures gain_000 { gain integers ones (weighing (pos 0) (pos 4)) (0 ∷ 0 ∷ 0 ∷ []) ≡ pos 12 }
    ensures twelve_in_pitch { class 12 ≡ class 0 }
    ensures sum_000 { sums_to_zero pitch (label_of bench_of_ones) (ring_a padding 2 (0 ∷ 0 ∷ []))
        ≡ true }
    ensures ones_in_pitch { judging bench_of_ones 2 3 ≡ broken_at 0 2 (class 0) (class 8) }
    ensures ring_of_ones { judge_found bench_of_ones 2 3 ≡ Ok (Some (0, 0 ∷ 0 ∷ [])) }
    // Cents, digit by digit: 1,199 and 1 are 0, 999 and 1 are 1,000, the opposite of 1 is 1,199 and that of 0 is 0; the
    // digits A, 0, 0, 0 are no entry.
    ensures octave { cents_sum (packed 1 1 9 9) (packed 0 0 0 1) ≡ packed 0 0 0 0 }
    ensures thousand { cents_sum (packed 0 9 9 9) (packed 0 0 0 1) ≡ packed 1 0 0 0 }
    ensures opposite_of_1 { cents_opposite (packed 0 0 0 1) ≡ packed 1 1 9 9 }
    ensures opposite_of_0 { cents_opposite (packed 0 0 0 0) ≡ packed 0 0 0 0 }
    ensures no_digit { cents_entry (packed 10 0 0 0) ≡ false }
    // A preset in cents with the entry 1,199, which is 89 2F, is read and written; 1,200, which is 89 30, is refused at
    // its place, and so is the kind 5.
    ensures read_1199 { whole_preset (bytes_in_cents (137 ∷ 47 ∷ [])) ≡ Ok (preset_in_cents 1199) }
    ensures written_1199 { writing header_in_cents (0 ∷ 1 ∷ []) (entries_in_cents 1199)
        (replicate 10 0) ≡ Ok (bytes_in_cents (137 ∷ 47 ∷ [])) }
    ensures read_1200 { whole_preset (bytes_in_cents (137 ∷ 48 ∷ []))
        ≡ Err (refused_at BadEntry 8) }
    ensures written_1200 { preset_to_write header_in_cents (0 ∷ 1 ∷ []) (entries_in_cents 1200)
        ≡ Err (refused_at BadEntry 1) }
    ensures kind_5 { whole_preset (5 ∷ []) ≡ Err (refused_at UnknownKind 0) }
    // Every answer 1, in cents, where the letter 1 weighs 400: the ring 000 gains 1,200, which is 0, so 00 is shown.
    ensures ones_in_cents { judging ones_in_cents 2 3 ≡ broken_at 0 2 (cent 0) (cent 800) }
    ensures ring_in_cents { judge_found ones_in_cents 2 3 ≡ Ok (Some (0, 0 ∷ 0 ∷ [])) }
    // A window of one letter, where each letter becomes the other.
    ensures flipping { judging (counting flip) 1 1 ≡ broken_at 0 1 (count 0) (count 1) }
    ensures ring_of_flip { judge_found (counting flip) 1 1 ≡ Ok (Some (0, 0 ∷ [])) }
    // The patterns 10 and 01, each worth one voice, agree.
    ensures patterns { comparing voices pattern_10 pattern_01 2 3 ≡ Ok agree }
    ensures crossings_of_patterns { residues (compare_crossings voices pattern_10 pattern_01 2 3)
        ≡ 0 ∷ 1 ∷ [] }
    // Rule 184 opened on 1100: the ring after a step, sites 1 and 2, and site 1 once cell 1 is touched to 1.
    ensures session_184 { WorkedLog (session (1 ∷ 0 ∷ 1 ∷ 0 ∷ [])
        (counts 1 0 0 0) (counts 0 1 0 1) (counts 1 0 1 1)) }
{}
