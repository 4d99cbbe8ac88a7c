//! Laws of the definitions, pin by pin. Each is the contract of a function that does nothing.
ghost use Rattle.std.specs.Prelude.{◌≡◌, ℕ, ◌+◌, ◌%◌, ◌^◌, ◌<◌, ◌==◌, List, ◌∷◌, ◌++◌, nat_lt, if◌then◌else◌};
ghost use Rattle.std.specs.Int.{bit_at};
ghost use Rattle.std.specs.List.{AllByRecursion};
ghost use Rattle.pin_matrix.specs.Pads.{pads_of, seen_of, first_synchroniser, after_pads, one_clock_ago, two_clocks_ago};
ghost use Rattle.pin_matrix.specs.Pins.{rotated_right, writes_of, place_of, IsWrite, IsFree, merged, last_of};
ghost use Rattle.pin_matrix.specs.declared.mapping.Mapping.{Mapping};

/// A mapped value, of any size, is written to the pins whose place is below the count, and each gets the bit of its place;
/// so it is a write of pins.
pub fn each_mapped_pin()
    ensures write { (m : Mapping) (value : ℕ) → IsWrite (writes_of m value) }
    ensures pins { (m : Mapping) (value p : ℕ) → p < 32 →
        bit_at (writes_of m value).0 p ≡ (if nat_lt (place_of m p) m.count then 1 else 0) }
    ensures bits { (m : Mapping) (value p : ℕ) → p < 32 →
        bit_at (writes_of m value).1 p
        ≡ (if nat_lt (place_of m p) m.count then bit_at value (place_of m p) else 0) }
{}

/// Counted from a base, bit i of the pins is pin (base + i) mod 32.
pub fn each_pin_from()
    ensures { (pins base i : ℕ) → pins < 2 ^ 32 → base < 32 → i < 32 →
        bit_at (rotated_right pins base) i ≡ bit_at pins ((base + i) % 32) }
{}

/// Of the writes of a clock, each pin gets the bit of the last one in the list that holds it; one that none holds stays.
pub fn the_last_write_counts()
    ensures pin { (p old : ℕ) (ws : List (ℕ × ℕ)) → p < 32 → AllByRecursion IsWrite ws →
        bit_at (merged old ws) p ≡ last_of p (bit_at old p) ws }
    ensures last { (p old : ℕ) (before : List (ℕ × ℕ)) (w : ℕ × ℕ) (after : List (ℕ × ℕ)) →
        bit_at w.0 p ≡ 1 → AllByRecursion (IsFree p) after →
        last_of p old (before ++ w ∷ after) ≡ bit_at w.1 p }
    ensures none { (p old : ℕ) (ws : List (ℕ × ℕ)) → AllByRecursion (IsFree p) ws →
        last_of p old ws ≡ old }
{}

/// Writes of no pins leave all pins, and nothing is such a write.
pub fn no_write_changes_nothing()
    ensures write { IsWrite (0, 0) }
    ensures pins { (old : ℕ) (ws : List (ℕ × ℕ)) → AllByRecursion (λ w. w.0 ≡ 0) ws →
        merged old ws ≡ old }
{}

/// Each pad is the pin's level where its direction is out, else the outside value.
pub fn each_pad()
    ensures { (level direction outside p : ℕ) → direction < 2 ^ 32 → p < 32 →
        bit_at (pads_of level direction outside) p
        ≡ (if bit_at direction p == 1 then bit_at level p else bit_at outside p) }
{}

/// After clocks with any pads, the synchronisers hold the pads of one and of two clocks ago, and a machine sees of each pin
/// the pad of two clocks ago, or of now where the pin bypasses its synchroniser.
pub fn what_a_machine_sees()
    ensures held { (before bypass : ℕ) (pads : List ℕ) →
        after_pads pads (first_synchroniser before bypass)
        ≡ record { pad_1 = one_clock_ago before pads; pad_2 = two_clocks_ago before pads; bypass = bypass } }
    ensures seen { (before bypass pad p : ℕ) (pads : List ℕ) → bypass < 2 ^ 32 → p < 32 →
        bit_at (seen_of bypass pad (after_pads pads (first_synchroniser before bypass)).pad_2) p
        ≡ (if bit_at bypass p == 1 then bit_at pad p else bit_at (two_clocks_ago before pads) p) }
{}

/// Where the pads are those of two clocks ago, a machine sees them.
pub fn settled_pads_are_seen()
    ensures { (bypass pad : ℕ) → bypass < 2 ^ 32 → pad < 2 ^ 32 → seen_of bypass pad pad ≡ pad }
{}

/// What writes, pads and synchronisers make of words of 32 bits are such words.
pub fn words_stay_words()
    ensures merged { (old : ℕ) (ws : List (ℕ × ℕ)) → old < 2 ^ 32 → AllByRecursion IsWrite ws →
        merged old ws < 2 ^ 32 }
    ensures pads { (level direction outside : ℕ) → level < 2 ^ 32 → outside < 2 ^ 32 →
        pads_of level direction outside < 2 ^ 32 }
    ensures seen { (bypass pad pad_2 : ℕ) → pad < 2 ^ 32 → pad_2 < 2 ^ 32 →
        seen_of bypass pad pad_2 < 2 ^ 32 }
{}
