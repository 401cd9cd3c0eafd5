// Which texts are taken, and which limits they keep.
ghost use Rattle.std.specs.Prelude.{◌≡◌, ◌≢◌, ◌<◌, ◌≤◌, [], AllPairs, List, Ok, ℕ, length, sum_by};
ghost use Rattle.value_pool.specs.Pool.{stands_among};
ghost use Rattle.standard_files.specs.Sides.{IsFullAt, distinct_texts, texts_taken};

/// The texts that an empty pool takes of a list are its distinct texts: each text of the list and no other, none twice.
/// They are taken where their lengths together keep the limit, and else refused as full.
pub fn distinct_taken()
    ensures among { (texts : List (List ℕ)) (text : List ℕ) → stands_among (distinct_texts texts) text ≡ stands_among texts text }
    ensures once { (texts : List (List ℕ)) → AllPairs (λ a b. a ≢ b) (distinct_texts texts) }
    ensures taken { (limit : ℕ) (texts : List (List ℕ)) → sum_by length (distinct_texts texts) ≤ limit → texts_taken limit [] texts ≡ Ok (distinct_texts texts) }
    ensures full { (limit : ℕ) (texts : List (List ℕ)) → limit < sum_by length (distinct_texts texts) → (used : ℕ) × IsFullAt limit texts used }
{}
