// What the exact audit is, of any ladder.

ghost use Rattle.std.specs.Prelude.{◌≡◌, ◌↔◌, ℕ, ◌<◌, List, Some, length, IsSome};
ghost use Rattle.key_terms.specs.declared.row.LadderRow.{LadderRow};
ghost use Rattle.key_terms.specs.Ladder.{IsLadder};
ghost use Rattle.key_audit.specs.Derives.{CanDerive, IsNearest};
ghost use Rattle.key_audit.specs.Local.{exact_mark};

/// A station has a mark in a row exactly where the key of the row is derivable from the keys of the rows that it
/// holds (`can`), and the mark is the nearest row that it holds on the way up from there (`from`).
pub fn marks_are_exact()
    ensures can { (rows : List LadderRow) (station k : ℕ) → IsLadder rows → k < length rows →
        IsSome (exact_mark rows station k) ↔ CanDerive rows station k }
    ensures from { (rows : List LadderRow) (station k from : ℕ) → IsLadder rows → k < length rows →
        exact_mark rows station k ≡ Some from → IsNearest rows station k from }
{}
