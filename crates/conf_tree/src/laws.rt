//! What holds of the changes as they are defined: each function's contract is a law, and its body is empty.
ghost use Rattle.std.specs.Prelude.{◌≡◌, ◌∷◌, ◌++◌, [], List, ℕ, Some};
ghost use Rattle.serde_json.specs.Data.{Data};
ghost use Rattle.conf_tree.specs.Document.{IsDocument};
ghost use Rattle.conf_tree.specs.Laws.{IsGone, IsLonger, Part};
ghost use Rattle.conf_tree.specs.Paths.{append, changed, get, put, remove};

/// What was put at a path is got there, and each path that neither begins it nor is begun by it gets what it got.
pub fn put_is_got()
    ensures got { (path : List (List ℕ)) (value before after : Data)
        → put path value before ≡ changed after → get path after ≡ Some value }
    ensures others { (path other : List (List ℕ)) (value before after : Data)
        → put path value before ≡ changed after → Part path other
        → get other after ≡ get other before }
{}

/// What was appended stands behind the items of the array at the path, each value below these items stays at its path,
/// and each path that neither begins it nor is begun by it gets what it got.
pub fn appended_is_got()
    ensures longer { (path : List (List ℕ)) (value before after : Data)
        → append path value before ≡ changed after → IsLonger path value before after }
    ensures items { (path rest : List (List ℕ)) (k : List ℕ) (value before after found : Data)
        → append path value before ≡ changed after → get (path ++ k ∷ rest) before ≡ Some found
        → get (path ++ k ∷ rest) after ≡ Some found }
    ensures others { (path other : List (List ℕ)) (value before after : Data)
        → append path value before ≡ changed after → Part path other
        → get other after ≡ get other before }
{}

/// What was removed from the value at a path is gone: of an array the later items moved down, of an object the other
/// members stay, and each path that neither begins this path nor is begun by it gets what it got.
pub fn removed_is_gone()
    ensures gone { (path : List (List ℕ)) (k : List ℕ) (before after : Data) → IsDocument before
        → remove (path ++ k ∷ []) before ≡ changed after → IsGone path k before after }
    ensures others { (path other : List (List ℕ)) (k : List ℕ) (before after : Data)
        → remove (path ++ k ∷ []) before ≡ changed after → Part path other
        → get other after ≡ get other before }
{}
