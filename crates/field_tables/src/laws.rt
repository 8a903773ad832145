//! What the grammar of field tables alone says.

ghost use Rattle.std.specs.Prelude.{◌≡◌, ◌++◌, List, ℕ, []};
ghost use Rattle.field_tables.specs.Fields.{Field, Pairs};
ghost use Rattle.field_tables.specs.Tables.{IsTable, HasSpelling, value_spelling, table_spelling};

/// No value's spelling begins another's, so what was written is read again, whatever follows it.
pub fn values_are_apart()
    ensures { (v w : Field) (x y : List ℕ) → HasSpelling v → HasSpelling w
        → value_spelling v ++ x ≡ value_spelling w ++ y → (v ≡ w) × (x ≡ y) }
{}

/// No table's spelling begins another's.
pub fn tables_are_apart()
    ensures apart { (ps qs : Pairs) (x y : List ℕ) → IsTable ps → IsTable qs
        → table_spelling ps ++ x ≡ table_spelling qs ++ y → (ps ≡ qs) × (x ≡ y) }
    ensures prefix { (ps qs : Pairs) (rest : List ℕ) → IsTable ps → IsTable qs
        → table_spelling qs ≡ table_spelling ps ++ rest → (ps ≡ qs) × (rest ≡ []) }
{}
