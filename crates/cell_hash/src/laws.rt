ghost use Rattle.std.specs.Prelude.{ℕ, List};
ghost use Rattle.cell_hash.specs.Writes.{LastWritesStand};

/// After any list of inserts and writes a table has for each key the value that was written with it
/// last, none for a key that was not written, and as many keys as were written.
pub fn last_writes_stand<T>()
    ensures law { (writes : List (ℕ × T)) → LastWritesStand writes }
{}
