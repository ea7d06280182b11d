// Numbers put into the table one after the other. What would stand beyond its end is left out.
ghost use Rattle.std.specs.Prelude.{[], ◌∷◌, ◌≡◌, ◌+◌, ◌≤◌, set};
ghost use Rattle.std.proofs.lemmas.List.Edits.{sets};

// One number.
pub fn put(t: &mut [u64], i: usize, x: u64)
    ensures { t.new ≡ set t.old i x }
{
    if i < t.len() {
        t[i] = x;
    }
}

// Two numbers.
pub fn two(t: &mut [u64], i: usize, a: u64, b: u64)
    ensures { t.new ≡ sets t.old i (a ∷ b ∷ []) }
{
    if i < t.len() {
        put(t, i, a);
        put(t, i + 1, b);
    }
}

// Five numbers.
pub fn five(t: &mut [u64], i: usize, a: u64, b: u64, c: u64, d: u64, e: u64)
    ensures { t.new ≡ sets t.old i (a ∷ b ∷ c ∷ d ∷ e ∷ []) }
{
    if i < t.len() {
        put(t, i, a);
        put(t, i + 1, b);
        put(t, i + 2, c);
        put(t, i + 3, d);
        put(t, i + 4, e);
    }
}

// Where the next row begins, if this one begins at i and takes n numbers of a table with `room` numbers.
pub fn next_row(i: usize, n: usize, room: usize) -> usize
    ensures { i + n ≤ room → result ≡ i + n }
{
    if i <= room {
        if n <= room - i {
            return i + n;
        }
    }
    i
}
