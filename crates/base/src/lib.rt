// Elements of a lent list: a part of it, and elements written one after the other.
#![tactic(auto)]

ghost use Rattle.std.specs.Prelude.{◌≡◌, [], ◌∷◌, ◌++◌, ◌+◌, ◌<◌, ◌≤◌, length, drop, replicate};
ghost use Rattle.base.specs.Cat.{kept, Wrote};
ghost use Rattle.base.specs.Numbers.{span, Part};

// The part of a list between two offsets.
pub fn span<'a, T>(off: &[u32], list: &'a [T], i: usize) -> &'a [T]
    requires { Part off.now i (length list.now) }
    ensures { result.now ≡ span off.now list.now i }
{
    &list[off[i] as usize..off[i + 1] as usize]
}

// One element written, and the place after it.
pub fn put<T: Copy>(list: &mut [T], at: usize, x: T) -> usize
    requires { at < length list.old }
    ensures { Wrote list.old list.new at (x ∷ []) result }
{
    list[at] = x;
    at + 1
}

// The element that there is written, and the place after it.
pub fn keep<T: Copy>(list: &mut [T], at: usize, x: Option<T>) -> usize
    requires { at + length (kept x) ≤ length list.old }
    ensures { Wrote list.old list.new at (kept x) result }
{
    match x {
        Some(x) => put(list, at, x),
        None => at,
    }
}

// Elements written one after the other, and the place after them.
pub fn put_all<T: Copy>(list: &mut [T], at: usize, s: &[T]) -> usize
    requires { at + length s.now ≤ length list.old }
    ensures { Wrote list.old list.new at s.now result }
{
    let end = at + s.len();
    list[at..end].copy_from_slice(s);
    end
}

// The first n elements set to x, and no other changed.
pub fn fill_front<T: Copy>(list: &mut [T], n: usize, x: T)
    requires { n ≤ length list.old }
    ensures { list.new ≡ replicate n x ++ drop n list.old }
{
    for k in 0..n {
        list[k] = x;
    }
}
